// The words with which commands begin.
ghost use Rattle.std.specs.Prelude.{◌≡◌, ◌≢◌, IfNone, IfSome};
ghost use Rattle.edit_script.specs.declared.keyword.Keyword.{Keyword};
ghost use Rattle.edit_script.specs.Keywords.{keyword_text};

/// The word with which a command begins.
#[derive(Clone, Copy, Debug, PartialEq, Eq)]
pub(crate) enum Keyword {
    /// Give a clause another form.
    Set,
    /// Add a clause at the end.
    Add,
    /// Put a clause before another.
    Put,
    /// Take a clause out.
    Cut,
    /// Take the last edit back.
    Undo,
    /// Draw an image.
    Render,
    /// Draw a height map.
    Height,
    /// Make a mesh.
    Mesh,
    /// Write the model as a text.
    Text,
    /// Tell what the last image took.
    Cost,
}

// The keyword that is written so.
pub(crate) fn read_keyword(word: &[u8]) -> Option<Keyword>
    ensures found { IfSome result (λ keyword. word.now ≡ keyword_text keyword) }
    ensures missing { IfNone result ((keyword : Keyword) → word.now ≢ keyword_text keyword) }
{
    match word {
        b"set" => Some(Keyword::Set),
        b"add" => Some(Keyword::Add),
        b"put" => Some(Keyword::Put),
        b"cut" => Some(Keyword::Cut),
        b"undo" => Some(Keyword::Undo),
        b"render" => Some(Keyword::Render),
        b"height" => Some(Keyword::Height),
        b"mesh" => Some(Keyword::Mesh),
        b"text" => Some(Keyword::Text),
        b"cost" => Some(Keyword::Cost),
        _ => None,
    }
}
