// The forms of solids.
ghost use Rattle.std.specs.Prelude.{◌≡◌, ◌≢◌, ◌≤◌, IfNone, IfSome};
ghost use Rattle.solid_lang.specs.Added.{own_clauses};
ghost use Rattle.solid_lang.specs.Forms.{form_named, form_text};
ghost use Rattle.solid_lang.specs.declared.form.Form.{Form};

// So many forms may stand within each other, the innermost counted too.
pub(crate) const DEEPEST: u16 = 256;

/// A form of a solid.
#[derive(Clone, Copy, Debug, PartialEq, Eq)]
pub(crate) enum Form {
    /// A ball.
    Ball,
    /// A box.
    Block,
    /// A cylinder.
    Cylinder,
    /// A solid that is moved.
    Move,
    /// A solid that is scaled.
    Scale,
    /// What is inside one of two solids.
    Union,
    /// What is inside both of two solids.
    Intersect,
    /// What is inside the first of two solids alone.
    Difference,
}

impl Form {
    /// How many clauses the form adds to those of its solids.
    #[inline]
    pub(crate) fn clauses(self) -> u32
        ensures value { result ≡ own_clauses self }
        ensures few { result ≤ 11 }
    {
        match self {
            Form::Ball => 8,
            Form::Block => 11,
            Form::Cylinder => 10,
            Form::Move => 6,
            Form::Scale => 4,
            Form::Union | Form::Intersect => 1,
            Form::Difference => 2,
        }
    }
}

// The form that a word names.
pub(crate) fn read_form(word: &[u8]) -> Option<Form>
    ensures { result ≡ form_named word.now }
{
    find_form(word)
}

// The form that is written so.
fn find_form(word: &[u8]) -> Option<Form>
    ensures found { IfSome result (λ form. word.now ≡ form_text form) }
    ensures missing { IfNone result ((form : Form) → word.now ≢ form_text form) }
{
    match word {
        b"ball" => Some(Form::Ball),
        b"box" => Some(Form::Block),
        b"cylinder" => Some(Form::Cylinder),
        b"move" => Some(Form::Move),
        b"scale" => Some(Form::Scale),
        b"union" => Some(Form::Union),
        b"intersect" => Some(Form::Intersect),
        b"difference" => Some(Form::Difference),
        _ => None,
    }
}
