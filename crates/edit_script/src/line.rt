// The command of a line.
ghost use Rattle.std.specs.Prelude.{◌≡◌, ◌∷◌, IfOk};
ghost use Rattle.edit_script.specs.Commands.{after_keyword, command_read, IsCommand};

use crate::draw::read_draw;
use crate::edit_line::{read_add, read_cut, read_put, read_set};
use crate::keyword::{Keyword, read_keyword};
use crate::{Command, ScriptReason};
use clause_reader::{Line, Tokens};
use view_settings::Verb;

/// The command that a line says, which is no comment.
pub(crate) fn read_line(line: Line<'_>) -> Result<Command<'_>, ScriptReason>
    ensures value { result ≡ command_read line.entry.number
        (line.entry.first.now ∷ line.entry.others) }
    ensures keeps { IfOk result IsCommand }
{
    match read_keyword(line.first) {
        None => Err(ScriptReason::UnknownCommand),
        Some(keyword) => read_after(line.number, keyword, line.others),
    }
}

// The command of this keyword, after which these tokens stand.
fn read_after(line: u32, keyword: Keyword, tokens: Tokens<'_>) -> Result<Command<'_>, ScriptReason>
    ensures value { result ≡ after_keyword line keyword tokens.entry }
    ensures keeps { IfOk result IsCommand }
{
    match keyword {
        Keyword::Set => read_set(line, tokens),
        Keyword::Add => read_add(line, tokens),
        Keyword::Put => read_put(line, tokens),
        Keyword::Cut => read_cut(line, tokens),
        Keyword::Undo | Keyword::Text | Keyword::Cost if !tokens.is_empty() => {
            Err(ScriptReason::WrongArity)
        }
        Keyword::Undo => Ok(Command::Undo(line)),
        Keyword::Render => read_draw(Verb::Render, tokens),
        Keyword::Height => read_draw(Verb::Height, tokens),
        Keyword::Mesh => read_draw(Verb::Mesh, tokens),
        Keyword::Text => Ok(Command::Text),
        Keyword::Cost => Ok(Command::Cost),
    }
}
