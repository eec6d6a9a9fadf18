// Edits.
ghost use Rattle.std.specs.Prelude.{◌≡◌, ◌<◌, length, IfOk, IfSome};
ghost use Rattle.std.specs.Option.{option_map};
ghost use Rattle.clause_reader.specs.Forms.{form_said};
ghost use Rattle.clause_reader.specs.Scan.{line_tokens};
ghost use Rattle.clause_reader.specs.Tokens.{AreTokenBytes};
ghost use Rattle.edit_script.specs.Commands.{add_read, cut_read, form_found, name_checked, name_found, put_read, set_read, IsCommand};
ghost use Rattle.solid_model.specs.Names.{IsName};

use crate::{Command, ScriptReason};
use clause_reader::{Tokens, begins_comment, lent_form};
use solid_model::{EditRef, FormRef};

/// The command of `set`, of this name and form.
pub(crate) fn read_set(line: u32, mut tokens: Tokens<'_>) -> Result<Command<'_>, ScriptReason>
    ensures value { result ≡ set_read line tokens.entry }
    ensures keeps { IfOk result IsCommand }
{
    let Some(name) = tokens.next() else {
        return Err(ScriptReason::TooShort);
    };
    let form = read_operation(tokens.rest())?;
    match (find_name(name), form) {
        (Some(name), Some(form)) => Ok(Command::Edit(line, EditRef::set(name, form))),
        _ => Ok(Command::Stray(line)),
    }
}

/// The command of `add`, of this name and form.
pub(crate) fn read_add(line: u32, mut tokens: Tokens<'_>) -> Result<Command<'_>, ScriptReason>
    ensures value { result ≡ add_read line tokens.entry }
    ensures keeps { IfOk result IsCommand }
{
    let Some(name) = tokens.next() else {
        return Err(ScriptReason::TooShort);
    };
    check_name(name, &tokens)?;
    let form = read_operation(tokens.rest())?;
    match (find_name(name), form) {
        (Some(name), Some(form)) => Ok(Command::Edit(line, EditRef::add(name, form))),
        _ => Ok(Command::Stray(line)),
    }
}

/// The command of `put`, of these two names and this form.
pub(crate) fn read_put(line: u32, mut tokens: Tokens<'_>) -> Result<Command<'_>, ScriptReason>
    ensures value { result ≡ put_read line tokens.entry }
    ensures keeps { IfOk result IsCommand }
{
    let Some(next) = tokens.next() else {
        return Err(ScriptReason::TooShort);
    };
    let Some(name) = tokens.next() else {
        return Err(ScriptReason::TooShort);
    };
    check_name(name, &tokens)?;
    let form = read_operation(tokens.rest())?;
    let name = find_name(name);
    match (find_name(next), name, form) {
        (Some(next), Some(name), Some(form)) => {
            Ok(Command::Edit(line, EditRef::put(next, name, form)))
        }
        _ => Ok(Command::Stray(line)),
    }
}

/// The command of `cut`, of this name.
pub(crate) fn read_cut(line: u32, mut tokens: Tokens<'_>) -> Result<Command<'_>, ScriptReason>
    ensures value { result ≡ cut_read line tokens.entry }
    ensures keeps { IfOk result IsCommand }
{
    let Some(name) = tokens.next() else {
        return Err(ScriptReason::TooShort);
    };
    if !tokens.is_empty() {
        return Err(ScriptReason::WrongArity);
    }
    match find_name(name) {
        Some(name) => Ok(Command::Edit(line, EditRef::cut(name))),
        None => Ok(Command::Stray(line)),
    }
}

// Refuses a new name without an operation after it, or that begins with `#`.
fn check_name(name: &[u8], form: &Tokens<'_>) -> Result<(), ScriptReason>
    ensures { result ≡ name_checked name.now form.now }
{
    if form.is_empty() {
        return Err(ScriptReason::TooShort);
    }
    if begins_comment(name) {
        return Err(ScriptReason::BadName);
    }
    Ok(())
}

// The form that the line with which a text begins says. `None`: an argument begins with `#`.
fn read_operation(text: &[u8]) -> Result<Option<FormRef<'_>>, ScriptReason>
    ensures { result ≡ form_found (form_said (line_tokens text.now)) }
{
    match lent_form(text) {
        Ok(form) => Ok(form),
        Err(defect) => Err(ScriptReason::from(defect)),
    }
}

// The name that a token is. `None`: it begins with `#`.
#[inline]
fn find_name(token: &[u8]) -> Option<&[u8]>
    requires bytes { AreTokenBytes token.now }
    requires some { 0 < length token.now }
    ensures name { option_map (λ name. name.now) result ≡ name_found token.now }
    ensures keeps { IfSome result (λ name. IsName name.now) }
{
    if begins_comment(token) {
        None
    } else {
        Some(token)
    }
}
