// The form that an operation and its arguments say.
ghost use Rattle.std.specs.Prelude.{◌≡◌, ◌≢◌, [], Err, Some, IfErr, IfOk, IsOk};
ghost use Rattle.std.specs.List.{list_any};
ghost use Rattle.clause_reader.specs.Forms.{form_read, form_said, unless_comment, GivesForm, HasOperands};
ghost use Rattle.clause_reader.specs.Gives.{Gives};
ghost use Rattle.clause_reader.specs.Lines.{begins_comment};
ghost use Rattle.clause_reader.specs.Scan.{line_tokens};
ghost use Rattle.clause_reader.specs.Written.{names_in, parts_in};
ghost use Rattle.solid_model.specs.LentArgs.{args_seen};
ghost use Rattle.solid_model.specs.Parts.{IsForm};

use crate::operands::Operands;
use crate::token::begins_comment;
use crate::written_form::{WrittenForm, form_of};
use crate::{FormDefect, FormFault, ReadError, Tokens};
use solid_model::{ArgsRef, Form, FormRef, Name};
use std::alloc::{AllocError, Global};

/// The form that a line says: an operation and its arguments. A line feed ends the line.
///
/// The first of these that holds is answered. `NoOperation`: there is no token. `UnknownOperation`:
/// the first names no operation. `WrongArity`: the others are not as many as it takes.
/// `BadNumeral`: the argument of a constant is no numeral. `BadName`: an argument begins with `#`.
/// `NoMemory`: memory was refused for the name of an operand, and none of these holds.
pub fn read_form(alloc: Global, rest: &[u8]) -> Result<Form, FormFault>
    ensures form { GivesForm (line_tokens rest.now) result }
    ensures names { result ≡ Err FormFault.NoMemory
        → IfOk (form_read (line_tokens rest.now)) (λ form. form.args ≢ []) }
{
    match find_form(alloc, rest) {
        Ok(form) => form.ok_or(FormFault::BadName),
        Err(error) => Err(FormFault::from(error)),
    }
}

/// The form that a line says. `None`: one of its arguments begins with `#`, so that it names no
/// clause. An `Err` tells the first defect, or want of memory for the name of an operand.
pub fn find_form(alloc: Global, rest: &[u8]) -> Result<Option<Form>, ReadError<FormDefect>>
    ensures form { Gives (form_said (line_tokens rest.now)) result }
    ensures names { result ≡ Err ReadError.Memory → HasOperands (line_tokens rest.now) }
{
    match form_of(Tokens::new(rest)) {
        Ok(form) => Ok(make_form(alloc, form)?),
        Err(defect) => Err(ReadError::Defect(defect)),
    }
}

/// The form that a line says, the names of its operands lent, as `find_form` tells it. No memory is asked for.
pub fn lent_form(rest: &[u8]) -> Result<Option<FormRef<'_>>, FormDefect>
    ensures { result ≡ form_said (line_tokens rest.now) }
{
    match form_of(Tokens::new(rest)) {
        Ok(form) => Ok(lend(form)),
        Err(defect) => Err(defect),
    }
}

// The form of an operation with its operands, whose names are lent. `None`: one of them begins a comment.
fn lend(form: WrittenForm<'_>) -> Option<FormRef<'_>>
    requires { IsForm (parts_in form) }
    ensures { result ≡ unless_comment (parts_in form.entry) }
{
    if has_comment(form.operands) {
        return None;
    }
    Some(FormRef::new(form.op, args(form.operands), form.value))
}

// The names of operands, which are lent.
#[inline]
fn args(operands: Operands<'_>) -> ArgsRef<'_>
    ensures { args_seen result ≡ names_in operands.entry }
{
    match operands {
        Operands::Zero => ArgsRef::Zero,
        Operands::One(first) => ArgsRef::One(first),
        Operands::Two(first, second) => ArgsRef::Two(first, second),
    }
}

// The form of an operation with its operands. `None`: one of them begins a comment.
fn make_form(alloc: Global, form: WrittenForm<'_>) -> Result<Option<Form>, AllocError>
    requires { IsForm (parts_in form) }
    ensures form { IfOk result (λ made. made ≡ unless_comment (parts_in form.entry)) }
    ensures named { IfErr result
        (λ refused. unless_comment (parts_in form.entry) ≡ Some (parts_in form.entry)) }
    ensures some { IfErr result (λ refused. names_in form.entry.operands ≢ []) }
{
    if has_comment(form.operands) {
        return Ok(None);
    }
    let args = names(alloc, form.operands)?;
    Ok(Some(Form::new(form.op, args, form.value)))
}

// Whether an operand begins a comment.
fn has_comment(operands: Operands<'_>) -> bool
    ensures { result ≡ list_any begins_comment (names_in operands.entry) }
{
    match operands {
        Operands::Zero => false,
        Operands::One(first) => begins_comment(first),
        Operands::Two(first, second) => begins_comment(first) || begins_comment(second),
    }
}

// The names of operands, in room for no more than these.
fn names(alloc: Global, operands: Operands<'_>) -> Result<Vec<Name>, AllocError>
    ensures names { IfOk result (λ names. names.items ≡ names_in operands.entry) }
    ensures none { names_in operands.entry ≡ [] → IsOk result }
{
    let mut names = Vec::new(alloc);
    match operands {
        Operands::Zero => {}
        Operands::One(first) => {
            names.reserve_exact(1)?;
            names.push(name(alloc, first)?)?;
        }
        Operands::Two(first, second) => {
            names.reserve_exact(2)?;
            names.push(name(alloc, first)?)?;
            names.push(name(alloc, second)?)?;
        }
    }
    Ok(names)
}

// The name of a token that begins no comment.
fn name(alloc: Global, token: &[u8]) -> Result<Name, AllocError>
    ensures { IfOk result (λ name. name ≡ token.now) }
{
    Name::new(alloc, token).map_err(|_| AllocError)
}
