// A model from a text.
ghost use Rattle.std.specs.Prelude.{◌≡◌, ◌^◌, ◌<◌, ◌∷◌, Ok, true, is_none, length, IfErr, IfOk, IfSome, OnOk};
ghost use Rattle.solid_model.specs.Names.{IsName};
ghost use Rattle.clause_reader.specs.Gives.{made, Gives};
ghost use Rattle.clause_reader.specs.Reading.{clauses_with, has_unknown, place_or_zero, GivesModel};
ghost use Rattle.clause_reader.specs.Scan.{line_tokens};
ghost use Rattle.clause_reader.specs.Written.{extended, names_in, parts_in};
ghost use Rattle.solid_model.specs.Parts.{IsForm};

use crate::operands::Operands;
use crate::written_form::{WrittenForm, form_of};
use crate::{Comments, Lines, ReadError, TextFault, TextReason, Tokens};
use solid_model::{Model, ModelBuilder};
use std::alloc::Global;

// The bytes of a clause line, of which few are shorter: a text is first given room for so many.
const LINE: usize = 16;

/// The model that a text says, line by line: blank lines and comments say nothing, and each other
/// line is a name, an operation and its arguments.
///
/// An `Err` tells the first line that is refused and the first reason that holds in it, or
/// `NoMemory` on a line that says a clause, up to which none is refused.
pub fn read_model(alloc: Global, text: &[u8]) -> Result<Model, TextFault>
    requires { length text.now < 2 ^ 32 }
    ensures { GivesModel text.now result }
{
    let mut builder = ModelBuilder::with_room(alloc, text.len() / LINE);
    let mut lines = Lines::new(text, Comments::Skipped);
    while let Some(line) = lines.next() {
        if let Err(error) = read_clause(&mut builder, line.first, line.others) {
            return Err(TextFault {
                line: line.number,
                reason: error.defect_or(TextReason::NoMemory),
            });
        }
    }
    builder.finish().ok_or(TextFault {
        line: 0,
        reason: TextReason::Empty,
    })
}

// Adds the clause of this name, whose operation and arguments are these tokens.
fn read_clause(
    builder: &mut ModelBuilder,
    name: &[u8],
    tokens: Tokens<'_>,
) -> Result<(), ReadError<TextReason>>
    requires { IsName name.now }
    ensures { Gives (clauses_with builder.old (name.now ∷ tokens.entry))
        (made builder.new result) }
{
    match form_of(tokens) {
        Ok(form) => push_form(builder, name, form),
        Err(defect) => Err(ReadError::Defect(TextReason::from(defect))),
    }
}

// Adds the clause of this name and form.
fn push_form(
    builder: &mut ModelBuilder,
    name: &[u8],
    form: WrittenForm<'_>,
) -> Result<(), ReadError<TextReason>>
    requires name { IsName name.now }
    requires form { IsForm (parts_in form) }
    ensures { Gives (extended builder.old name.now (Ok (parts_in form.entry)))
        (made builder.new result) }
{
    let Some((a, b)) = places(builder, form.operands) else {
        return Err(ReadError::Defect(TextReason::UnknownName));
    };
    Ok(builder.push(name, form.op, a, b, form.value)?)
}

// The places of the clauses that operands name, 0 for an operand that is not there. `None`: one of
// them names no clause.
fn places(builder: &ModelBuilder, operands: Operands<'_>) -> Option<(u32, u32)>
    ensures known { is_none result ≡ has_unknown builder.now (names_in operands.entry) }
    ensures first { IfSome result
        (λ places. places.0 ≡ place_or_zero builder.now (names_in operands.entry) 0) }
    ensures second { IfSome result
        (λ places. places.1 ≡ place_or_zero builder.now (names_in operands.entry) 1) }
    ensures first_before { IfSome result (λ places. 0 < length (names_in operands.entry)
        → places.0 < length builder.now) }
    ensures second_before { IfSome result (λ places. 1 < length (names_in operands.entry)
        → places.1 < length builder.now) }
{
    match operands {
        Operands::Zero => Some((0, 0)),
        Operands::One(first) => {
            let a = builder.position(first)?;
            Some((a, 0))
        }
        Operands::Two(first, second) => {
            let a = builder.position(first)?;
            let b = builder.position(second)?;
            Some((a, b))
        }
    }
}
