// Models, written as text.
ghost use Rattle.std.specs.Prelude.{◌≡◌, ◌<◌, ◌∷◌, ◌++◌, length, slice_get, IfOk, IfSome, OnOk};
ghost use Rattle.fixed_ops.specs.NumberTexts.{number_text};
ghost use Rattle.solid_model.specs.Clauses.{IsClauseAt};
ghost use Rattle.solid_model.specs.Named.{name_at};
ghost use Rattle.solid_model.specs.Seen.{clause_seen};
ghost use Rattle.clause_reader.specs.ModelText.{arguments, clause_line, model_text, spaced};

use arrayvec::ArrayVec;
use fixed_ops::{Fx, Op, arity, op_name, write_number};
use solid_model::{ClauseRef, Model};
use std::alloc::{AllocError, Global};

/// The text of a model: a line for each clause, with its name, its operation and its arguments, a
/// space between them, and a line feed. A constant is written by its number text.
pub fn write_model(alloc: Global, model: &Model) -> Result<Vec<u8>, AllocError>
    ensures { IfOk result (λ text. text.items ≡ model_text model.now) }
{
    let mut text = Vec::new(alloc);
    for at in 0..model.len() {
        push_clause(&mut text, model, at)?;
    }
    Ok(text)
}

// Appends the line of the clause at a place.
fn push_clause(text: &mut Vec<u8>, model: &Model, at: u32) -> Result<(), AllocError>
    requires { at < length model.now }
    ensures { OnOk result (IfSome (slice_get model.now at) (λ clause.
        text.new.items ≡ text.old.items ++ clause_line model.now clause)) }
{
    let clause = model.clause(at);
    text.extend_from_slice(clause.name)?;
    push_token(text, op_name(clause.op))?;
    push_arguments(text, model, clause, at)?;
    Ok(text.push(b'\n')?)
}

// Appends the arguments of the clause at a place, each after a space.
fn push_arguments(
    text: &mut Vec<u8>,
    model: &Model,
    clause: ClauseRef<'_>,
    at: u32,
) -> Result<(), AllocError>
    requires before { at < length model.now }
    requires clause { IsClauseAt at (clause_seen clause) }
    ensures { OnOk result
        (text.new.items ≡ text.old.items ++ spaced (arguments model.now
        (clause_seen clause.entry))) }
{
    match clause.op {
        Op::Const => push_number(text, clause.value),
        op => {
            if arity(op) > 0 {
                push_name(text, model, clause.a)?;
            }
            if arity(op) > 1 {
                push_name(text, model, clause.b)?;
            }
            Ok(())
        }
    }
}

// Appends the name of the clause at a place after a space.
#[tactic(auto, using(crate::proofs::WriterLemmas::name_at_place))]
fn push_name(text: &mut Vec<u8>, model: &Model, place: u32) -> Result<(), AllocError>
    requires { place < length model.now }
    ensures { OnOk result (text.new.items ≡ text.old.items ++ 32 ∷ name_at model.now place) }
{
    push_token(text, model.clause(place).name)
}

// Appends a number after a space.
fn push_number(text: &mut Vec<u8>, value: Fx) -> Result<(), AllocError>
    ensures { OnOk result (text.new.items ≡ text.old.items ++ 32 ∷ number_text value) }
{
    let mut number = ArrayVec::new();
    write_number(value, &mut number);
    push_token(text, number.as_slice())
}

// Appends a token after a space.
#[inline]
fn push_token(text: &mut Vec<u8>, token: &[u8]) -> Result<(), AllocError>
    ensures { OnOk result (text.new.items ≡ text.old.items ++ 32 ∷ token.now) }
{
    text.push(b' ')?;
    text.extend_from_slice(token)
}
