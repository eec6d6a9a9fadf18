// A solid from a text.
ghost use Rattle.std.specs.Prelude.{◌≡◌, ◌^◌, ◌<◌, Some, length, IfOk, IsSome, box_value, ℕ, List, IfErr};
ghost use Rattle.solid_lang.specs.Building.{form_read, number_read, pair_read, parts_read, solid_read, triple_read};
ghost use Rattle.solid_lang.specs.Gives.{GivesShortSolid, GivesSolid};
ghost use Rattle.solid_lang.specs.Judged.{fault_at};
ghost use Rattle.solid_lang.specs.NumberedTokens.{numbered_tokens};
ghost use Rattle.solid_lang.specs.declared.solid_reason.SolidReason.TheVariants.{NoMemory};
ghost use Rattle.solid_lang.specs.Solids.{tree};

use crate::form::{DEEPEST, Form, read_form};
use crate::judgement::{count_clauses, judge};
use crate::numbered_tokens::NumberedTokens;
use crate::{Solid, SolidFault, SolidReason};
use fixed_ops::{Fx, read_numeral};
use std::alloc::{AllocError, Global};

/// The solid that a text says: the word of its form, its numbers, and its solids, one after the
/// other, however they stand on lines. A solid of too many clauses is read too.
///
/// An `Err` tells the first bad token by its line and the lowest of the reasons that hold of it, or
/// that the tokens end too early. `NoMemory`, on line 0, comes only where the text says a solid.
pub fn read_solid(alloc: Global, text: &[u8]) -> Result<Solid, SolidFault>
    requires { length text.now < 2 ^ 32 }
    ensures { GivesSolid text.now result }
{
    match count_clauses(text) {
        Ok(_) => build_text(alloc, text),
        Err(fault) => Err(fault),
    }
}

/// The solid that a text says, where it has at most 65,535 clauses. Of one that has more nothing is
/// built.
///
/// An `Err` is that of `judge`, or `NoMemory`, on line 0, where the text says such a solid.
pub fn read_short_solid(alloc: Global, text: &[u8]) -> Result<Solid, SolidFault>
    requires { length text.now < 2 ^ 32 }
    ensures { GivesShortSolid text.now result }
{
    match judge(text) {
        Ok(_) => build_text(alloc, text),
        Err(fault) => Err(fault),
    }
}

// The solid that all tokens of a text are.
fn build_text(alloc: Global, text: &[u8]) -> Result<Solid, SolidFault>
    requires few { length text.now < 2 ^ 32 }
    requires good { IsSome (solid_read 256 (numbered_tokens text.now)) }
    ensures solid { IfOk result (λ solid. (rest : List (ℕ × List ℕ))
        × (solid_read 256 (numbered_tokens text.now) ≡ Some (tree solid, rest))) }
    ensures memory { IfErr result (λ fault. fault ≡ fault_at 0 NoMemory) }
{
    let mut tokens = NumberedTokens::new(text);
    match build(alloc, &mut tokens, DEEPEST) {
        Ok(solid) => Ok(solid),
        Err(_refused) => Err(SolidFault {
            line: 0,
            reason: SolidReason::NoMemory,
        }),
    }
}

// The solid with which tokens begin, which is known to be one that is at most so many forms deep.
#[cycle(build)]
fn build(alloc: Global, tokens: &mut NumberedTokens<'_>, room: u16) -> Result<Solid, AllocError>
    requires { IsSome (solid_read room tokens.old) }
    ensures { IfOk result (λ solid. solid_read room tokens.old ≡ Some (tree solid, tokens.new)) }
{
    let form = form(tokens);
    build_parts(alloc, tokens, form, room - 1)
}

// The solid of this form, whose numbers and solids stand next, each at most so many forms deep.
#[cycle(build)]
fn build_parts(
    alloc: Global,
    tokens: &mut NumberedTokens<'_>,
    form: Form,
    room: u16,
) -> Result<Solid, AllocError>
    requires { IsSome (parts_read (solid_read room) form tokens.old) }
    ensures { IfOk result (λ solid.
        parts_read (solid_read room) form tokens.old ≡ Some (tree solid, tokens.new)) }
{
    match form {
        Form::Ball => Ok(Solid::Ball(number(tokens))),
        Form::Block => {
            let (a, b, c) = triple(tokens);
            Ok(Solid::Block(a, b, c))
        }
        Form::Cylinder => {
            let r = number(tokens);
            let h = number(tokens);
            Ok(Solid::Cylinder(r, h))
        }
        Form::Move => {
            let (x, y, z) = triple(tokens);
            let solid = build_boxed(alloc, tokens, room)?;
            Ok(Solid::Move(x, y, z, solid))
        }
        Form::Scale => {
            let k = number(tokens);
            let solid = build_boxed(alloc, tokens, room)?;
            Ok(Solid::Scale(k, solid))
        }
        Form::Union => {
            let (a, b) = build_pair(alloc, tokens, room)?;
            Ok(Solid::Union(a, b))
        }
        Form::Intersect => {
            let (a, b) = build_pair(alloc, tokens, room)?;
            Ok(Solid::Intersect(a, b))
        }
        Form::Difference => {
            let (a, b) = build_pair(alloc, tokens, room)?;
            Ok(Solid::Difference(a, b))
        }
    }
}

// Two solids that stand next.
#[cycle(build)]
fn build_pair(
    alloc: Global,
    tokens: &mut NumberedTokens<'_>,
    room: u16,
) -> Result<(Box<Solid>, Box<Solid>), AllocError>
    requires { IsSome (pair_read (solid_read room) tokens.old) }
    ensures { IfOk result (λ pair. pair_read (solid_read room) tokens.old
        ≡ Some ((tree (box_value pair.0), tree (box_value pair.1)), tokens.new)) }
{
    let a = build_boxed(alloc, tokens, room)?;
    let b = build_boxed(alloc, tokens, room)?;
    Ok((a, b))
}

// A solid that stands next, in a block of its own.
#[cycle(build)]
fn build_boxed(
    alloc: Global,
    tokens: &mut NumberedTokens<'_>,
    room: u16,
) -> Result<Box<Solid>, AllocError>
    requires { IsSome (solid_read room tokens.old) }
    ensures { IfOk result (λ solid.
        solid_read room tokens.old ≡ Some (tree (box_value solid), tokens.new)) }
{
    let solid = build(alloc, tokens, room)?;
    Ok(Box::new(alloc, solid)?)
}

// The form whose word stands next.
fn form(tokens: &mut NumberedTokens<'_>) -> Form
    requires { IsSome (form_read tokens.old) }
    ensures { form_read tokens.old ≡ Some (result, tokens.new) }
{
    match tokens.next() {
        Some(token) => match read_form(token.text) {
            Some(form) => form,
            None => unreachable!(),
        },
        None => unreachable!(),
    }
}

// Three numbers whose numerals stand next.
fn triple(tokens: &mut NumberedTokens<'_>) -> (Fx, Fx, Fx)
    requires { IsSome (triple_read tokens.old) }
    ensures { triple_read tokens.old ≡ Some (result, tokens.new) }
{
    let a = number(tokens);
    let b = number(tokens);
    let c = number(tokens);
    (a, b, c)
}

// The number whose numeral stands next.
fn number(tokens: &mut NumberedTokens<'_>) -> Fx
    requires { IsSome (number_read tokens.old) }
    ensures { number_read tokens.old ≡ Some (result, tokens.new) }
{
    match tokens.next() {
        Some(token) => match read_numeral(token.text) {
            Ok(number) => number,
            Err(_) => unreachable!(),
        },
        None => unreachable!(),
    }
}
