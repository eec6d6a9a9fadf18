// Steps as lines, written from the last byte to the first into a block that grows to the front.
ghost use Rattle.std.specs.Prelude.{◌≡◌, ◌+◌, ◌*◌, ◌≤◌, ◌<◌, ◌∷◌, ◌++◌, length, drop};
ghost use Rattle.fixed_ops.specs.Arity.{arity_of};
ghost use Rattle.fixed_ops.specs.NumberTexts.{number_text};
ghost use Rattle.clause_reader.specs.ModelText.{spaced};
ghost use Rattle.solid_lang.specs.Compiled.{place_name};
ghost use Rattle.solid_lang.specs.Placing.{Each, Fits};
ghost use Rattle.solid_lang.specs.StepLines.{step_arguments, step_line, step_lines};

use crate::step::Step;
use arrayvec::ArrayVec;
use fixed_ops::{Fx, Op, arity, byte_before, op_name, write_number};
use itoa::write_digits;

/// The room for a line: a name of 6 bytes, the word of an operation of 6 and a number of 22, a space
/// before each of these two, and a line feed.
pub(crate) const LONGEST_LINE: usize = 37;

/// Writes the lines of the steps that stand from a place on before `end`, and returns where they start.
pub(crate) fn lines_before(steps: &[Step], place: u32, block: &mut [u8], end: usize) -> usize
    requires few { place + length steps.now ≤ 65535 }
    requires fit { Each Fits place steps.now }
    requires room { LONGEST_LINE * length steps.now ≤ end }
    requires within { end ≤ length block.old }
    ensures before { result ≤ end }
    ensures written { drop result block.new ≡ step_lines place steps.now ++ drop end block.old }
{
    let mut start = end;
    for i in (0..steps.len()).rev() {
        start = line_before(steps[i], place + i as u32, block, start);
    }
    start
}

// Writes the line of the step at a place before `end`, and returns where it starts.
#[inline]
#[tactic(auto, using(crate::proofs::LineLemmas::word_short))]
fn line_before(step: Step, place: u32, block: &mut [u8], end: usize) -> usize
    requires few { place < 65535 }
    requires fits { Fits place step }
    requires room { LONGEST_LINE ≤ end }
    requires within { end ≤ length block.old }
    ensures few { end ≤ result + LONGEST_LINE }
    ensures before { result ≤ end }
    ensures written { drop result block.new ≡ step_line place step ++ drop end block.old }
{
    let word = op_name(step.op);
    let start = byte_before(b'\n', block, end);
    let start = arguments_before(step, block, start);
    let start = token_before(word, block, start);
    name_before(place, block, start)
}

// Writes the arguments of a step, each after a space.
#[inline]
fn arguments_before(step: Step, block: &mut [u8], end: usize) -> usize
    requires first { 0 < arity_of step.op → step.a < 65535 }
    requires second { 1 < arity_of step.op → step.b < 65535 }
    requires room { 36 ≤ end }
    requires within { end ≤ length block.old }
    ensures few { end ≤ result + 23 }
    ensures before { result ≤ end }
    ensures written { drop result block.new
        ≡ spaced (step_arguments step) ++ drop end block.old }
{
    if step.op == Op::Const {
        return number_before(step.value, block, end);
    }
    match arity(step.op) {
        0 => end,
        1 => operand_before(step.a, block, end),
        _ => {
            let start = operand_before(step.b, block, end);
            operand_before(step.a, block, start)
        }
    }
}

// Writes a space and a number.
#[inline]
fn number_before(value: Fx, block: &mut [u8], end: usize) -> usize
    requires room { 23 ≤ end }
    requires within { end ≤ length block.old }
    ensures few { end ≤ result + 23 }
    ensures before { result ≤ end }
    ensures written { drop result block.new ≡ 32 ∷ number_text value ++ drop end block.old }
{
    let mut text = ArrayVec::new();
    write_number(value, &mut text);
    token_before(text.as_slice(), block, end)
}

// Writes a space and the name of the clause at a place.
#[inline]
fn operand_before(place: u32, block: &mut [u8], end: usize) -> usize
    requires few { place < 65535 }
    requires room { 7 ≤ end }
    requires within { end ≤ length block.old }
    ensures few { end ≤ result + 7 }
    ensures before { result ≤ end }
    ensures written { drop result block.new ≡ 32 ∷ place_name place ++ drop end block.old }
{
    let start = name_before(place, block, end);
    byte_before(b' ', block, start)
}

// Writes the name of the clause at a place.
#[inline]
#[tactic(auto, using(crate::proofs::LineLemmas::place_short))]
fn name_before(place: u32, block: &mut [u8], end: usize) -> usize
    requires few { place < 65535 }
    requires room { 6 ≤ end }
    requires within { end ≤ length block.old }
    ensures few { end ≤ result + 6 }
    ensures before { result ≤ end }
    ensures written { drop result block.new ≡ place_name place ++ drop end block.old }
{
    let start = write_digits(u64::from(place), block, end);
    byte_before(b'_', block, start)
}

// Writes a space and a token.
#[inline]
fn token_before(token: &[u8], block: &mut [u8], end: usize) -> usize
    requires room { length token.now + 1 ≤ end }
    requires within { end ≤ length block.old }
    ensures start { result + length token.now + 1 ≡ end }
    ensures written { drop result block.new ≡ 32 ∷ token.now ++ drop end block.old }
{
    let start = end - token.len();
    block[start..end].copy_from_slice(token);
    byte_before(b' ', block, start)
}
