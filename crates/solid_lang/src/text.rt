// The text of a solid's clauses, straight from its forms.
ghost use Rattle.std.specs.Prelude.{◌≡◌, ◌+◌, ◌≤◌, ◌++◌, length, IfOk, OnOk, Ok};
ghost use Rattle.clause_reader.specs.ModelText.{model_text};
ghost use Rattle.clause_reader.specs.Reading.{text_read};
ghost use Rattle.solid_lang.specs.Compiled.{compiled};
ghost use Rattle.solid_lang.specs.Counts.{clause_count, depth};
ghost use Rattle.solid_lang.specs.Placing.{Each, Fits};
ghost use Rattle.solid_lang.specs.Solids.{tree};
ghost use Rattle.solid_lang.specs.StepLines.{step_lines};

use crate::Solid;
use crate::compiler::put_all;
use crate::count::count_clauses;
use crate::form_steps::MOST_STEPS;
use crate::lines::{LONGEST_LINE, lines_before};
use crate::step::Step;
use crate::step_sink::StepSink;
use std::alloc::{AllocError, Global};

// The room that the lines of a form take at most.
const BLOCK: usize = MOST_STEPS * LONGEST_LINE;

// The bytes of a line; few are longer, and more are shorter. A text is first given room for so many.
const LINE: usize = 24;

/// The text of the model that a solid is compiled to: a line for each clause, whose name is `_` and
/// its place in decimal. It is read as the very clauses. AllocError: memory was refused.
#[tactic(auto, using(crate::proofs::LineLemmas::text_is_lines))]
pub fn solid_text(alloc: Global, solid: &Solid) -> Result<Vec<u8>, AllocError>
    requires few { clause_count (tree solid.now) ≤ 65535 }
    requires shallow { depth (tree solid.now) ≤ 256 }
    ensures text { IfOk result (λ text. text.items ≡ model_text (compiled (tree solid.now))) }
    ensures read { IfOk result (λ text. text_read text.items ≡ Ok (compiled (tree solid.now))) }
{
    let count = count_clauses(solid);
    let mut text = Vec::with_capacity(alloc, count as usize * LINE)?;
    put_all(&mut text, solid)?;
    Ok(text)
}

// A text takes steps as lines.
impl StepSink for Vec<u8> {
    ghost use Rattle.solid_lang.specs.AddUp.{lines_add_up};

    ghost takes = { λ text place. Unit {0} };

    ghost grows = { λ old new place steps. new.items ≡ old.items ++ step_lines place steps };

    #[inline]
    fn put(&mut self, place: u32, steps: &[Step]) -> Result<u32, AllocError> {
        push_lines(self, place, steps)
    }

    ghost adds_up = { λ a b c n m xs ys. lines_add_up a.items b.items c.items n m xs ys };
}

// Appends the lines of a few steps, and gives the place behind them.
fn push_lines(text: &mut Vec<u8>, place: u32, steps: &[Step]) -> Result<u32, AllocError>
    requires few { length steps.now ≤ 11 }
    requires places { place + length steps.now ≤ 65535 }
    requires fit { Each Fits place steps.now }
    ensures lines { OnOk result (text.new.items
        ≡ text.old.items ++ step_lines place steps.now) }
    ensures end { IfOk result (λ end. end ≡ place + length steps.now) }
{
    let mut block = [0; BLOCK];
    let start = lines_before(steps, place, &mut block, BLOCK);
    text.extend_from_slice(&block[start..])?;
    Ok(place + steps.len() as u32)
}
