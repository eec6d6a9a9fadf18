// Whether lists have the same steps, though their tables of constants may differ.
ghost use Rattle.std.specs.Prelude.{◌≡◌, ◌<◌, ◌↔◌, true, length, map, IsTrue};
ghost use Rattle.live_clauses.specs.Packed.{is_constant, unpacked};
ghost use Rattle.live_clauses.specs.Steps.{IsTape};

use crate::packed_step::PackedStep;
use fixed_ops::{Fx, Op};

// Whether two lists, each with the table of its constants, have the same steps. Its loop has all
// registers where it stands apart.
#[inline(never)]
pub(crate) fn same_steps(
    a: &[PackedStep],
    a_constants: &[Fx],
    b: &[PackedStep],
    b_constants: &[Fx],
) -> bool
    requires a { IsTape (map (unpacked a_constants.now) a.now) }
    requires b { IsTape (map (unpacked b_constants.now) b.now) }
    ensures { IsTrue result
        ↔ (map (unpacked a_constants.now) a.now ≡ map (unpacked b_constants.now) b.now) }
{
    if a.len() != b.len() {
        return false;
    }
    for at in 0..a.len() {
        if !same_step(&a[at], a_constants, &b[at], b_constants) {
            return false;
        }
    }
    true
}

// Whether two steps are the same: the numbers of constants are compared by their values.
#[inline(always)]
fn same_step(a: &PackedStep, a_constants: &[Fx], b: &PackedStep, b_constants: &[Fx]) -> bool
    requires a { is_constant a.now.op ≡ true → a.now.a < length a_constants.now }
    requires b { is_constant b.now.op ≡ true → b.now.a < length b_constants.now }
    ensures { IsTrue result ↔ (unpacked a_constants.now a.now ≡ unpacked b_constants.now b.now) }
{
    if a.op != b.op || a.b != b.b {
        return false;
    }
    match a.op {
        Op::Const => a_constants[a.a as usize] == b_constants[b.a as usize],
        _ => a.a == b.a,
    }
}
