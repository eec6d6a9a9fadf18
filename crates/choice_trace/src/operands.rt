// What the operation of a step is applied to.
ghost use Rattle.std.specs.Prelude.{◌≡◌, ◌<◌, length, slice_index_or};
ghost use Rattle.choice_trace.specs.Operands.{operand_of};

use crate::Inputs;
use fixed_ops::Op;
use live_clauses::Step;

/// The operands of a step: the element of its coordinate or of its constant, or those of earlier
/// steps. An operand that the operation lacks is read from the first step's place.
#[inline]
pub fn operands<D: Copy>(step: &Step, inputs: &Inputs<D>, constant: D, regs: &[D]) -> (D, D)
    requires first { step.now.a < length regs.now }
    requires second { step.now.b < length regs.now }
    ensures first { result.0 ≡ operand_of step.now.op inputs.now constant
        (slice_index_or regs.now step.now.a inputs.now.x) }
    ensures second { result.1 ≡ operand_of step.now.op inputs.now constant
        (slice_index_or regs.now step.now.b inputs.now.x) }
{
    let a = regs[step.a as usize];
    let b = regs[step.b as usize];
    match step.op {
        Op::X => (inputs.x, inputs.x),
        Op::Y => (inputs.y, inputs.y),
        Op::Z => (inputs.z, inputs.z),
        Op::Const => (constant, constant),
        _ => (a, b),
    }
}
