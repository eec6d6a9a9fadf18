// A step of a list.

use fixed_ops::{Fx, Op};

/// A step of a list: an operation, the places of its operands in the list, and the number of a
/// constant. It is a clause without a name.
#[derive(Clone, Copy, Debug, PartialEq, Eq)]
pub struct Step {
    /// What it computes.
    pub op: Op,
    /// The place of the first operand, or 0 where the operation has none.
    pub a: u32,
    /// The place of the second operand, or 0 where the operation has none.
    pub b: u32,
    /// The number of a constant, or 0.
    pub value: Fx,
}
