// A clause of a model.

use crate::Name;
use fixed_ops::{Fx, Op};

/// A clause: a name, an operation, the places of its operands, and the number of a constant.
#[derive(Debug, Drop)]
pub struct Clause {
    /// What the clause is called.
    pub name: Name,
    /// What it computes.
    pub op: Op,
    /// The place of the first operand, or 0 where the operation has none.
    pub a: u32,
    /// The place of the second operand, or 0 where the operation has none.
    pub b: u32,
    /// The number of a constant, or 0.
    pub value: Fx,
}
