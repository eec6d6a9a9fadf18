// What a clause says beside its name, where the names of its operands are lent.
ghost use Rattle.std.specs.Prelude.{◌≡◌};
ghost use Rattle.solid_model.specs.LentArgs.{args_seen};
ghost use Rattle.solid_model.specs.Parts.{IsForm};

use fixed_ops::{Fx, Op};
use std::marker::Model;

/// The names of up to two operands, in order, which are lent.
#[derive(Clone, Copy, Debug)]
pub enum ArgsRef<'n> {
    /// There is no operand.
    Zero,
    /// There is one.
    One(&'n [u8]),
    /// There are two.
    Two(&'n [u8], &'n [u8]),
}

/// A form, the names of whose operands are lent. It takes no memory, and contracts see it as they see
/// a `Form`.
#[derive(Debug, Drop)]
pub struct FormRef<'n> {
    op: Op,
    args: ArgsRef<'n>,
    value: Fx,
}

impl<'n> Model for FormRef<'n> {
    ghost use Rattle.solid_model.specs.Parts.{Parts, IsForm};
    ghost use Rattle.solid_model.specs.LentArgs.{args_seen};

    ghost Value = { Parts };

    ghost view = { λ f. record { op = f.op; args = args_seen f.args; value = f.value } };

    ghost invariant = { λ f. IsForm (record { op = f.op; args = args_seen f.args; value = f.value }) };
}

impl<'n> FormRef<'n> {
    /// The form of this operation, with the names of its operands and the number of a constant.
    #[inline]
    pub fn new(op: Op, args: ArgsRef<'n>, value: Fx) -> FormRef<'n>
        requires { IsForm (record { op = op; args = args_seen args; value = value }) }
        ensures { result ≡ record { op = op; args = args_seen args.entry; value = value } }
    {
        FormRef { op, args, value }
    }

    // The operation.
    #[inline]
    pub(crate) fn op(&self) -> Op
        ensures op { result ≡ self.now.op }
        ensures form { IsForm self.now }
    {
        self.op
    }

    // The names of the operands.
    #[inline]
    pub(crate) fn args(&self) -> ArgsRef<'n>
        ensures { args_seen result ≡ self.now.args }
    {
        self.args
    }

    // The number of a constant, or 0.
    #[inline]
    pub(crate) fn value(&self) -> Fx
        ensures { result ≡ self.now.value }
    {
        self.value
    }
}
