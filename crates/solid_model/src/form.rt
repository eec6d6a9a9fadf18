// What a clause says beside its name.
ghost use Rattle.std.specs.Prelude.{◌≡◌, ◌≢◌, ◌≤◌, pos, length};
ghost use Rattle.solid_model.specs.LentArgs.{args_seen};
ghost use Rattle.fixed_ops.specs.Arity.{arity_of};

use crate::{ArgsRef, FormRef, Name};
use fixed_ops::{Fx, Op, arity, raw_range};
use std::marker::Model;

/// An operation with the names of its operands, and with the number of a constant.
/// It has as many names as the operation has operands, and the number 0 where it is no constant.
#[derive(Debug, Drop)]
pub struct Form {
    /// The operation.
    pub op: Op,
    /// The names of the operands, in order.
    pub args: Vec<Name>,
    /// The number of a constant, or 0.
    pub value: Fx,
}

impl Model for Form {
    ghost use Rattle.solid_model.specs.Parts.{Parts, IsForm};

    ghost Value = { Parts };

    ghost view = { λ f. record { op = f.op; args = f.args.items; value = f.value } };

    ghost invariant = { λ f. IsForm (record { op = f.op; args = f.args.items; value = f.value }) };
}

impl Form {
    /// The form of this operation, with the names of its operands and the number of a constant.
    #[inline]
    pub fn new(op: Op, args: Vec<Name>, value: Fx) -> Form
        requires arity { length args.items ≡ arity_of op }
        requires no_value { op ≢ Op.Const → value ≡ pos 0 }
        ensures { result ≡ record { op = op; args = args.items; value = value } }
    {
        raw_range(value);
        Form { op, args, value }
    }

    /// The same form, the names of its operands lent.
    #[inline]
    pub fn lent(&self) -> FormRef<'_>
        ensures { result ≡ self.now }
    {
        FormRef::new(self.op, names_of(&self.args, arity(self.op)), self.value)
    }
}

// So many names, which are all.
fn names_of(names: &[Name], count: u32) -> ArgsRef<'_>
    requires all { length names.now ≡ count }
    requires few { count ≤ 2 }
    ensures { args_seen result ≡ names.now }
{
    match names {
        [] => ArgsRef::Zero,
        [first] => ArgsRef::One(first.bytes()),
        [first, second, ..] => ArgsRef::Two(first.bytes(), second.bytes()),
    }
}
