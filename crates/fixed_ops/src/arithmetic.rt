// The operations at a point.
ghost use Rattle.std.specs.Prelude.{◌≡◌};
ghost use Rattle.fixed_ops.specs.Counts.{corners_of, points_of, RisesBy};
ghost use Rattle.fixed_ops.specs.Operations.{op_result};
ghost use Rattle.fixed_ops.specs.Raw.{IsRaw};
ghost use Rattle.fixed_ops.specs.Root.{IsRawRoot};

use crate::quotient::quotient;
use crate::root::root;
use crate::rounding::{clamped, product, whole};
use crate::{Fx, Op, Tally};

/// The result of an operation on two numbers, counted as one evaluation at a point. A coordinate
/// or a constant is handed in as `a` and comes back as it is.
#[inline]
#[tactic(auto, using(crate::proofs::ResultLaws::root_of_is_root))]
pub fn apply(op: Op, a: Fx, b: Fx, tally: &mut Tally) -> Fx
    ensures value { result ≡ op_result op a b }
    ensures root { op ≡ Op.Sqrt → IsRawRoot a result }
    ensures counted { RisesBy tally.old tally.new (points_of 1) }
{
    tally.count_point();
    Fx::from_raw(raw_result(op, a.raw(), b.raw()))
}

/// The result of an operation on two numbers, counted as one corner of a hull. It is the number that
/// `apply` gives.
#[inline]
#[tactic(auto, using(crate::proofs::ResultLaws::root_of_is_root))]
pub fn corner(op: Op, a: Fx, b: Fx, tally: &mut Tally) -> Fx
    ensures value { result ≡ op_result op a b }
    ensures root { op ≡ Op.Sqrt → IsRawRoot a result }
    ensures counted { RisesBy tally.old tally.new (corners_of 1) }
{
    tally.count_corner();
    Fx::from_raw(raw_result(op, a.raw(), b.raw()))
}

// The result of an operation on two raw numbers. It stands in the loop of each caller.
#[inline(always)]
fn raw_result(op: Op, a: i64, b: i64) -> i64
    requires left { IsRaw a }
    requires right { IsRaw b }
    ensures value { result ≡ op_result op a b }
    ensures raw { IsRaw result }
{
    match op {
        Op::X | Op::Y | Op::Z | Op::Const => a,
        Op::Neg => -a,
        Op::Square => product(a, a),
        Op::Sqrt => root(a),
        Op::Abs => a.abs(),
        Op::Floor => whole(a),
        Op::Add => clamped(a + b),
        Op::Sub => clamped(a - b),
        Op::Mul => product(a, b),
        Op::Div => quotient(a, b),
        Op::Min => a.min(b),
        Op::Max => a.max(b),
    }
}
