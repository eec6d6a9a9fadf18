// The steps of each form.
ghost use Rattle.std.specs.Prelude.{◌≡◌, ◌+◌, ◌≤◌};
ghost use Rattle.solid_lang.specs.Compiled.{coordinates, first_axes};
ghost use Rattle.solid_lang.specs.Steps.{ball_steps, box_steps, cylinder_steps, difference_steps, intersect_steps, move_steps, moved_axes, scale_steps, scaled_axes, union_steps};

use crate::axes::Axes;
use crate::step::Step;
use fixed_ops::{Fx, Op};

/// The most clauses of all forms; what a form holds is not counted.
pub(crate) const MOST_STEPS: usize = 11;

/// The coordinates of the point itself, which are the first clauses, and their places.
#[inline]
pub(crate) fn coordinates() -> [Step; 3]
    ensures { result ≡ coordinates }
{
    [
        Step::coordinate(Op::X),
        Step::coordinate(Op::Y),
        Step::coordinate(Op::Z),
    ]
}

/// The places of the coordinates of the point itself.
#[inline]
pub(crate) fn first_axes() -> Axes
    ensures { result ≡ first_axes }
{
    Axes { x: 0, y: 1, z: 2 }
}

/// sub(add(add(square x, square y), square z), square r)
#[inline]
pub(crate) fn ball(n: u32, at: Axes, r: Fx) -> [Step; 8]
    requires { n + 8 ≤ 65535 }
    ensures { result ≡ ball_steps n at r }
{
    [
        Step::on_one(Op::Square, at.x),
        Step::on_one(Op::Square, at.y),
        Step::on_two(Op::Add, n, n + 1),
        Step::on_one(Op::Square, at.z),
        Step::on_two(Op::Add, n + 2, n + 3),
        Step::constant(r),
        Step::on_one(Op::Square, n + 5),
        Step::on_two(Op::Sub, n + 4, n + 6),
    ]
}

/// max(max(sub(abs x, a), sub(abs y, b)), sub(abs z, c))
#[inline]
pub(crate) fn block(n: u32, at: Axes, a: Fx, b: Fx, c: Fx) -> [Step; 11]
    requires { n + 11 ≤ 65535 }
    ensures { result ≡ box_steps n at a b c }
{
    [
        Step::on_one(Op::Abs, at.x),
        Step::constant(a),
        Step::on_two(Op::Sub, n, n + 1),
        Step::on_one(Op::Abs, at.y),
        Step::constant(b),
        Step::on_two(Op::Sub, n + 3, n + 4),
        Step::on_two(Op::Max, n + 2, n + 5),
        Step::on_one(Op::Abs, at.z),
        Step::constant(c),
        Step::on_two(Op::Sub, n + 7, n + 8),
        Step::on_two(Op::Max, n + 6, n + 9),
    ]
}

/// max(sub(add(square x, square y), square r), sub(abs z, h))
#[inline]
pub(crate) fn cylinder(n: u32, at: Axes, r: Fx, h: Fx) -> [Step; 10]
    requires { n + 10 ≤ 65535 }
    ensures { result ≡ cylinder_steps n at r h }
{
    [
        Step::on_one(Op::Square, at.x),
        Step::on_one(Op::Square, at.y),
        Step::on_two(Op::Add, n, n + 1),
        Step::constant(r),
        Step::on_one(Op::Square, n + 3),
        Step::on_two(Op::Sub, n + 2, n + 4),
        Step::on_one(Op::Abs, at.z),
        Step::constant(h),
        Step::on_two(Op::Sub, n + 6, n + 7),
        Step::on_two(Op::Max, n + 5, n + 8),
    ]
}

/// How far a point lies from one that is given, along each axis.
#[inline]
pub(crate) fn moved(n: u32, at: Axes, x: Fx, y: Fx, z: Fx) -> [Step; 6]
    requires { n + 6 ≤ 65535 }
    ensures { result ≡ move_steps n at x y z }
{
    [
        Step::constant(x),
        Step::on_two(Op::Sub, at.x, n),
        Step::constant(y),
        Step::on_two(Op::Sub, at.y, n + 2),
        Step::constant(z),
        Step::on_two(Op::Sub, at.z, n + 4),
    ]
}

/// Where the coordinates stand that `moved` gives.
#[inline]
pub(crate) fn moved_axes(n: u32) -> Axes
    requires { n + 6 ≤ 65535 }
    ensures { result ≡ moved_axes n }
{
    Axes {
        x: n + 1,
        y: n + 3,
        z: n + 5,
    }
}

/// The coordinates of a point divided by a factor.
#[inline]
pub(crate) fn scaled(n: u32, at: Axes, k: Fx) -> [Step; 4]
    requires { n + 4 ≤ 65535 }
    ensures { result ≡ scale_steps n at k }
{
    [
        Step::constant(k),
        Step::on_two(Op::Div, at.x, n),
        Step::on_two(Op::Div, at.y, n),
        Step::on_two(Op::Div, at.z, n),
    ]
}

/// Where the coordinates stand that `scaled` gives.
#[inline]
pub(crate) fn scaled_axes(n: u32) -> Axes
    requires { n + 4 ≤ 65535 }
    ensures { result ≡ scaled_axes n }
{
    Axes {
        x: n + 1,
        y: n + 2,
        z: n + 3,
    }
}

/// How the values of two solids give that of their union.
#[inline]
pub(crate) fn union(first: u32, second: u32) -> [Step; 1]
    ensures { result ≡ union_steps first second }
{
    [Step::on_two(Op::Min, first, second)]
}

/// How they give that of what is inside both.
#[inline]
pub(crate) fn intersection(first: u32, second: u32) -> [Step; 1]
    ensures { result ≡ intersect_steps first second }
{
    [Step::on_two(Op::Max, first, second)]
}

/// How they give that of the first without the second.
#[inline]
pub(crate) fn difference(n: u32, first: u32, second: u32) -> [Step; 2]
    ensures { result ≡ difference_steps n first second }
{
    [
        Step::on_one(Op::Neg, second),
        Step::on_two(Op::Max, first, n),
    ]
}
