// The dual number of one operation. Each axis takes the same operations, made by the rules for sums,
// products and the rest, rounded and clamped as values are.
ghost use Rattle.std.specs.Prelude.{◌≡◌, ◌≤◌, pos};
ghost use Rattle.fixed_ops.specs.Operations.{op_result};
ghost use Rattle.fixed_ops.specs.Points.{step_value as value_of_step};
ghost use Rattle.fixed_ops.specs.Slopes.{flat as flat_dual, one, two};
ghost use Rattle.normal_shade.specs.DualWork.{derivative_cost as cost_of_derivatives};
ghost use Rattle.normal_shade.specs.Duals.{dual_of};

use crate::Dual;
use fixed_ops::{Fx, Op, Tally, apply, le, lt};
use live_clauses::Step;

// The value of a step at a point, whose operands have the values a and b.
#[inline(always)]
pub(crate) fn step_value(step: &Step, x: Fx, y: Fx, z: Fx, a: Fx, b: Fx) -> Fx
    ensures { result
        ≡ value_of_step step.now.op (record { x = x; y = y; z = z }) step.now.value a b }
{
    match step.op {
        Op::X => x,
        Op::Y => y,
        Op::Z => z,
        Op::Const => step.value,
        op => result_of(op, a, b),
    }
}

// The dual number of a step that has this value, whose operands have the values a and b and these dual
// numbers. At a kink the derivatives are one side's.
#[inline(always)]
pub(crate) fn step_dual(op: Op, value: Fx, a: Fx, b: Fx, da: Dual, db: Dual) -> Dual
    ensures { result ≡ dual_of op value a b da db }
{
    match op {
        Op::X => Dual {
            dx: unit(),
            ..constant(value)
        },
        Op::Y => Dual {
            dy: unit(),
            ..constant(value)
        },
        Op::Z => Dual {
            dz: unit(),
            ..constant(value)
        },
        Op::Const | Op::Floor => constant(value),
        Op::Neg => on_axes(Op::Neg, value, da, da),
        Op::Square => on_axes(Op::Mul, value, uniform(twice(a)), da),
        Op::Sqrt => {
            if lt(none(), value) {
                on_axes(Op::Div, value, da, uniform(twice(value)))
            } else {
                constant(value)
            }
        }
        Op::Abs => {
            if le(none(), a) {
                Dual { value, ..da }
            } else {
                on_axes(Op::Neg, value, da, da)
            }
        }
        Op::Add => on_axes(Op::Add, value, da, db),
        Op::Sub => on_axes(Op::Sub, value, da, db),
        Op::Mul => {
            let left = on_axes(Op::Mul, value, uniform(a), db);
            let right = on_axes(Op::Mul, value, uniform(b), da);
            on_axes(Op::Add, value, left, right)
        }
        Op::Div => {
            if b == none() {
                constant(value)
            } else {
                let part = on_axes(Op::Mul, value, uniform(value), db);
                let rest = on_axes(Op::Sub, value, da, part);
                on_axes(Op::Div, value, rest, uniform(b))
            }
        }
        Op::Min => {
            if le(a, b) {
                Dual { value, ..da }
            } else {
                Dual { value, ..db }
            }
        }
        Op::Max => {
            if le(b, a) {
                Dual { value, ..da }
            } else {
                Dual { value, ..db }
            }
        }
    }
}

// How many operations `step_dual` applies.
#[inline(always)]
pub(crate) fn derivative_cost(op: Op, a: Fx, b: Fx, value: Fx) -> u64
    ensures cost { result ≡ cost_of_derivatives op a b value }
    ensures few { result ≤ 9 }
{
    match op {
        Op::Neg | Op::Add | Op::Sub => 3,
        Op::Square => 4,
        Op::Sqrt => if lt(none(), value) { 4 } else { 0 },
        Op::Abs => if le(none(), a) { 0 } else { 3 },
        Op::Mul => 9,
        Op::Div => if b == none() { 0 } else { 9 },
        Op::X | Op::Y | Op::Z | Op::Const | Op::Floor | Op::Min | Op::Max => 0,
    }
}

// An operation along each axis.
#[inline(always)]
fn on_axes(op: Op, value: Fx, a: Dual, b: Dual) -> Dual
    ensures { result ≡ record {
      value = value;
      dx = op_result op a.dx b.dx;
      dy = op_result op a.dy b.dy;
      dz = op_result op a.dz b.dz;
    } }
{
    Dual {
        value,
        dx: result_of(op, a.dx, b.dx),
        dy: result_of(op, a.dy, b.dy),
        dz: result_of(op, a.dz, b.dz),
    }
}

// The same number along each axis.
#[inline(always)]
fn uniform(a: Fx) -> Dual
    ensures { result ≡ record { value = a; dx = a; dy = a; dz = a } }
{
    Dual {
        value: a,
        dx: a,
        dy: a,
        dz: a,
    }
}

// A value that is the same everywhere.
#[inline(always)]
pub(crate) fn constant(value: Fx) -> Dual
    ensures { result ≡ record flat_dual { value = value } }
{
    Dual {
        value,
        dx: none(),
        dy: none(),
        dz: none(),
    }
}

// The result of an operation on two numbers. What it counts is counted once a list.
#[inline(always)]
fn result_of(op: Op, a: Fx, b: Fx) -> Fx
    ensures { result ≡ op_result op a b }
{
    let mut unseen = Tally::new();
    apply(op, a, b, &mut unseen)
}

// The product of 2 and a number.
#[inline(always)]
fn twice(a: Fx) -> Fx
    ensures { result ≡ op_result Op.Mul two a }
{
    result_of(Op::Mul, Fx::from_raw(1 << 33), a)
}

// The slope along the axis of a coordinate.
#[inline(always)]
fn unit() -> Fx
    ensures { result ≡ one }
{
    Fx::from_raw(1 << 32)
}

// No slope.
#[inline(always)]
pub(crate) fn none() -> Fx
    ensures { result ≡ pos 0 }
{
    Fx::from_raw(0)
}
