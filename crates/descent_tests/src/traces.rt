// Values of lists over ranges and at points, and what a trace over a range leaves of them.
ghost use Rattle.std.specs.Prelude.{◌≤◌, ◌≤ℤ◌, length};
ghost use Rattle.fixed_ops.specs.Raw.{IsRaw};

use crate::lists::root;
use crate::steps::{SLOPES, expect_lines};
use choice_trace::{Domain, Inputs, evaluate, evaluate_lanes, trace};
use fixed_ops::{Fx, Tally};
use interval_ops::{Choice, Region, Span};
use live_clauses::{Tape, prune};
use std::alloc::{AllocError, Global};
use std::process::Abort;
use std::test::Fail;

const QUARTER: i64 = 1 << 30;

// The range between so many quarters.
fn quarters(lo: i8, hi: i8) -> Span
    requires { lo ≤ℤ hi }
{
    Span::new(
        Fx::from_raw(i64::from(lo) * QUARTER),
        Fx::from_raw(i64::from(hi) * QUARTER),
    )
}

// The inputs with y and z at 0.
fn along_x(x: Span) -> Region {
    let zero = Span::new(Fx::from_raw(0), Fx::from_raw(0));
    Region {
        x,
        y: zero,
        z: zero,
    }
}

// What a trace of a list over a range of x gives.
#[derive(Clone, Copy)]
struct Trace<'a> {
    // The range.
    x: Span,
    // The choice of the sixth step.
    choice: Choice,
    // The hull.
    hull: Span,
    // The steps that the choices leave, one a line.
    lines: &'a [u8],
}

// A trace of the list of slopes gives this.
fn expect_trace(
    rt: &impl Abort,
    alloc: Global,
    list: &Tape,
    wanted: &Trace<'_>,
) -> Result<(), Fail> {
    let mut regs = vec![in alloc; quarters(0, 0); list.len() as usize]?;
    let mut choices = vec![in alloc; Choice::Both; list.len() as usize]?;
    expect_trace_in(rt, alloc, list, wanted, &mut regs, &mut choices)
}

fn expect_trace_in(
    rt: &impl Abort,
    alloc: Global,
    list: &Tape,
    wanted: &Trace<'_>,
    regs: &mut [Span],
    choices: &mut [Choice],
) -> Result<(), Fail>
    requires regs { length list.now ≤ length regs.old }
    requires choices { length list.now ≤ length choices.old }
{
    let mut tally = Tally::new();
    let hull = trace(list, along_x(wanted.x), regs, choices, &mut tally);
    // Two corners each for sub, sub, min and add.
    let is_counted = (tally.spans(), tally.corners()) == (7, 8);
    let is_chosen = choices.get(5).copied() == Some(wanted.choice);
    assert!(rt; hull == wanted.hull && is_counted && is_chosen);
    let shortened = prune(alloc, list, choices)?;
    expect_lines(rt, alloc, &shortened, wanted.lines)
}

// What a list gives over a domain, with the work that it took.
fn value_of<D: Domain>(
    tape: &Tape,
    inputs: Inputs<D>,
    regs: &mut [D],
) -> Option<(D, u64, u64, bool)> {
    if regs.len() < tape.len() as usize {
        return None;
    }
    let mut tally = Tally::new();
    let value = evaluate(tape, inputs, regs, &mut tally);
    let few = tally.corners() <= 4 * u64::from(tape.len());
    Some((value, tally.points(), tally.spans(), few))
}

// What a list gives at a number of x, with the work that it took.
fn value_at(alloc: Global, list: &Tape, x: i8) -> Result<Option<(Fx, u64, u64, bool)>, AllocError> {
    let zero = quarter(0);
    let mut regs = vec![in alloc; zero; list.len() as usize]?;
    let inputs = Inputs {
        x: quarter(x),
        y: zero,
        z: zero,
    };
    Ok(value_of(list, inputs, &mut regs))
}

// The same over a range of x.
fn value_over(
    alloc: Global,
    list: &Tape,
    x: Span,
) -> Result<Option<(Span, u64, u64, bool)>, AllocError> {
    let zero = quarters(0, 0);
    let mut regs = vec![in alloc; zero; list.len() as usize]?;
    let inputs = Inputs {
        x,
        y: zero,
        z: zero,
    };
    Ok(value_of(list, inputs, &mut regs))
}

// The list of slopes has one value over each domain.
fn expect_values(rt: &impl Abort, alloc: Global, list: &Tape) -> Result<(), Fail> {
    // x is -0.5, and so x - 0.5 is -1, the other is 0, and the lesser and x are -1.5.
    let value = value_at(alloc, list, -2)?;
    let range = value_over(alloc, list, quarters(-4, -1))?;
    assert!(rt; value == Some((quarter(-6), 7, 0, true)));
    assert!(rt; range == Some((quarters(-10, -4), 0, 7, true)));
    Ok(())
}

// The number of so many quarters.
fn quarter(n: i8) -> Fx {
    Fx::from_raw(i64::from(n) * QUARTER)
}

// What a list gives at the first L of eight numbers of x, with the work that it took.
fn at_quarters<const L: usize>(
    tape: &Tape,
    quarters: [i8; 8],
    regs: &mut [[Fx; 8]],
) -> Option<([Fx; 8], u64)>
    requires { L ≤ 8 }
{
    if regs.len() < tape.len() as usize {
        return None;
    }
    let mut tally = Tally::new();
    let zeros = [quarter(0); 8];
    let inputs = Inputs {
        x: quarters.map(quarter),
        y: zeros,
        z: zeros,
    };
    let row = evaluate_lanes::<L>(&tape.steps(), &inputs, regs, &mut tally);
    Some((row, tally.points()))
}

// The list of slopes has its values at several points at once.
fn expect_lanes(rt: &impl Abort, alloc: Global, list: &Tape) -> Result<(), Fail> {
    let mut regs = vec![in alloc; [quarter(0); 8]; list.len() as usize]?;
    expect_lanes_in(rt, list, &mut regs);
    Ok(())
}

fn expect_lanes_in(rt: &impl Abort, list: &Tape, regs: &mut [[Fx; 8]]) {
    let x = [-4, -3, -2, -1, 0, 1, 2, 3];
    assert!(rt; are_values(at_quarters::<8>(list, x, regs), 8));
    assert!(rt; are_values(at_quarters::<4>(list, x, regs), 4));
    assert!(rt; are_values(at_quarters::<2>(list, x, regs), 2));
    assert!(rt; are_values(at_quarters::<1>(list, x, regs), 1));
}

// Whether so many of these values are those of the list, of seven steps each.
fn are_values(outcome: Option<([Fx; 8], u64)>, lanes: usize) -> bool {
    let Some(given) = outcome else {
        return false;
    };
    let (row, points) = (&given.0, given.1);
    // Where x is below 0 the lesser and x are 2 x - 0.5, and elsewhere -0.5.
    let expected = [-10, -8, -6, -4, -2, -2, -2, -2].map(quarter);
    points / 7 == lanes as u64
        && points % 7 == 0
        && row
            .iter()
            .zip(&expected)
            .take(lanes)
            .all(|(value, wanted)| value == wanted)
}

// The numbers of quarters at the ends of x, the choice of the sixth step, those at the ends of the hull, and the
// steps that the choices leave, one a line.
type Row = ((i8, i8), Choice, (i8, i8), &'static [u8]);

// x from -1 to -0.25, where x - 0.5 is at most -0.75 and -0.5 - x at least -0.25; x from 0.25 to
// 1, where -0.5 - x is at most -0.75 and x - 0.5 at least -0.25; and x from -0.25 to 0.25.
const TRACES: [Row; 3] = [
    (
        (-4, -1),
        Choice::Left,
        (-10, -4),
        b"var-x\nconst 0.5000000000\nsub 0 1\nadd 2 0\n",
    ),
    (
        (1, 4),
        Choice::Right,
        (-5, 1),
        b"var-x\nconst -0.5000000000\nsub 1 0\nadd 2 0\n",
    ),
    (
        (-1, 1),
        Choice::Both,
        (-4, 0),
        b"var-x\nconst 0.5000000000\nconst -0.5000000000\nsub 0 1\nsub 2 0\nmin 3 4\nadd 5 0\n",
    ),
];

fn expect_rows(rt: &impl Abort, alloc: Global, list: &Tape, rows: &[Row]) -> Result<(), Fail> {
    for (x, choice, hull, lines) in rows {
        assert!(rt; x.0 <= x.1 && hull.0 <= hull.1);
        let wanted = Trace {
            x: quarters(x.0, x.1),
            choice: *choice,
            hull: quarters(hull.0, hull.1),
            lines,
        };
        expect_trace(rt, alloc, list, &wanted)?;
    }
    Ok(())
}

#[test]
fn a_list_is_shortened_to_what_it_chooses(rt: HostRuntime) -> Result<(), Fail> {
    let list = root(rt.alloc(), SLOPES)?;
    expect_rows(&rt, rt.alloc(), &list, &TRACES)
}

#[test]
fn a_list_has_one_value_over_each_domain(rt: HostRuntime) -> Result<(), Fail> {
    let list = root(rt.alloc(), SLOPES)?;
    expect_values(&rt, rt.alloc(), &list)
}

#[test]
fn a_list_has_its_values_at_several_points_at_once(rt: HostRuntime) -> Result<(), Fail> {
    let list = root(rt.alloc(), SLOPES)?;
    expect_lanes(&rt, rt.alloc(), &list)
}
