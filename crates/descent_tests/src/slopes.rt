// The values of lists with their slopes, from a model's text on.
use crate::lists::root;
use fixed_ops::{Fx, Tally};
use live_clauses::Tape;
use normal_shade::{Dual, gradient};
use std::alloc::{AllocError, Global};
use std::process::Abort;
use std::test::Fail;

const QUARTER: i64 = 1 << 30;

// The number of so many quarters.
fn quarter(n: i8) -> Fx {
    Fx::from_raw(i64::from(n) * QUARTER)
}

// A value with its slopes, in quarters.
fn quarters(counts: [i8; 4]) -> Dual {
    let [value, dx, dy, dz] = counts;
    Dual {
        value: quarter(value),
        dx: quarter(dx),
        dy: quarter(dy),
        dz: quarter(dz),
    }
}

// The root list of a text has this value with its slopes, where x is -1, y is 0.5 and z so many quarters, by so
// many evaluations.
fn expect(
    rt: &impl Abort,
    alloc: Global,
    text: &[u8],
    z: i8,
    slopes: Dual,
    evaluations: u8,
) -> Result<(), Fail> {
    let list = root(alloc, text)?;
    expect_slopes(rt, alloc, &list, z, slopes, evaluations)
}

// A list has them: an evaluation is counted for the value of each step, and for each operation of a
// derivative.
fn expect_slopes(
    rt: &impl Abort,
    alloc: Global,
    list: &Tape,
    z: i8,
    slopes: Dual,
    evaluations: u8,
) -> Result<(), Fail> {
    let mut tally = Tally::new();
    let found = slopes_of(alloc, list, z, &mut tally)?;
    let work = (tally.points(), tally.spans(), tally.corners());
    assert!(rt; found == slopes, "not {slopes:?}");
    assert!(rt;
        work == (u64::from(evaluations), 0, 0),
        "not {evaluations} evaluations"
    );
    Ok(())
}

fn slopes_of(alloc: Global, list: &Tape, z: i8, tally: &mut Tally) -> Result<Dual, AllocError> {
    let mut regs = vec![in alloc; quarters([0; 4]); list.len() as usize]?;
    Ok(gradient(list, quarter(-4), quarter(2), quarter(z), &mut regs, tally))
}

// Models, so many quarters for z, the value with its slopes, in quarters, and the evaluations: one for each
// step, three for each sum, difference or sign along three axes, four for a square or a root, nine for a
// product or a quotient.
const RULES: [(&[u8], i8, [i8; 4], u8); 13] = [
    (b"y var-y\nf neg y", 0, [-2, 0, -4, 0], 5),
    (b"y var-y\nf floor y", 0, [0, 0, 0, 0], 2),
    // Of equal values the first one's slopes.
    (b"x var-x\nz var-z\nf min x z", -4, [-4, 4, 0, 0], 3),
    (b"x var-x\nz var-z\nf min z x", -4, [-4, 0, 0, 4], 3),
    (b"x var-x\nz var-z\nf max x z", -4, [-4, 4, 0, 0], 3),
    (b"x var-x\nz var-z\nf max z x", -4, [-4, 0, 0, 4], 3),
    // A distance rises at 0, and a root of 0 has no slope.
    (
        b"x var-x\nz var-z\na abs z\nb add a z\nf add b x",
        0,
        [-4, 4, 0, 8],
        11,
    ),
    (
        b"x var-x\nz var-z\ns sqrt z\nf add s x",
        0,
        [-4, 4, 0, 0],
        7,
    ),
    // The root of a quarter is a half, and rises as z does.
    (
        b"x var-x\nz var-z\ns sqrt z\nf add s x",
        1,
        [-2, 4, 0, 4],
        11,
    ),
    // -1 divided by a half.
    (b"x var-x\nz var-z\nf div x z", 2, [-8, 8, 0, 16], 12),
    (
        b"x var-x\nz var-z\nq square x\nc const 2\ne sub q c\nf add e z",
        2,
        [-2, -8, 0, 4],
        16,
    ),
    (
        b"x var-x\ny var-y\nz var-z\na square x\nb mul y a\nf add z b",
        1,
        [3, -4, 4, 4],
        22,
    ),
    // A clause that the last one does not need counts nothing.
    (b"z var-z\nu neg z\ny var-y", 0, [2, 0, 4, 0], 1),
];

fn expect_rules(
    rt: &impl Abort,
    alloc: Global,
    rows: &[(&[u8], i8, [i8; 4], u8)],
) -> Result<(), Fail> {
    for (text, z, slopes, evaluations) in rows {
        expect(rt, alloc, text, *z, quarters(*slopes), *evaluations)?;
    }
    Ok(())
}

#[test]
fn slopes_follow_the_rules(rt: HostRuntime) -> Result<(), Fail> {
    expect_rules(&rt, rt.alloc(), &RULES)
}

// 10^18 times x and as much times z.
const STEEP: &[u8] =
    b"x var-x\nz var-z\nk const 1e9\na mul x k\nb mul a k\nc mul z k\nd mul c k\nf add b d";

#[test]
fn slopes_stop_at_the_greatest_number(rt: HostRuntime) -> Result<(), Fail> {
    let none = Fx::from_raw(0);
    let greatest = Fx::from_raw(Fx::MAX_RAW);
    let value = Fx::from_raw(-Fx::MAX_RAW);
    let steep = Dual {
        value,
        dx: greatest,
        dy: none,
        dz: greatest,
    };
    expect(&rt, rt.alloc(), STEEP, -4, steep, 47)?;
    // Divided by 0, nothing has a slope.
    let flat = Dual {
        value,
        dx: none,
        dy: none,
        dz: none,
    };
    expect(&rt, rt.alloc(), b"x var-x\nz var-z\nf div x z", 0, flat, 3)
}
