// Hulls and choices with values worked out by hand, in tables.
use fixed_ops::{Fx, Op, Tally};
use interval_ops::{Choice, Span, choose, decided, span_apply};
use std::process::Abort;

const ONE: i64 = 1 << 32;

const GREATEST: i64 = 4_611_686_018_427_387_903;

// The raw numbers at the ends of a range.
type Ends = (i64, i64);

const ALL: Ends = (-GREATEST, GREATEST);

// An operation, the ranges that it is applied to, and the hull of what it gives.
type Hull = (Op, Ends, Ends, Ends);

// The range between raw numbers, where they are some in order.
fn span(ends: Ends) -> Option<Span> {
    let (lo, hi) = ends;
    if -Fx::MAX_RAW <= lo && lo <= hi && hi <= Fx::MAX_RAW {
        Some(Span::new(Fx::from_raw(lo), Fx::from_raw(hi)))
    } else {
        None
    }
}

// The hull of an operation, with the points and the hulls that it counted.
fn hull(op: Op, a: Ends, b: Ends) -> Option<(Span, u64, u64)> {
    let mut tally = Tally::new();
    let hull = span_apply(op, span(a)?, span(b)?, &mut tally);
    Some((hull, tally.points(), tally.spans()))
}

// The range of a hull, as it is counted.
fn counted(ends: Ends) -> Option<(Span, u64, u64)> {
    Some((span(ends)?, 0, 1))
}

// Each operation has its hull, which is counted once.
fn expect_hulls(rt: &impl Abort, rows: &[Hull]) {
    for (op, a, b, result) in rows {
        assert!(rt;
            hull(*op, *a, *b) == counted(*result),
            "{op:?} of {a:?} and {b:?}"
        );
    }
}

const HULLS: [Hull; 27] = [
    (Op::X, (-3, 7), (1, 2), (-3, 7)),
    (Op::Const, (5, 5), (0, 0), (5, 5)),
    (Op::Neg, (1, 5), (0, 0), (-5, -1)),
    (Op::Square, (-2 * ONE, ONE), (0, 0), (0, 4 * ONE)),
    (Op::Square, (0, 2 * ONE), (0, 0), (0, 4 * ONE)),
    (Op::Square, (-2 * ONE, 0), (0, 0), (0, 4 * ONE)),
    (Op::Square, (-3 * ONE, -ONE), (0, 0), (ONE, 9 * ONE)),
    (Op::Sqrt, (-ONE, 4 * ONE), (0, 0), (0, 2 * ONE)),
    (Op::Sqrt, (-4, -1), (0, 0), (0, 0)),
    (
        Op::Sqrt,
        (2 * ONE, 2 * ONE),
        (0, 0),
        (6_074_000_999, 6_074_000_999),
    ),
    (Op::Abs, (-2, 1), (0, 0), (0, 2)),
    (Op::Abs, (0, 5), (0, 0), (0, 5)),
    (Op::Abs, (-5, 0), (0, 0), (0, 5)),
    (Op::Abs, (-5, -2), (0, 0), (2, 5)),
    (Op::Floor, (1, 1), (0, 0), (0, 0)),
    (Op::Floor, (-1, 1), (0, 0), (-ONE, 0)),
    (Op::Floor, (ONE - 1, ONE), (0, 0), (0, ONE)),
    (Op::Floor, (1, ONE - 1), (0, 0), (0, 0)),
    (Op::Floor, (ONE, ONE), (0, 0), (ONE, ONE)),
    (Op::Floor, (-ONE, -1), (0, 0), (-ONE, -ONE)),
    (Op::Floor, (-ONE - 1, -ONE), (0, 0), (-2 * ONE, -ONE)),
    (Op::Floor, (-ONE - 1, ONE + 1), (0, 0), (-2 * ONE, ONE)),
    (
        Op::Floor,
        (-GREATEST, -GREATEST + 1),
        (0, 0),
        (-GREATEST, -GREATEST),
    ),
    (Op::Add, (1, 5), (2, 3), (3, 8)),
    (Op::Sub, (1, 5), (2, 3), (-2, 3)),
    (Op::Min, (1, 5), (2, 3), (1, 3)),
    (Op::Max, (1, 5), (2, 3), (2, 5)),
];

#[test]
fn hulls_hold_every_result_and_no_more(rt: HostRuntime) {
    expect_hulls(&rt, &HULLS);
}

const BY_SIGNS: [Hull; 21] = [
    (
        Op::Mul,
        (-ONE, 2 * ONE),
        (-3 * ONE, ONE),
        (-6 * ONE, 3 * ONE),
    ),
    (Op::Mul, (ONE, 2 * ONE), (3, 4), (3, 8)),
    (Op::Mul, (ONE, 2 * ONE), (-3, 4), (-6, 8)),
    (Op::Mul, (ONE, 2 * ONE), (-4, -3), (-8, -3)),
    (Op::Mul, (-ONE, 2 * ONE), (3, 4), (-4, 8)),
    (Op::Mul, (-ONE, 2 * ONE), (-3, 4), (-6, 8)),
    (Op::Mul, (-ONE, 2 * ONE), (-4, -3), (-8, 4)),
    (Op::Mul, (-2 * ONE, -ONE), (3, 4), (-8, -3)),
    (Op::Mul, (-2 * ONE, -ONE), (-3, 4), (-8, 6)),
    (Op::Mul, (-2 * ONE, -ONE), (-4, -3), (3, 8)),
    (Op::Div, (2, 4), (ONE, 2 * ONE), (1, 4)),
    (Op::Div, (-2, 4), (ONE, 2 * ONE), (-2, 4)),
    (Op::Div, (-4, -2), (ONE, 2 * ONE), (-4, -1)),
    (Op::Div, (2, 4), (-2 * ONE, -ONE), (-4, -1)),
    (Op::Div, (-2, 4), (-2 * ONE, -ONE), (-4, 2)),
    (Op::Div, (-4, -2), (-2 * ONE, -ONE), (1, 4)),
    (Op::Div, (1, 1), (3, 3), (1_431_655_765, 1_431_655_765)),
    (Op::Div, (ONE, ONE), (-ONE, ONE), ALL),
    (Op::Div, (ONE, ONE), (0, ONE), ALL),
    (Op::Div, (ONE, ONE), (-ONE, 0), ALL),
    (Op::Div, (0, 0), (0, 0), ALL),
];

#[test]
fn products_and_quotients_by_every_pattern_of_signs(rt: HostRuntime) {
    expect_hulls(&rt, &BY_SIGNS);
}

const OF_ALL: [Hull; 13] = [
    (Op::Y, ALL, ALL, ALL),
    (Op::Z, ALL, ALL, ALL),
    (Op::Neg, ALL, ALL, ALL),
    (Op::Square, ALL, ALL, (0, GREATEST)),
    (Op::Sqrt, ALL, ALL, (0, 140_737_488_355_327)),
    (Op::Abs, ALL, ALL, (0, GREATEST)),
    (Op::Floor, ALL, ALL, (-GREATEST, 4_611_686_014_132_420_608)),
    (Op::Add, ALL, ALL, ALL),
    (Op::Sub, ALL, ALL, ALL),
    (Op::Mul, ALL, ALL, ALL),
    (Op::Div, ALL, ALL, ALL),
    (Op::Min, ALL, ALL, ALL),
    (Op::Max, ALL, ALL, ALL),
];

#[test]
fn hulls_of_all_numbers(rt: HostRuntime) {
    expect_hulls(&rt, &OF_ALL);
}

// The corners that the hull of an operation counted.
fn corners(op: Op, a: Ends, b: Ends) -> Option<u64> {
    let mut tally = Tally::new();
    let _hull = span_apply(op, span(a)?, span(b)?, &mut tally);
    Some(tally.corners())
}

const CORNERS: [(Op, Ends, Ends, u64); 7] = [
    (Op::Z, (-3, 7), (1, 2), 0),
    (Op::Neg, (1, 5), (0, 0), 2),
    (Op::Square, (-2 * ONE, ONE), (0, 0), 2),
    (Op::Sub, (1, 5), (2, 3), 2),
    (Op::Mul, (ONE, 2 * ONE), (-3, 4), 4),
    (Op::Div, (-2, 4), (-2 * ONE, -ONE), 2),
    (Op::Div, (-2, 4), (0, ONE), 0),
];

fn expect_corners(rt: &impl Abort, rows: &[(Op, Ends, Ends, u64)]) {
    for (op, a, b, count) in rows {
        assert!(rt;
            corners(*op, *a, *b) == Some(*count),
            "{op:?} of {a:?} and {b:?}"
        );
    }
}

#[test]
fn hulls_count_their_corners(rt: HostRuntime) {
    expect_corners(&rt, &CORNERS);
}

// What an operation chooses over two ranges.
fn chosen(op: Op, a: Ends, b: Ends) -> Option<Choice> {
    Some(choose(op, span(a)?, span(b)?))
}

const CHOICES: [(Op, Ends, Ends, Choice); 11] = [
    (Op::Min, (1, 2), (2, 3), Choice::Left),
    (Op::Min, (1, 2), (0, 1), Choice::Both),
    (Op::Min, (1, 2), (0, 0), Choice::Right),
    (
        Op::Min,
        (GREATEST, GREATEST),
        (GREATEST, GREATEST),
        Choice::Left,
    ),
    (Op::Max, (0, 0), (0, 0), Choice::Left),
    (Op::Max, (0, 2), (1, 1), Choice::Both),
    (Op::Max, (0, 1), (1, 2), Choice::Both),
    (Op::Max, (0, 1), (2, 3), Choice::Right),
    (Op::Add, (0, 1), (2, 3), Choice::Both),
    (Op::X, (0, 1), (2, 3), Choice::Both),
    (Op::Const, (2, 3), (0, 1), Choice::Both),
];

fn expect_choices(rt: &impl Abort, rows: &[(Op, Ends, Ends, Choice)]) {
    for (op, a, b, choice) in rows {
        assert!(rt;
            chosen(*op, *a, *b) == Some(*choice),
            "{op:?} of {a:?} and {b:?}"
        );
    }
}

#[test]
fn ties_go_left_and_overlaps_to_both(rt: HostRuntime) {
    expect_choices(&rt, &CHOICES);
}

// Whether a range is inside as a whole, or outside.
fn decides(ends: Ends) -> Option<Option<bool>> {
    Some(decided(span(ends)?))
}

#[test]
fn zero_is_outside(rt: HostRuntime) {
    let inside = decides((-5, -1));
    let outside = [decides((0, 0)), decides((0, 5))];
    let undecided = [decides((-5, 0)), decides((-1, 5))];
    assert!(rt; inside == Some(Some(true)) && outside == [Some(Some(false)); 2]);
    assert!(rt; undecided == [Some(None); 2]);
}
