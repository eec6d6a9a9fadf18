// Models that are made from a seed.
use crate::starts::Start;
use crate::walks::{Deed, expect};
use fixed_ops::Op;
use std::alloc::Global;
use std::process::Abort;
use std::test::Fail;

const THREE_DISCS: &[Deed<'static>] = &[
    Deed::Len(35),
    Deed::Clause(0, b"x", Op::X, (0, 0), 0),
    Deed::Clause(1, b"y", Op::Y, (0, 0), 0),
    Deed::Clause(2, b"a0", Op::Const, (0, 0), 2_071_855_104),
    Deed::Clause(3, b"b0", Op::Sub, (0, 2), 0),
    Deed::Clause(5, b"d0", Op::Const, (0, 0), -300_875_776),
    Deed::Clause(6, b"e0", Op::Sub, (1, 5), 0),
    Deed::Clause(8, b"g0", Op::Add, (4, 7), 0),
    Deed::Clause(9, b"h0", Op::Const, (0, 0), 136_511_488),
    Deed::Clause(11, b"m0", Op::Sub, (8, 10), 0),
    Deed::Clause(12, b"a1", Op::Const, (0, 0), 1_289_355_264),
    Deed::Clause(21, b"m1", Op::Sub, (18, 20), 0),
    Deed::Clause(22, b"u1", Op::Min, (11, 21), 0),
    Deed::Clause(23, b"a2", Op::Const, (0, 0), -2_755_592_192),
    Deed::Clause(32, b"m2", Op::Sub, (29, 31), 0),
    Deed::Clause(33, b"n2", Op::Neg, (32, 0), 0),
    Deed::Clause(34, b"u2", Op::Max, (22, 33), 0),
];

#[test]
fn three_discs_are_drawn_and_joined(rt: HostRuntime) -> Result<(), Fail> {
    expect(&rt, rt.alloc(), Start::Discs(0, 3), THREE_DISCS)
}

// A seed, a number of discs, and the clauses that they take.
const COUNTS: [(u64, u32, u32); 5] = [
    (0, 1, 12),
    (7, 12, 137),
    (u64::MAX, 3, 35),
    (1, 2000, 22_524),
    (0, 5000, 56_219),
];

fn expect_clauses(rt: &impl Abort, alloc: Global, rows: &[(u64, u32, u32)]) -> Result<(), Fail> {
    for (seed, solids, clauses) in rows {
        expect(
            rt,
            alloc,
            Start::Discs(*seed, *solids),
            &[Deed::Len(*clauses)],
        )?;
    }
    Ok(())
}

#[test]
fn as_many_clauses_as_discs_and_holes_take(rt: HostRuntime) -> Result<(), Fail> {
    expect_clauses(&rt, rt.alloc(), &COUNTS)
}
