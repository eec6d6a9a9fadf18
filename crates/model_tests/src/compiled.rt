// Solids that are compiled, and their texts.
use crate::starts::Start;
use crate::walks::{Deed, expect};
use fixed_ops::{Fx, Op};
use solid_lang::{Solid, read_short_solid, solid_text};
use std::alloc::Global;
use std::test::Fail;

// The raw number of 1.
const ONE: i64 = 1 << 32;

const HALF: i64 = ONE / 2;

const BALL: &[u8] = b"_0 var-x\n_1 var-y\n_2 var-z\n_3 square _0\n_4 square _1\n_5 add _3 _4\n\
    _6 square _2\n_7 add _5 _6\n_8 const 0.5000000000\n_9 square _8\n_10 sub _7 _9\n";

// The text of the solid that a text is read as.
fn written(alloc: Global, text: &[u8]) -> Result<Vec<u8>, Fail> {
    if text.len() > 100 {
        return Err(Fail::new("a text that is too long"));
    }
    let solid = read_short_solid(alloc, text)?;
    Ok(solid_text(alloc, &solid)?)
}

#[test]
fn a_ball_is_written(rt: HostRuntime) -> Result<(), Fail> {
    let text = solid_text(rt.alloc(), &Solid::Ball(Fx::from_raw(HALF)))?;
    assert!(rt; text.as_slice() == BALL);
    Ok(())
}

const SCALED_AND_JOINED: &[u8] =
    b"_0 var-x\n_1 var-y\n_2 var-z\n_3 const 2.0000000000\n_4 div _0 _3\n\
    _5 div _1 _3\n_6 div _2 _3\n_7 square _4\n_8 square _5\n_9 add _7 _8\n\
    _10 const 1.0000000000\n_11 square _10\n_12 sub _9 _11\n_13 abs _6\n\
    _14 const 0.5000000000\n_15 sub _13 _14\n_16 max _12 _15\n_17 square _0\n\
    _18 square _1\n_19 add _17 _18\n_20 square _2\n_21 add _19 _20\n\
    _22 const 1.0000000000\n_23 square _22\n_24 sub _21 _23\n_25 square _0\n\
    _26 square _1\n_27 add _25 _26\n_28 square _2\n_29 add _27 _28\n\
    _30 const 1.0000000000\n_31 square _30\n_32 sub _29 _31\n_33 min _24 _32\n\
    _34 max _16 _33\n";

#[test]
fn scaled_and_joined_solids_are_written(rt: HostRuntime) -> Result<(), Fail> {
    let solid = b"intersect scale 2 cylinder 1 0.5 union ball 1 ball 1";
    let text = written(rt.alloc(), solid)?;
    assert!(rt; text.as_slice() == SCALED_AND_JOINED);
    Ok(())
}

const CUT_BOX: &[Deed<'static>] = &[
    Deed::Len(30),
    Deed::Clause(0, b"_0", Op::X, (0, 0), 0),
    Deed::Clause(2, b"_2", Op::Z, (0, 0), 0),
    Deed::Clause(4, b"_4", Op::Const, (0, 0), ONE),
    Deed::Clause(8, b"_8", Op::Sub, (6, 7), 0),
    Deed::Clause(9, b"_9", Op::Max, (5, 8), 0),
    Deed::Clause(13, b"_13", Op::Max, (9, 12), 0),
    Deed::Clause(14, b"_14", Op::Const, (0, 0), HALF),
    Deed::Clause(15, b"_15", Op::Sub, (0, 14), 0),
    Deed::Clause(19, b"_19", Op::Sub, (2, 18), 0),
    Deed::Clause(27, b"_27", Op::Sub, (24, 26), 0),
    Deed::Clause(28, b"_28", Op::Neg, (27, 0), 0),
    Deed::Clause(29, b"_29", Op::Max, (13, 28), 0),
];

#[test]
fn a_cut_box_is_compiled(rt: HostRuntime) -> Result<(), Fail> {
    expect(&rt, rt.alloc(), Start::CutBox, CUT_BOX)
}
