// Examples with values worked out by hand, in tables. Each kind of table has one function that goes through it: a
// proof is long for each loop whose row may fail.
use arrayvec::ArrayVec;
use fixed_ops::{
    BadNumeral, Fx, Op, Tally, apply, arity, border, corner, count_span, cut, is_inside, le, light,
    lt, op_name, read_numeral, read_op, read_raw, write_number, write_raw,
};
use std::process::Abort;

const ONE: i64 = 1 << 32;

const HALF: i64 = 1 << 31;

const GREATEST: i64 = 4_611_686_018_427_387_903;

// An operation, the raw numbers that it is applied to, and that which it gives.
type Applied = (Op, i64, i64, i64);

// What an operation gives, and the evaluations that it counted.
fn applied(op: Op, a: i64, b: i64) -> Option<(Fx, u64)> {
    let mut tally = Tally::new();
    let result = apply(op, number(a)?, number(b)?, &mut tally);
    Some((result, tally.points()))
}

// The number v, and one evaluation.
fn once(v: i64) -> Option<(Fx, u64)> {
    Some((number(v)?, 1))
}

// The number, where v is within the range.
fn number(v: i64) -> Option<Fx> {
    if -Fx::MAX_RAW <= v && v <= Fx::MAX_RAW {
        Some(Fx::from_raw(v))
    } else {
        None
    }
}

// Each operation gives its number, by one evaluation.
fn expect_applied(rt: &impl Abort, rows: &[Applied]) {
    for (op, a, b, result) in rows {
        assert!(rt;
            applied(*op, *a, *b) == once(*result),
            "{op:?} of {a} and {b}"
        );
    }
}

const EXACT: [Applied; 32] = [
    (Op::Neg, 7, 9, -7),
    (Op::Square, -12_884_901_888, 0, 38_654_705_664),
    (Op::Square, 65_536, 0, 1),
    (Op::Square, 65_535, 0, 0),
    (Op::Abs, -7, 9, 7),
    (Op::Floor, 0, 9, 0),
    (Op::Floor, ONE, 0, ONE),
    (Op::Floor, ONE - 1, 0, 0),
    (Op::Floor, 1, 0, 0),
    (Op::Floor, -1, 0, -4_294_967_296),
    (Op::Floor, -ONE, 0, -4_294_967_296),
    (Op::Floor, -ONE - 1, 0, -8_589_934_592),
    (Op::Floor, GREATEST, 0, 4_611_686_014_132_420_608),
    (
        Op::Floor,
        -4_611_686_014_132_420_608,
        0,
        -4_611_686_014_132_420_608,
    ),
    (Op::Floor, -4_611_686_014_132_420_609, 0, -GREATEST),
    (Op::Floor, -GREATEST, 0, -GREATEST),
    (Op::Add, HALF, ONE, 6_442_450_944),
    (Op::Add, GREATEST, GREATEST, GREATEST),
    (Op::Add, -GREATEST, -GREATEST, -GREATEST),
    (Op::Sub, HALF, ONE, -2_147_483_648),
    (Op::Sub, -GREATEST, GREATEST, -GREATEST),
    (Op::Sub, GREATEST, -1, GREATEST),
    (Op::Mul, HALF, HALF, 1_073_741_824),
    (Op::Mul, -1, 1, -1),
    (Op::Mul, 1, 1, 0),
    (Op::Mul, -ONE, 3, -3),
    (Op::Mul, GREATEST, GREATEST, GREATEST),
    (Op::Mul, GREATEST, -GREATEST, -GREATEST),
    (Op::Min, 3, -3, -3),
    (Op::Min, -4, 9, -4),
    (Op::Max, 3, -3, 3),
    (Op::Max, -4, 9, 9),
];

#[test]
fn operations_give_the_exact_results(rt: HostRuntime) {
    assert!(rt; Fx::MAX_RAW == GREATEST);
    expect_applied(&rt, &EXACT);
}

const EXTREMES: [Applied; 48] = [
    (Op::X, GREATEST, 0, GREATEST),
    (Op::X, -1, 0, -1),
    (Op::Y, GREATEST, 0, GREATEST),
    (Op::Y, -1, 0, -1),
    (Op::Z, GREATEST, 0, GREATEST),
    (Op::Z, -1, 0, -1),
    (Op::Const, GREATEST, 0, GREATEST),
    (Op::Const, -1, 0, -1),
    (Op::Neg, GREATEST, 0, -GREATEST),
    (Op::Neg, -GREATEST, 0, GREATEST),
    (Op::Neg, 1, 0, -1),
    (Op::Neg, -1, 0, 1),
    (Op::Square, GREATEST, 0, GREATEST),
    (Op::Square, -GREATEST, 0, GREATEST),
    (Op::Square, 1, 0, 0),
    (Op::Square, -1, 0, 0),
    (Op::Sqrt, GREATEST, 0, 140_737_488_355_327),
    (Op::Sqrt, -GREATEST, 0, 0),
    (Op::Sqrt, 1, 0, 65_536),
    (Op::Sqrt, -1, 0, 0),
    (Op::Abs, GREATEST, 0, GREATEST),
    (Op::Abs, -GREATEST, 0, GREATEST),
    (Op::Abs, 1, 0, 1),
    (Op::Abs, -1, 0, 1),
    (Op::Add, GREATEST, -GREATEST, 0),
    (Op::Add, -GREATEST, GREATEST, 0),
    (Op::Add, 1, -1, 0),
    (Op::Add, -1, 1, 0),
    (Op::Sub, GREATEST, -GREATEST, GREATEST),
    (Op::Sub, -GREATEST, GREATEST, -GREATEST),
    (Op::Sub, 1, -1, 2),
    (Op::Sub, -1, 1, -2),
    (Op::Mul, GREATEST, -GREATEST, -GREATEST),
    (Op::Mul, -GREATEST, GREATEST, -GREATEST),
    (Op::Mul, 1, -1, -1),
    (Op::Mul, -1, 1, -1),
    (Op::Div, GREATEST, -GREATEST, -ONE),
    (Op::Div, -GREATEST, GREATEST, -ONE),
    (Op::Div, 1, -1, -ONE),
    (Op::Div, -1, 1, -ONE),
    (Op::Min, GREATEST, -GREATEST, -GREATEST),
    (Op::Min, -GREATEST, GREATEST, -GREATEST),
    (Op::Min, 1, -1, -1),
    (Op::Min, -1, 1, -1),
    (Op::Max, GREATEST, -GREATEST, GREATEST),
    (Op::Max, -GREATEST, GREATEST, GREATEST),
    (Op::Max, 1, -1, 1),
    (Op::Max, -1, 1, 1),
];

#[test]
fn operations_at_the_extremes_stay_in_range(rt: HostRuntime) {
    expect_applied(&rt, &EXTREMES);
}

const QUOTIENTS: [Applied; 16] = [
    (Op::Div, ONE, 0, GREATEST),
    (Op::Div, -ONE, 0, -GREATEST),
    (Op::Div, 0, 0, 0),
    (Op::Div, ONE, 12_884_901_888, 1_431_655_765),
    (Op::Div, -ONE, 12_884_901_888, -1_431_655_766),
    (Op::Div, ONE, -12_884_901_888, -1_431_655_766),
    (Op::Div, -ONE, -12_884_901_888, 1_431_655_765),
    (Op::Div, -8_589_934_592, ONE, -8_589_934_592),
    (Op::Div, 7, -3, -10_021_590_358),
    (Op::Div, 12_884_901_888, 7, GREATEST),
    (Op::Div, 1, GREATEST, 0),
    (Op::Div, 4_611_686_018_427_387_902, GREATEST, 4_294_967_295),
    (
        Op::Div,
        12_345_678_901_234_567,
        -9_876_543_210_987,
        -5_368_709_071_078,
    ),
    (
        Op::Div,
        2_305_843_009_213_706_297,
        2_305_843_009_213_693_951,
        ONE,
    ),
    (
        Op::Div,
        4_611_686_018_427_387_902,
        4_294_967_297,
        4_611_686_017_353_646_078,
    ),
    (Op::Div, 21_474_836_481, 8_589_934_595, 10_737_418_236),
];

#[test]
fn quotients_round_down_and_end_at_the_greatest(rt: HostRuntime) {
    expect_applied(&rt, &QUOTIENTS);
}

const ROOTS: [Applied; 11] = [
    (Op::Sqrt, -ONE, 0, 0),
    (Op::Sqrt, 0, 0, 0),
    (Op::Sqrt, 2, 0, 92_681),
    (Op::Sqrt, 3, 0, 113_511),
    (Op::Sqrt, ONE, 0, ONE),
    (Op::Sqrt, 8_589_934_592, 0, 6_074_000_999),
    (Op::Sqrt, 8_589_934_591, 0, 6_074_000_999),
    (Op::Sqrt, 17_179_869_184, 0, 8_589_934_592),
    (Op::Sqrt, 2_305_843_009_213_693_952, 0, 99_516_432_383_215),
    (Op::Sqrt, 123_456_789_012_345_678, 0, 23_027_003_089_355),
    (Op::Sqrt, 4_611_686_018_427_387_902, 0, 140_737_488_355_327),
];

#[test]
fn roots_round_down(rt: HostRuntime) {
    expect_applied(&rt, &ROOTS);
}

#[test]
fn comparisons_read_the_raw_numbers(rt: HostRuntime) {
    let (low, zero, high) = (Fx::from_raw(-1), Fx::from_raw(0), Fx::from_raw(1));
    let inside = [is_inside(low), is_inside(zero), is_inside(high)];
    let at_most = [le(low, zero), le(low, low), le(zero, low)];
    let below = [lt(low, zero), lt(low, low), lt(zero, low)];
    assert!(rt; inside == [true, false, false]);
    assert!(rt; at_most == [true, true, false]);
    assert!(rt; below == [true, false, false]);
}

// The operations, with their names and their numbers of operands: coordinates and constants have none.
const OPERATIONS: [(Op, &[u8], u32); 15] = [
    (Op::X, b"var-x", 0),
    (Op::Y, b"var-y", 0),
    (Op::Z, b"var-z", 0),
    (Op::Const, b"const", 0),
    (Op::Neg, b"neg", 1),
    (Op::Square, b"square", 1),
    (Op::Sqrt, b"sqrt", 1),
    (Op::Abs, b"abs", 1),
    (Op::Floor, b"floor", 1),
    (Op::Add, b"add", 2),
    (Op::Sub, b"sub", 2),
    (Op::Mul, b"mul", 2),
    (Op::Div, b"div", 2),
    (Op::Min, b"min", 2),
    (Op::Max, b"max", 2),
];

const NO_OPERATIONS: [&[u8]; 6] = [b"", b"ad", b"adds", b"Add", b"var-w", b"var-"];

fn expect_operations(rt: &impl Abort, rows: &[(Op, &[u8], u32)]) {
    for (op, name, operands) in rows {
        let is_named = op_name(*op) == *name && read_op(name) == Some(*op);
        assert!(rt; is_named && arity(*op) == *operands, "{op:?}");
    }
}

fn expect_no_operations(rt: &impl Abort, tokens: &[&[u8]]) {
    for token in tokens {
        assert!(rt; read_op(token).is_none(), "{token:?}");
    }
}

#[test]
fn operations_are_named_and_read(rt: HostRuntime) {
    expect_operations(&rt, &OPERATIONS);
    expect_no_operations(&rt, &NO_OPERATIONS);
}

#[test]
fn corners_and_hulls_are_counted_by_themselves(rt: HostRuntime) {
    let mut tally = Tally::new();
    let six = corner(Op::Mul, Fx::from_raw(-2 * ONE), Fx::from_raw(3), &mut tally);
    count_span(&mut tally);
    count_span(&mut tally);
    assert!(rt; six == Fx::from_raw(-6));
    assert!(rt; [tally.points(), tally.spans(), tally.corners()] == [0, 2, 1]);
}

#[test]
fn a_border_is_never_inside(rt: HostRuntime) {
    let (least, low, zero) = (Fx::from_raw(-GREATEST), Fx::from_raw(-1), Fx::from_raw(0));
    let (high, greatest) = (Fx::from_raw(1), Fx::from_raw(GREATEST));
    assert!(rt; [border(least), border(low), border(zero)] == [zero; 3]);
    assert!(rt; [border(high), border(greatest)] == [high, greatest]);
}

// Where an edge is cut whose ends have these raw numbers, below 0 and not below 0.
fn cut_between(inside: i64, outside: i64) -> Option<u32> {
    let inside = number(inside)?;
    let outside = number(outside)?;
    if is_inside(inside) && !is_inside(outside) {
        Some(cut(inside, outside))
    } else {
        None
    }
}

const CUTS: [(i64, i64, u32); 8] = [
    (-GREATEST, 0, 65_535),
    (-1, GREATEST, 1),
    (-GREATEST, GREATEST, 32_768),
    (-ONE / 4, ONE / 4 * 3, 16_384),
    (-ONE / 4, ONE / 4 * 7, 8192),
    (-ONE / 4, ONE / 4 * 11, 5461),
    (-281_474_976_710_656, 281_474_976_710_655, 32_768),
    (-281_474_976_710_655, 1_125_899_906_842_624, 13_107),
];

fn expect_cuts(rt: &impl Abort, rows: &[(i64, i64, u32)]) {
    for (inside, outside, place) in rows {
        let found = cut_between(*inside, *outside);
        assert!(rt; found == Some(*place), "{inside} to {outside}");
    }
}

#[test]
fn cuts_are_rounded_down_and_never_at_an_end(rt: HostRuntime) {
    expect_cuts(&rt, &CUTS);
}

#[test]
fn a_joined_tally_stands_still_at_the_top(rt: HostRuntime) {
    let (mut a, mut b) = (Tally::new(), Tally::new());
    let _sum = apply(Op::Add, Fx::from_raw(1), Fx::from_raw(2), &mut a);
    b.join(&a);
    b.join(&a);
    let twice = [b.points(), b.spans(), b.corners()];
    for _ in 0..64 {
        a.join(&b);
        b.join(&a);
    }
    assert!(rt; twice == [2, 0, 0]);
    assert!(rt; [b.points(), b.spans(), b.corners()] == [18_446_744_073_709_551_615, 0, 0]);
}

// A numeral, and the raw number that is read of it.
type Numeral = (&'static [u8], i64);

// Each numeral is read as its raw number.
fn expect_numerals(rt: &impl Abort, rows: &[Numeral]) {
    for (token, raw) in rows {
        let is_read = read_raw(token) == Ok(*raw) && read_numeral(token).ok() == number(*raw);
        assert!(rt; is_read, "{token:?}");
    }
}

const NUMERALS: [Numeral; 34] = [
    (b"0", 0),
    (b"0.5", 2_147_483_648),
    (b"-0.5", -2_147_483_648),
    (b"+7", 30_064_771_072),
    (b"7.", 30_064_771_072),
    (b".25", 1_073_741_824),
    (b"1e-5", 42_950),
    (b"99999999999", 4_611_686_018_427_387_903),
    (b"1e999", 4_611_686_018_427_387_903),
    (b"-1e-999", 0),
    (b"-1e999", -4_611_686_018_427_387_903),
    (b"2.95", 12_670_153_523),
    (b"8.13008", 34_918_427_714),
    (b"1E2", 429_496_729_600),
    (b"1e+02", 429_496_729_600),
    (b"12.5e-1", 5_368_709_120),
    (b"1073741823.9999999997", 4_611_686_018_427_387_903),
    (b"1073741823.9999999999", 4_611_686_018_427_387_903),
    (b"1073741824", 4_611_686_018_427_387_903),
    (b"0.0000000003", 1),
    (b"-0.0000000003", -1),
    (b"0.0000000001", 0),
    (b"0.00000000011641532182", 0),
    (b"0.00000000011641532183", 1),
    (b"0.0000000001164153218269348144531249", 0),
    (b"0.0000000001164153218269348144531250", 0),
    (b"0.00000000011641532182693481445312509999", 0),
    (b"123456789.123456789e-3", 530_242_871_754_415),
    (
        b"000000000000000000000000000000000000000000001.5",
        6_442_450_944,
    ),
    (b"1e28", 4_611_686_018_427_387_903),
    (b"0e999", 0),
    (b"123456789012345678901234567890e-29", 5_302_428_713),
    (b"9.99e-28", 0),
    (b"5e-11", 0),
];

#[test]
fn numerals_are_read_to_the_nearest_raw_number(rt: HostRuntime) {
    expect_numerals(&rt, &NUMERALS);
}

const FEW_AND_MANY: [Numeral; 11] = [
    (b"0.9999999999999", 4_294_967_296),
    (b"0.99999999999999", 4_294_967_296),
    (b"1073741823.9999999999999", 4_611_686_018_427_387_903),
    (b"1073741823.9999999999", 4_611_686_018_427_387_903),
    (b"1073741824.0", 4_611_686_018_427_387_903),
    (b"9999999999.5", 4_611_686_018_427_387_903),
    (b"09999999999.5", 4_611_686_018_427_387_903),
    (b"-0.0000000001164", 0),
    (b"0.00000000011641", 0),
    (b"123456789.1234567890123", 530_242_871_754_415_415),
    (b"0.0001220703125", 524_288),
];

#[test]
fn few_digits_and_many_are_read_alike(rt: HostRuntime) {
    expect_numerals(&rt, &FEW_AND_MANY);
}

const REFUSED: [&[u8]; 22] = [
    b"", b".", b"+", b"-", b"1e", b"1e+", b"0x1", b"nan", b"inf", b"1..2", b"1.2.3", b"1e1234",
    b"1 ", b" 1", b"--1", b"+-1", b"e5", b".e5", b"1e5.0", b"1f", b"1_0", b"1e 5",
];

fn expect_refused(rt: &impl Abort, tokens: &[&[u8]]) {
    for token in tokens {
        let refused = read_raw(token) == Err(BadNumeral) && read_numeral(token).is_err();
        assert!(rt; refused, "{token:?}");
    }
}

#[test]
fn other_tokens_are_refused(rt: HostRuntime) {
    expect_refused(&rt, &REFUSED);
}

#[test]
fn long_numerals_keep_their_places(rt: HostRuntime) {
    let mut token = [b'0'; 1005];
    token[0] = b'1';
    token[1000..].copy_from_slice(b"e-999");
    assert!(rt; read_raw(&token) == Ok(ONE));
}

const WRITTEN: [(i64, &[u8]); 13] = [
    (0, b"0.0000000000"),
    (1, b"0.0000000002"),
    (-1, b"-0.0000000002"),
    (2, b"0.0000000004"),
    (2_147_483_648, b"0.5000000000"),
    (-4_294_967_296, b"-1.0000000000"),
    (42_950, b"0.0000100000"),
    (4_611_686_018_427_387_903, b"1073741823.9999999997"),
    (-4_611_686_018_427_387_903, b"-1073741823.9999999997"),
    (-4_294_967_295, b"-0.9999999997"),
    (4_299_161_600, b"1.0009765625"),
    (12_670_153_523, b"2.9499999999"),
    (-4_294_967_296_000_000_000, b"-1000000000.0000000000"),
];

// Whether the number v is written by these digits.
fn is_number_text(v: i64, digits: &[u8]) -> bool {
    let Some(number) = number(v) else {
        return false;
    };
    let mut text = ArrayVec::new();
    write_number(number, &mut text);
    text.as_slice() == digits
}

// The same of a raw number.
fn is_raw_text(v: i64, digits: &[u8]) -> bool {
    if v < -Fx::MAX_RAW || Fx::MAX_RAW < v {
        return false;
    }
    let mut text = ArrayVec::new();
    write_raw(v, &mut text);
    text.as_slice() == digits
}

// Each number is written by its digits, and read from them.
fn expect_written(rt: &impl Abort, rows: &[(i64, &[u8])]) {
    for (raw, digits) in rows {
        let is_written = is_number_text(*raw, digits) && is_raw_text(*raw, digits);
        assert!(rt; is_written && read_raw(digits) == Ok(*raw), "{raw}");
    }
}

#[test]
fn numbers_are_written_with_ten_decimals(rt: HostRuntime) {
    expect_written(&rt, &WRITTEN);
}

#[test]
fn light_is_the_share_of_the_slope_along_z(rt: HostRuntime) {
    let (none, one) = (Fx::from_raw(0), Fx::from_raw(1 << 32));
    let (minus_one, most) = (Fx::from_raw(-(1 << 32)), Fx::from_raw(Fx::MAX_RAW));
    let bytes = [
        light(one, one, none),
        light(none, one, minus_one),
        light(most, most, most),
        light(none, none, none),
        light(none, none, one),
    ];
    assert!(rt; bytes == [1, 128, 85, 255, 255]);
}
