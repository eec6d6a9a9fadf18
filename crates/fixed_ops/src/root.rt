// Square roots of raw numbers.
ghost use Rattle.std.specs.Prelude.{◌≡◌, ◌+◌, ◌*◌, ◌^◌, ◌<◌, ◌≤◌};
ghost use Rattle.fixed_ops.specs.Operations.{square_root_of};
ghost use Rattle.fixed_ops.specs.Raw.{IsRaw};
ghost use Rattle.fixed_ops.specs.Root.{IsRoot, floor_root};

// The square root of a raw number, rounded down, and 0 below 0. It stays apart, so that the operations
// that take a moment are one match in the loops over lists.
#[inline(never)]
pub(crate) fn root(a: i64) -> i64
    requires { IsRaw a }
    ensures value { result ≡ square_root_of a }
    ensures raw { IsRaw result }
{
    if a <= 0 {
        0
    } else {
        root_of_size(a as u64) as i64
    }
}

// The square root of n * 2^32, rounded down. An even shift first brings n to 63 or 64 bits, and
// half of it brings the root back.
#[tactic(auto, using(crate::proofs::ResultLaws::root_is))]
fn root_of_size(n: u64) -> u64
    requires positive { 0 < n }
    requires size { n < 2 ^ 62 }
    ensures value { result ≡ floor_root (n * 2 ^ 32) }
    ensures bound { result < 2 ^ 47 }
{
    let half_shift = n.leading_zeros() / 2;
    let square = u128::from(n) << 32;
    let low = lowered(estimate(n << (2 * half_shift)) >> half_shift, square);
    raised(low, square)
}

// A number near the square root of n * 2^32 where n has 63 or 64 bits. Nothing rests on how near
// it is, and what is out of range wraps: the exact root is found from any number. With n = f *
// 2^64, two steps of Newton's method make 1 / sqrt(f) from its leading bits, by multiplications
// alone, and a third one brings the root itself nearer by its remainder.
#[inline]
fn estimate(n: u64) -> u64 {
    let inverse = fine_inverse(n, coarse_inverse(n));
    let root = low_word((u128::from(n) * u128::from(inverse)) >> 47);
    let remainder = (u128::from(n) << 32).wrapping_sub(u128::from(root) * u128::from(root));
    let step = low_word(remainder >> 38).wrapping_mul(inverse);
    root.wrapping_add_signed(step.cast_signed() >> 42)
}

// 1 / sqrt(f) in units of 2^-30, with 15 leading bits right: y * (3 - f * y * y) / 2 for y of 8
// bits.
#[inline]
fn coarse_inverse(n: u64) -> u64 {
    let inverse = u64::from(INVERSE_ROOTS[(n >> 56) as usize]);
    let square = (n >> 32).wrapping_mul(inverse * inverse) >> 32;
    inverse.wrapping_mul((3u64 << 30).wrapping_sub(square)) >> 16
}

// 1 / sqrt(f) in units of 2^-31, with 30 leading bits right, by the same step from 15 bits.
#[inline]
fn fine_inverse(n: u64, inverse: u64) -> u64 {
    let square = low_word((u128::from(n) * u128::from(inverse.wrapping_mul(inverse))) >> 64);
    inverse.wrapping_mul((3u64 << 60).wrapping_sub(square) >> 29) >> 31
}

// The last 64 bits of v.
#[inline]
fn low_word(v: u128) -> u64 {
    (v & u128::from(u64::MAX)) as u64
}

// The greatest number up to an estimate whose square is at most n.
#[inline]
fn lowered(estimate: u64, n: u128) -> u64
    ensures { result * result ≤ n }
{
    let mut root = estimate;
    while u128::from(root) * u128::from(root) > n {
        root -= 1;
    }
    root
}

// The square root of n, rounded down, found from a number that is not greater.
#[inline]
#[tactic(auto, using(crate::proofs::RootLaws::small_root))]
fn raised(low: u64, n: u128) -> u64
    requires below { low * low ≤ n }
    requires size { n < 2 ^ 94 }
    ensures root { IsRoot n result }
    ensures bound { result < 2 ^ 47 }
{
    let mut root = low;
    while n - u128::from(root) * u128::from(root) > 2 * u128::from(root) {
        root += 1;
    }
    root
}

// 1 / sqrt(i / 256) in units of 2^-15, from place 64 on: for each number whose leading 8 bits are
// i, the mean of the least and the greatest that it may be.
static INVERSE_ROOTS: [u16; 256] = [
    0, 0, 0, 0, 0, 0, 0, 0, 0, 0, 0, 0, 0, 0, 0, 0, 0, 0, 0, 0, 0, 0, 0, 0, 0, 0, 0, 0, 0, 0, 0, 0,
    0, 0, 0, 0, 0, 0, 0, 0, 0, 0, 0, 0, 0, 0, 0, 0, 0, 0, 0, 0, 0, 0, 0, 0, 0, 0, 0, 0, 0, 0, 0, 0,
    65_283, 64_783, 64_294, 63_816, 63_348, 62_891, 62_443, 62_005, 61_576, 61_155, 60_743, 60_340,
    59_944, 59_556, 59_175, 58_802, 58_436, 58_076, 57_723, 57_376, 57_036, 56_701, 56_373, 56_049,
    55_732, 55_420, 55_113, 54_811, 54_513, 54_221, 53_933, 53_650, 53_372, 53_097, 52_827, 52_561,
    52_299, 52_040, 51_786, 51_535, 51_288, 51_044, 50_804, 50_567, 50_334, 50_103, 49_876, 49_652,
    49_431, 49_212, 48_997, 48_785, 48_575, 48_368, 48_163, 47_961, 47_762, 47_565, 47_370, 47_178,
    46_988, 46_801, 46_615, 46_432, 46_251, 46_072, 45_895, 45_720, 45_547, 45_377, 45_208, 45_040,
    44_875, 44_712, 44_550, 44_390, 44_232, 44_075, 43_920, 43_767, 43_615, 43_465, 43_316, 43_169,
    43_024, 42_880, 42_737, 42_596, 42_456, 42_317, 42_180, 42_044, 41_910, 41_776, 41_644, 41_514,
    41_384, 41_256, 41_129, 41_003, 40_878, 40_754, 40_632, 40_510, 40_390, 40_270, 40_152, 40_035,
    39_919, 39_804, 39_689, 39_576, 39_464, 39_352, 39_242, 39_133, 39_024, 38_916, 38_810, 38_704,
    38_599, 38_495, 38_391, 38_289, 38_187, 38_086, 37_986, 37_887, 37_788, 37_690, 37_593, 37_497,
    37_402, 37_307, 37_213, 37_119, 37_027, 36_935, 36_843, 36_753, 36_663, 36_573, 36_485, 36_397,
    36_309, 36_223, 36_136, 36_051, 35_966, 35_882, 35_798, 35_715, 35_632, 35_550, 35_469, 35_388,
    35_307, 35_228, 35_148, 35_070, 34_991, 34_914, 34_837, 34_760, 34_684, 34_608, 34_533, 34_458,
    34_384, 34_311, 34_237, 34_165, 34_092, 34_020, 33_949, 33_878, 33_808, 33_737, 33_668, 33_599,
    33_530, 33_461, 33_394, 33_326, 33_259, 33_192, 33_126, 33_060, 32_994, 32_929, 32_864, 32_800,
];
