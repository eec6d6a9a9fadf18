// Numbers, written from the last byte to the first into a line that grows to the front.
ghost use Rattle.std.specs.Prelude.{◌≡◌, ◌+◌, ◌*◌, ◌/◌, ◌%◌, ◌≤◌, ◌<◌, ◌^◌, ◌∷◌, ◌++◌, length, drop};
ghost use Rattle.fixed_ops.specs.NumberTexts.{number_text, pair_text, size_text, zero_padded};
ghost use Rattle.fixed_ops.specs.Raw.{IsRaw};

use itoa::write_digits;

/// The longest text of a number: a minus, ten digits, a point and ten decimals.
pub const LONGEST_NUMBER: usize = 22;

// The two digits of each number below a hundred.
static PAIRS: [u8; 200] = *b"\
    0001020304050607080910111213141516171819\
    2021222324252627282930313233343536373839\
    4041424344454647484950515253545556575859\
    6061626364656667686970717273747576777879\
    8081828384858687888990919293949596979899";

/// Writes the text of a raw number before `end`, and returns where it starts.
#[inline]
pub fn number_before(v: i64, line: &mut [u8], end: usize) -> usize
    requires raw { IsRaw v }
    requires room { LONGEST_NUMBER ≤ end }
    requires within { end ≤ length line.old }
    ensures few { end ≤ result + LONGEST_NUMBER }
    ensures before { result ≤ end }
    ensures written { drop result line.new ≡ number_text v ++ drop end line.old }
{
    let start = size_before(v.unsigned_abs(), line, end);
    if v < 0 {
        return byte_before(b'-', line, start);
    }
    start
}

/// Writes a byte before `end`, and returns where it stands.
#[inline(always)]
pub fn byte_before(byte: u8, line: &mut [u8], end: usize) -> usize
    requires some { 1 ≤ end }
    requires within { end ≤ length line.old }
    ensures start { result + 1 ≡ end }
    ensures written { drop result line.new ≡ byte ∷ drop end line.old }
{
    line[end - 1] = byte;
    end - 1
}

// Writes the number n / 2^32 before `end`, and returns where it starts.
#[inline]
#[tactic(auto, using(crate::proofs::TextLaws::whole_short))]
fn size_before(n: u64, line: &mut [u8], end: usize) -> usize
    requires size { n < 2 ^ 62 }
    requires room { 21 ≤ end }
    requires within { end ≤ length line.old }
    ensures few { end ≤ result + 21 }
    ensures before { result ≤ end }
    ensures written { drop result line.new ≡ size_text n ++ drop end line.old }
{
    let point = decimals_before(n, line, end);
    write_digits(n >> 32, line, point)
}

// Writes a point and the ten decimals of the number n / 2^32, cut towards zero, before `end`, and
// returns where the point stands. Each product has two digits more in its upper half.
#[inline]
fn decimals_before(n: u64, line: &mut [u8], end: usize) -> usize
    requires room { 11 ≤ end }
    requires within { end ≤ length line.old }
    ensures start { result + 11 ≡ end }
    ensures written { drop result line.new
        ≡ 46 ∷ zero_padded 10 (n % 2 ^ 32 * 10 ^ 10 / 2 ^ 32) ++ drop end line.old }
{
    let first = next_product(n);
    let second = next_product(first);
    let third = next_product(second);
    let fourth = next_product(third);
    let end = pair_before(next_product(fourth) >> 32, line, end);
    let end = pair_before(fourth >> 32, line, end);
    let end = pair_before(third >> 32, line, end);
    let end = pair_before(second >> 32, line, end);
    let end = pair_before(first >> 32, line, end);
    byte_before(b'.', line, end)
}

// A hundred times the lower half.
#[inline(always)]
fn next_product(product: u64) -> u64
    ensures { result ≡ product % 2 ^ 32 * 100 }
{
    (product & 0xffff_ffff) * 100
}

// Writes two digits before `end`, and returns where they start.
#[inline(always)]
fn pair_before(pair: u64, line: &mut [u8], end: usize) -> usize
    requires pair { pair < 100 }
    requires some { 2 ≤ end }
    requires within { end ≤ length line.old }
    ensures start { result + 2 ≡ end }
    ensures written { drop result line.new ≡ pair_text pair ++ drop end line.old }
{
    let from = pair as usize * 2;
    let (tens, ones) = (PAIRS[from], PAIRS[from + 1]);
    let start = end - 2;
    line[start] = tens;
    line[start + 1] = ones;
    start
}
