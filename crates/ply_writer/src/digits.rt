// Counts and bytes, written from the last to the first into a line that grows to the front.
ghost use Rattle.std.specs.Prelude.{◌≡◌, ◌+◌, ◌≤◌, ◌++◌, length, drop, decimal};

use itoa::write_digits;

/// The longest text of a count.
pub(crate) const COUNT: usize = 10;

/// Writes bytes before `end`, and returns where they start.
pub(crate) fn bytes_before(bytes: &[u8], line: &mut [u8], end: usize) -> usize
    requires room { length bytes.now ≤ end }
    requires within { end ≤ length line.old }
    ensures start { result + length bytes.now ≡ end }
    ensures written { drop result line.new ≡ bytes.now ++ drop end line.old }
{
    let start = end - bytes.len();
    line[start..end].copy_from_slice(bytes);
    start
}

/// Writes the digits of a count before `end`, and returns where they start.
pub(crate) fn digits_before(count: u32, line: &mut [u8], end: usize) -> usize
    requires room { length (decimal count) ≤ end }
    requires within { end ≤ length line.old }
    ensures start { result + length (decimal count) ≡ end }
    ensures written { drop result line.new ≡ decimal count ++ drop end line.old }
{
    write_digits(u64::from(count), line, end)
}
