// Raw numbers, written in decimal.
ghost use Rattle.std.specs.Prelude.{◌≡◌, ◌≤◌, ℤ, [], Some};
ghost use Rattle.arrayvec.specs.ArrayVec.{array_vec_len};
ghost use Rattle.fixed_ops.specs.NumberTexts.{number_text};
ghost use Rattle.fixed_ops.specs.Numerals.{numeral};
ghost use Rattle.fixed_ops.specs.Raw.{IsRaw};

use crate::Fx;
use crate::text_before::{LONGEST_NUMBER, number_before};
use arrayvec::ArrayVec;

/// Appends the text of a number to an empty text, as `write_raw` does.
pub fn write_number(a: Fx, text: &mut ArrayVec<u8, 24>)
    requires { text.old.items ≡ [] }
    ensures text { text.new.items ≡ number_text a }
    ensures short { array_vec_len text.new ≤ 22 }
    ensures reads_back { numeral text.new.items ≡ Some a }
    ensures distinct { (b : ℤ) → IsRaw b → number_text b ≡ text.new.items → b ≡ a }
{
    write_raw(a.raw(), text);
}

/// Appends the number that a raw number means to an empty text: a minus where it is below 0, the whole part
/// without leading zeros, a point, and ten decimals cut towards zero.
#[tactic(auto, using(crate::proofs::TextLaws::number_text_reads, crate::proofs::TextLaws::number_text_tells))]
pub fn write_raw(v: i64, text: &mut ArrayVec<u8, 24>)
    requires raw { IsRaw v }
    requires empty { text.old.items ≡ [] }
    ensures text { text.new.items ≡ number_text v }
    ensures short { array_vec_len text.new ≤ 22 }
    ensures reads_back { numeral text.new.items ≡ Some v }
    ensures distinct { (w : ℤ) → IsRaw w → number_text w ≡ text.new.items → w ≡ v }
{
    push_number(v, text);
}

// Appends the text of a raw number to an empty text.
#[inline]
fn push_number(v: i64, text: &mut ArrayVec<u8, 24>)
    requires raw { IsRaw v }
    requires empty { text.old.items ≡ [] }
    ensures text { text.new.items ≡ number_text v }
    ensures short { array_vec_len text.new ≤ 22 }
{
    let mut line = [0; LONGEST_NUMBER];
    let start = number_before(v, &mut line, LONGEST_NUMBER);
    text.try_extend_from_slice(&line[start..]).unwrap();
}
