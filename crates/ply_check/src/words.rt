// The words of a header, and whole numbers.
ghost use Rattle.std.specs.Prelude.{◌≡◌, ◌^◌, ◌<◌, ◌≤◌, length, IfSome};
ghost use Rattle.std.specs.List.{list_any};
ghost use Rattle.std.specs.Str.{bytes_eq};
ghost use Rattle.fixed_ops.specs.Numerals.{digits_read};
ghost use Rattle.ply_check.specs.HeaderLines.{digits_said, element_count, is_index_list, is_type, long_sizes, long_types, short_sizes, short_types};

// The digits of the longest whole number.
const DIGITS: usize = 10;

// Whether a token is this word.
pub(crate) fn is_word(token: &[u8], word: &[u8]) -> bool
    ensures { result ≡ bytes_eq token.now word.now }
{
    token == word
}

// Whether a token names a type of numbers.
pub(crate) fn is_type(token: &[u8]) -> bool
    ensures { result ≡ is_type token.now }
{
    is_short_type(token) || is_long_type(token) || is_short_size(token) || is_long_size(token)
}

fn is_short_type(token: &[u8]) -> bool
    ensures { result ≡ list_any (bytes_eq token.now) short_types }
{
    is_word(token, b"char")
        || is_word(token, b"uchar")
        || is_word(token, b"short")
        || is_word(token, b"ushort")
}

fn is_long_type(token: &[u8]) -> bool
    ensures { result ≡ list_any (bytes_eq token.now) long_types }
{
    is_word(token, b"int")
        || is_word(token, b"uint")
        || is_word(token, b"float")
        || is_word(token, b"double")
}

// The same by its other name.
fn is_short_size(token: &[u8]) -> bool
    ensures { result ≡ list_any (bytes_eq token.now) short_sizes }
{
    is_word(token, b"int8")
        || is_word(token, b"uint8")
        || is_word(token, b"int16")
        || is_word(token, b"uint16")
}

fn is_long_size(token: &[u8]) -> bool
    ensures { result ≡ list_any (bytes_eq token.now) long_sizes }
{
    is_word(token, b"int32")
        || is_word(token, b"uint32")
        || is_word(token, b"float32")
        || is_word(token, b"float64")
}

// Whether a token names the list of a face's vertices.
pub(crate) fn is_index_list(token: &[u8]) -> bool
    ensures { result ≡ is_index_list token.now }
{
    is_word(token, b"vertex_indices") || is_word(token, b"vertex_index")
}

// The number of elements that a token says.
pub(crate) fn element_count(token: &[u8]) -> Option<u32>
    ensures { result ≡ element_count token.now }
{
    match whole_number(token) {
        Some(number) if number < 1 << 31 => Some(number as u32),
        _ => None,
    }
}

// The whole number that a token says in 1 to 10 digits.
#[inline]
pub(crate) fn whole_number(token: &[u8]) -> Option<u64>
    ensures number { result ≡ digits_read 10 token.now }
    ensures few { IfSome result (λ number. number < 10 ^ 10) }
{
    if token.is_empty() || token.len() > DIGITS {
        None
    } else {
        short_number(token)
    }
}

// The number that at most ten digits say. `None`: one of the bytes is no digit.
#[inline]
fn short_number(token: &[u8]) -> Option<u64>
    requires { length token.now ≤ 10 }
    ensures number { result ≡ digits_said token.now }
    ensures few { IfSome result (λ number. number < 10 ^ 10) }
{
    let mut number = 0;
    for byte in token {
        if !byte.is_ascii_digit() {
            return None;
        }
        number = number * 10 + u64::from(*byte - b'0');
    }
    Some(number)
}
