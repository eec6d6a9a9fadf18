// One setting, read from a word.
ghost use Rattle.std.specs.Prelude.{◌≡◌, Some, IfOk, IfSome, false, position};
ghost use Rattle.std.specs.Option.{option_map};
ghost use Rattle.view_settings.specs.Verbs.{kind_of};
ghost use Rattle.view_settings.specs.Setting.{IsSetting, IsValue, is_equals, is_given as given_in, known, parts_of, setting_of, value_read};

use crate::kind::Kind;
use crate::name::{Name, read_name};
use crate::{Verb, WordReason};
use fixed_ops::{read_digits, read_raw};

/// The value of a setting.
#[derive(Clone, Copy, Debug, PartialEq, Eq)]
pub enum Value {
    /// The raw number that a numeral means.
    Raw(i64),
    /// A count.
    Count(u64),
}

/// A setting, as a word gives it.
#[derive(Clone, Copy, Debug, PartialEq, Eq)]
pub struct Setting {
    /// What it sets.
    pub name: Name,
    /// The value.
    pub value: Value,
}

impl Default for Setting {
    fn default() -> Setting {
        Setting {
            name: Name::X0,
            value: Value::Raw(0),
        }
    }
}

// The setting that a word gives after those that were taken, or the lowest reason against it.
#[tactic(auto, unfolding(crate::specs::Setting::setting_of))]
pub(crate) fn read_setting(
    verb: Verb,
    taken: &[Setting],
    word: &[u8],
) -> Result<Setting, WordReason>
    ensures value { result ≡ setting_of verb taken.now word.now }
    ensures setting { IfOk result (IsSetting verb) }
    ensures new { IfOk result (λ setting. given_in setting.name taken.now ≡ false) }
{
    let (name, value) = split_word(word).ok_or(WordReason::NotASetting)?;
    let (name, kind) = read_known(verb, name).ok_or(WordReason::UnknownSetting)?;
    if is_given(taken, name) {
        return Err(WordReason::Twice);
    }
    let value = read_value(kind, value)?;
    Ok(Setting { name, value })
}

// What stands before and after the first `=` of a word.
fn split_word(word: &[u8]) -> Option<(&[u8], &[u8])>
    ensures { option_map (λ p. (p.0.now, p.1.now)) result ≡ parts_of word.now }
{
    match equals_sign(word) {
        Some(at) => Some((&word[..at], &word[at + 1..])),
        None => None,
    }
}

// The place of the first `=`.
fn equals_sign(word: &[u8]) -> Option<usize>
    ensures { result ≡ position is_equals word.now }
{
    word.iter().position(|byte| *byte == b'=')
}

// The setting of a verb that is called so, with the values that it may have.
fn read_known(verb: Verb, text: &[u8]) -> Option<(Name, Kind)>
    ensures value { result ≡ known verb text.now }
    ensures kind { IfSome result (λ p. kind_of verb p.0 ≡ Some p.1) }
{
    let name = read_name(text)?;
    let kind = verb.kind(name)?;
    Some((name, kind))
}

// Whether a setting of this name was taken.
fn is_given(taken: &[Setting], name: Name) -> bool
    ensures { result ≡ given_in name taken.now }
{
    taken.iter().any(|setting| name == setting.name)
}

// The value of this kind that a text means.
fn read_value(kind: Kind, text: &[u8]) -> Result<Value, WordReason>
    ensures value { result ≡ value_read kind text.now }
    ensures within { IfOk result (IsValue kind) }
{
    match kind {
        Kind::Numeral => match read_raw(text) {
            Ok(v) => Ok(Value::Raw(v)),
            Err(_) => Err(WordReason::BadValue),
        },
        Kind::Count { least, greatest } => {
            let count = read_digits(text, 20).ok_or(WordReason::BadValue)?;
            if count < u128::from(least) || count > u128::from(greatest) {
                return Err(WordReason::OutOfRange);
            }
            Ok(Value::Count(count as u64))
        }
    }
}
