// Up to two arguments, as they stand in a line.
ghost use Rattle.std.specs.Prelude.{◌≡◌, ◌<◌, length, IfNone, IfSome};
ghost use Rattle.clause_reader.specs.Written.{names_in};

use crate::Tokens;

/// Up to two tokens.
#[derive(Clone, Copy, Debug)]
pub(crate) enum Operands<'t> {
    Zero,
    One(&'t [u8]),
    Two(&'t [u8], &'t [u8]),
}

impl Operands<'_> {
    /// How many there are.
    pub(crate) fn len(&self) -> u32
        ensures { result ≡ length (names_in self.now) }
    {
        match self {
            Operands::Zero => 0,
            Operands::One(_) => 1,
            Operands::Two(..) => 2,
        }
    }
}

/// The tokens of a line. `None`: there are more than two.
pub(crate) fn operands_of<'t>(mut tokens: Tokens<'t>) -> Option<Operands<'t>>
    ensures many { IfNone result (2 < length tokens.entry) }
    ensures tokens { IfSome result (λ operands. names_in operands ≡ tokens.entry) }
{
    let Some(first) = tokens.next() else {
        return Some(Operands::Zero);
    };
    let Some(second) = tokens.next() else {
        return Some(Operands::One(first));
    };
    match tokens.next() {
        None => Some(Operands::Two(first, second)),
        Some(_) => None,
    }
}
