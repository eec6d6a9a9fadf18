// What always holds of the definitions that the contracts cite.
ghost use Rattle.fixed_ops.specs.Laws.{ClampHolds, FloorHolds, NumberTextsAreRead, OnlyFloorHolds, OnlyQuotientHolds, OnlyRootHolds, OnlyWholeHolds, OwnOperandsAreRead, QuotientByZeroHolds, QuotientHolds, ResultsAreRaw, RootHolds, SpellingsAreRead, StepsAreRaw, TalliesAddUp, WholeHolds};

/// A whole number divided by one above 0 is rounded down: the quotient is the greatest whole number
/// that is at most the exact one.
#[inline]
pub fn floors()
    ensures hold { FloorHolds }
    ensures only { OnlyFloorHolds }
{}

/// A clamped whole number is itself within the range of raw numbers, and beyond it the end that is
/// nearer.
pub fn clamps()
    ensures { ClampHolds }
{}

/// The quotient of raw numbers is the exact one, rounded down and then clamped, for divisors above
/// and below 0. By 0 it is the greatest number, the least number or 0, by the sign of the dividend.
pub fn quotients()
    ensures hold { QuotientHolds }
    ensures only { OnlyQuotientHolds }
    ensures by_zero { QuotientByZeroHolds }
{}

/// The floor of a raw number is the greatest whole number, a multiple of 2^32, that is not above it,
/// and nothing else is. For numbers below 2^32 - 2^62 that lies below the range, and the floor is the
/// least raw number, which is no whole number.
pub fn whole_numbers()
    ensures hold { WholeHolds }
    ensures only { OnlyWholeHolds }
{}

/// The root of a natural number is the greatest one whose square is not above it, and nothing else
/// is.
#[inline]
pub fn roots()
    ensures hold { RootHolds }
    ensures only { OnlyRootHolds }
{}

/// The result of an operation on raw numbers is a raw number.
#[inline]
pub fn raw_results()
    ensures { ResultsAreRaw }
{}

/// What a step makes of its operands: it reads only those that its operation has, and gives a raw
/// number from raw numbers.
#[inline]
pub fn steps_read_their_operands()
    ensures read { OwnOperandsAreRead }
    ensures raw { StepsAreRaw }
{}

/// Rises of a tally, exact ones and bounded ones, add up: one after another, counted apart and then
/// joined, and where nothing is counted.
#[inline]
pub fn tallies_add_up()
    ensures { TalliesAddUp }
{}

/// A numeral has the value of the parts that spell it.
pub fn spelled_values()
    ensures { SpellingsAreRead }
{}

/// The text of a raw number is a numeral, and means that number.
pub fn number_texts()
    ensures { NumberTextsAreRead }
{}
