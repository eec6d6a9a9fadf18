// What always holds of the definitions that the contracts cite.
ghost use Rattle.live_clauses.specs.Laws.{RepresentativesAreChosen, LiveStepsAreKept, LiveListsAreTapes, ChoicesKeepTheMeaning, ChoicesKeepTheValue, ListsAreToldApart, MeaningsAreOfOperands, RootHasTheMeaning, RootHasTheSlopes, RootHasTheValue, LiveListsAreWhole, RootListsAreWhole, SlopesAreOfOperands, SlopesStandByValues, ValuesAreOfOperands, WholeListsNeedEachStep, WholeListsStand};

/// The representative of a step is that of its chosen operand, or the step itself. The steps that a
/// live list keeps are exactly the least set that holds the representative of the last step and,
/// with each step, the representatives of its operands.
pub fn live_steps_are_the_least()
    ensures representatives { RepresentativesAreChosen }
    ensures least { LiveStepsAreKept }
    ensures lists { LiveListsAreTapes }
{}

/// A list is whole where its last step needs each of its steps. A live list is whole, and so is a
/// root list: shortened again, either stays as it is until an operand of one of its own steps is
/// chosen.
pub fn live_lists_are_whole()
    ensures needed { WholeListsNeedEachStep }
    ensures live { LiveListsAreWhole }
    ensures root { RootListsAreWhole }
    ensures stand { WholeListsStand }
{}

/// Whatever steps mean: each step means what it makes of the meanings of its operands. Where each
/// step that chooses an operand means what that operand means, a live list means what the list means
/// that it comes from. A root list means what the list of all clauses means.
pub fn live_lists_keep_meanings<D>()
    ensures steps { MeaningsAreOfOperands D }
    ensures live { ChoicesKeepTheMeaning D }
    ensures root { RootHasTheMeaning D }
{}

/// At each point the value of each step is what its operation makes of the values of its operands.
#[inline]
pub fn values_are_of_operands()
    ensures { ValuesAreOfOperands }
{}

/// At each point where the choices are right, a live list has the value of the list that it comes
/// from.
pub fn choices_keep_the_value()
    ensures { ChoicesKeepTheValue }
{}

/// At each point a root list has the value of the solid, evaluated whole.
pub fn root_has_the_value()
    ensures { RootHasTheValue }
{}

/// At each point values with their slopes are a meaning of steps, which reads only the operands that
/// an operation has. The value of each is the step's value. A root list has the value and the slopes
/// of the solid, evaluated whole.
#[inline]
pub fn values_have_slopes()
    ensures operands { SlopesAreOfOperands }
    ensures values { SlopesStandByValues }
    ensures root { RootHasTheSlopes }
{}

/// The test of whether two lists have the same steps tells whether they are equal.
#[inline]
pub fn lists_are_told_apart()
    ensures { ListsAreToldApart }
{}
