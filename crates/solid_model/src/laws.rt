// What always holds of the definitions that the contracts cite.
ghost use Rattle.solid_model.specs.Laws.{PlainValuesHold, OnlyPlainValuesHold, PlainValuesAreRaw, NamesGivePlaces, EditsAreTakenBack, EditsGiveModels};

/// The plain values of clauses whose operands stand before them are the one list in which each
/// value is what its clause makes of the values of its operands. At a point of raw numbers they are
/// raw numbers.
pub fn plain_values()
    ensures hold { PlainValuesHold }
    ensures only { OnlyPlainValuesHold }
    ensures raw { PlainValuesAreRaw }
{}

/// Clauses by the names of their operands give the clauses back, and an edit that is not refused
/// gives a model.
pub fn edits_give_models()
    ensures places { NamesGivePlaces }
    ensures models { EditsGiveModels }
{}

/// After an edit that a model accepts, the edit that takes it back is accepted, and gives the model
/// again.
pub fn edits_are_taken_back()
    ensures { EditsAreTakenBack }
{}
