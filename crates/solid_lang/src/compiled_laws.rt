// What always holds of the definitions that the contracts cite.
ghost use Rattle.solid_lang.specs.CompiledLaws.{CompiledSolidsAreCounted, CompiledSolidsAreModels, CompiledSolidsKeepValues, CompiledTextsAreRead};

/// At each point the clauses of a solid have the value of the solid there.
pub fn compiled_solids_keep_values()
    ensures { CompiledSolidsKeepValues }
{}

/// The clauses of a solid are as many as its forms ask for. Where these are at most 65,535 they are
/// a model, whose text is read as the very clauses.
pub fn compiled_solids_are_models()
    ensures counted { CompiledSolidsAreCounted }
    ensures models { CompiledSolidsAreModels }
    ensures read { CompiledTextsAreRead }
{}
