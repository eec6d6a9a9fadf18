// What always holds of the definitions that the contracts cite.
ghost use Rattle.modeller_cmd.specs.Checks.{ChecksAreExact};
ghost use Rattle.modeller_cmd.specs.ShownModels.{ModelsAreShown};
ghost use Rattle.modeller_cmd.specs.Undoing.{FramesShowWhatStands, UndosLeadBack};

/// Edits that a script makes, and then as many undos, lead back to the clauses before them, and each frame
/// on the way is that of the clauses then standing. So it is of what a run of a script writes, whatever its
/// words and its input are.
pub fn undos_lead_back()
    ensures lead { UndosLeadBack }
    ensures show { FramesShowWhatStands }
    ensures runs { ModelsAreShown }
{}

/// What a check of a mesh writes is the line of the one verdict on its faces; and of the text of each mesh
/// that is made of a model, where it is no longer than an input may be, it is that the mesh is closed and
/// a manifold.
pub fn checks_are_exact()
    ensures { ChecksAreExact }
{}
