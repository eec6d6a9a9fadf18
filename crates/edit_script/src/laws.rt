// What always holds of the definitions that the contracts cite.
ghost use Rattle.edit_script.specs.Reasons.{ReasonsAreLowest};
ghost use Rattle.edit_script.specs.ScriptLaws.{DrawsMayBeDrawn, InputsAreSplit, ReadScriptsAreCommands, RefusalsAreExact, ScriptsAreExact};

/// An input is read as the commands that its lines after the mark say, one by one, or else it is
/// refused: on line 0 where there is no mark, and else on the first line that says no command.
pub fn scripts_are_exact()
    ensures reads { ScriptsAreExact }
    ensures refuses { RefusalsAreExact }
{}

/// A line is refused for the lowest reason that holds in it, and says a command where none does.
pub fn reasons_are_lowest()
    ensures { ReasonsAreLowest }
{}

/// The lines before the first mark line are those of what stands before it in the input, and the
/// lines after it those of what stands after it.
pub fn inputs_are_split()
    ensures { InputsAreSplit }
{}

/// The commands of a script keep what commands keep: their edits are edits, and what they draw may be drawn.
pub fn read_scripts_are_commands()
    ensures { ReadScriptsAreCommands }
{}

/// What the commands of a script draw may be drawn of their views.
pub fn draws_may_be_drawn()
    ensures { DrawsMayBeDrawn }
{}
