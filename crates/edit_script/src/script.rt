// A script from an input.
ghost use Rattle.std.specs.Prelude.{◌≡◌, ◌≢◌, ◌^◌, ◌<◌, ◌∷◌, Ok, length, All, IfErr, IfOk, MatchResult, OnOk};
ghost use Rattle.clause_reader.specs.Gives.{made, Gives};
ghost use Rattle.edit_script.specs.Commands.{command_read, IsCommand};
ghost use Rattle.edit_script.specs.Scripts.{pushed, script_read, IsCommandLine, RefusesScript};

use crate::line::read_line;
use crate::mark::find_mark;
use crate::{Command, ScriptFault, ScriptReason};
use clause_reader::{Comments, Line, Lines, ReadError};
use std::alloc::Global;

/// The commands of an input: those of the lines after its mark, the first line whose only token is
/// `%%`. Blank lines and comments say nothing.
///
/// An `Err` tells the first line that is refused and the first reason that holds in it, `NoMark` on
/// line 0 where there is no mark, or `NoMemory` on a line up to which none is refused.
pub fn read_script(alloc: Global, input: &[u8]) -> Result<Vec<Command<'_>>, ScriptFault>
    requires { length input.now < 2 ^ 32 }
    ensures script { MatchResult result (λ commands. script_read input.now ≡ Ok commands.items)
        (RefusesScript input.now) }
    ensures line { IfErr result (λ fault. fault.reason ≢ ScriptReason.NoMark
        → IsCommandLine input.now fault.line) }
    ensures keeps { IfOk result (λ commands. All IsCommand commands.items) }
{
    let Some(mark) = find_mark(input) else {
        return Err(fault(0, ScriptReason::NoMark));
    };
    let mut commands = Vec::new(alloc);
    let passed = mark.place as u32 + 1;
    let mut lines = Lines::after(passed, &input[mark.end..], Comments::Skipped);
    while let Some(line) = lines.next() {
        let number = line.number;
        if let Err(error) = push_command(&mut commands, line) {
            return Err(fault(number, error.defect_or(ScriptReason::NoMemory)));
        }
    }
    Ok(commands)
}

// Adds the command that a line says.
fn push_command<'t>(
    commands: &mut Vec<Command<'t>>,
    line: Line<'t>,
) -> Result<(), ReadError<ScriptReason>>
    ensures gives { Gives (pushed commands.old.items
        (command_read line.entry.number (line.entry.first.now ∷ line.entry.others)))
        (made commands.new.items result) }
    ensures keeps { All IsCommand commands.old.items
        → OnOk result (All IsCommand commands.new.items) }
{
    let command = read_line(line)?;
    Ok(commands.push(command)?)
}

/// A refusal of the line of this number.
pub(crate) fn fault(line: u32, reason: ScriptReason) -> ScriptFault
    ensures { result ≡ record { line = line; reason = reason } }
{
    ScriptFault { line, reason }
}
