// The commands of a script, one after the other.
ghost use Rattle.std.specs.Prelude.{◌≡◌, ◌≢◌, ◌^◌, ◌<◌, [], ◌∷◌, Ok, length, IfErr, IfSome, MatchOption, MatchResult};
ghost use Rattle.edit_script.specs.Commands.{IsCommand};
ghost use Rattle.edit_script.specs.Scripts.{script_read, IsCommandLine, RefusesScript};

use crate::line::read_line;
use crate::mark::find_mark;
use crate::script::fault;
use crate::{Command, ScriptFault, ScriptReason};
use clause_reader::{Comments, Lines};
use std::marker::Model;

/// The commands of a script that are left, in their order. Each is read from its line when it is asked for, so
/// they take no memory.
#[derive(Debug, Drop)]
pub struct Commands<'t> {
    lines: Lines<'t>,
}

impl<'t> Model for Commands<'t> {
    ghost use Rattle.std.specs.Prelude.{List, IsOk};
    ghost use Rattle.edit_script.specs.declared.command.Command.{Command};
    ghost use Rattle.edit_script.specs.Scripts.{commands_of, lines_read};

    ghost Value = { List Command };

    ghost view = { λ c. commands_of c.lines };

    ghost invariant = { λ c. IsOk (lines_read c.lines) };
}

impl<'t> Commands<'t> {
    /// The commands of an input, as `read_script` tells them. Each of its lines is read, and no memory is asked
    /// for.
    pub fn of(input: &'t [u8]) -> Result<Commands<'t>, ScriptFault>
        requires { length input.now < 2 ^ 32 }
        ensures script { MatchResult result (λ commands. script_read input.now ≡ Ok commands)
            (RefusesScript input.now) }
        ensures line { IfErr result (λ fault. fault.reason ≢ ScriptReason.NoMark
            → IsCommandLine input.now fault.line) }
        ensures memory { IfErr result (λ fault. fault.reason ≢ ScriptReason.NoMemory) }
    {
        let Some(mark) = find_mark(input) else {
            return Err(fault(0, ScriptReason::NoMark));
        };
        let passed = mark.place as u32 + 1;
        let text = &input[mark.end..];
        let whole = Lines::after(passed, text, Comments::Skipped);
        let mut lines = Lines::after(passed, text, Comments::Skipped);
        while let Some(line) = lines.next() {
            let number = line.number;
            match read_line(line) {
                Ok(_) => {}
                Err(reason) => return Err(fault(number, reason)),
            }
        }
        Ok(Commands { lines: whole })
    }

    /// The next command. `None`: none is left.
    pub fn next(&mut self) -> Option<Command<'t>>
        ensures next { MatchOption result ((self.old ≡ []) × (self.new ≡ []))
            (λ command. self.old ≡ command ∷ self.new) }
        ensures keeps { IfSome result IsCommand }
    {
        let line = self.lines.next()?;
        match read_line(line) {
            Ok(command) => Some(command),
            Err(_) => unreachable!(),
        }
    }
}
