// What is found of a mesh, worked out once and written as a line.
ghost use Rattle.std.specs.Prelude.{◌≤◌, length};
ghost use Rattle.fixed_ops.specs.Counts.{Counts};
ghost use Rattle.modeller_cmd.specs.Execution.{ExecutedAtOnce};
ghost use Rattle.modeller_cmd.specs.Output.{input_limit, of_mesh};

use crate::send::send_text;
use crate::stop::Stop;
use modeller_io::Sink;
use ply_check::report;
use std::alloc::Global;

/// Writes the line that says what is found of the mesh in an input. No work is counted.
pub fn check<K: Sink>(alloc: Global, input: &[u8], out: &mut K) -> Result<(), Stop>
    requires { length input.now ≤ input_limit }
    ensures { (counts : Counts) → ExecutedAtOnce K.held K.faults out.old out.new counts counts
        (of_mesh input.now) result }
{
    let line = report(alloc, input)?;
    send_text(out, &line)
}
