// The model of a solid that is written as forms, made once and written as a text.
ghost use Rattle.std.specs.Prelude.{◌≤◌, length};
ghost use Rattle.fixed_ops.specs.Counts.{Counts};
ghost use Rattle.modeller_cmd.specs.Output.{input_limit, of_forms};
ghost use Rattle.modeller_cmd.specs.Execution.{ExecutedAtOnce};

use crate::send::send_text;
use crate::stop::Stop;
use modeller_io::Sink;
use solid_lang::translate;
use std::alloc::Global;

/// Writes the text of the model that is made of the solid in an input. No work is counted.
pub fn solid<K: Sink>(alloc: Global, input: &[u8], out: &mut K) -> Result<(), Stop>
    requires { length input.now ≤ input_limit }
    ensures { (counts : Counts) → ExecutedAtOnce K.held K.faults out.old out.new counts counts
        (of_forms input.now) result }
{
    let text = translate(alloc, input)?;
    send_text(out, &text)
}
