// A frame of a model, drawn once and written.
ghost use Rattle.std.specs.Prelude.{◌≤◌, length};
ghost use Rattle.model_frames.specs.Frames.{CanDraw, frame_part};
ghost use Rattle.modeller_cmd.specs.Output.{input_limit, of_model};
ghost use Rattle.modeller_cmd.specs.Execution.{ExecutedAtOnce};

use crate::send::send;
use crate::stop::Stop;
use clause_reader::read_model;
use fixed_ops::Tally;
use model_frames::Frame;
use modeller_io::Sink;
use std::alloc::Global;

/// Draws a frame of the model that an input holds, and writes its bytes.
pub fn draw<K: Sink>(
    alloc: Global,
    frame: &Frame,
    input: &[u8],
    out: &mut K,
    tally: &mut Tally,
) -> Result<(), Stop>
    requires draws { CanDraw frame.now }
    requires limit { length input.now ≤ input_limit }
    ensures { ExecutedAtOnce K.held K.faults out.old out.new tally.old tally.new
        (of_model input.now (frame_part frame.now)) result }
{
    let model = read_model(alloc, input)?;
    let drawn = frame.draw(alloc, &model, tally)?;
    send(alloc, &drawn, out)
}
