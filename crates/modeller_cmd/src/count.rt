// The work of an image, as text.
ghost use Rattle.std.specs.Prelude.{◌≡◌, ◌≤◌, length, IfOk, OnOk};
ghost use Rattle.model_frames.specs.Images.{plain_points as plain_points_of};
ghost use Rattle.model_frames.specs.Work.{CountsWithin, CountsWork, PointsRiseAtMost, frame_work};
ghost use Rattle.modeller_cmd.specs.CountTexts.{count_lines, count_text};
ghost use Rattle.modeller_cmd.specs.Output.{count_part, input_limit, of_model};
ghost use Rattle.modeller_cmd.specs.Execution.{ExecutedAtOnce};

use crate::send::send;
use crate::stop::Stop;
use clause_reader::read_model;
use fixed_ops::Tally;
use model_frames::{Drawn, draw_image};
use modeller_io::Sink;
use solid_model::Model;
use std::alloc::{AllocError, Global};
use view_places::View;

/// Writes the work that a fresh image of the model that an input holds takes.
pub fn count<K: Sink>(
    alloc: Global,
    view: &View,
    input: &[u8],
    out: &mut K,
    tally: &mut Tally,
) -> Result<(), Stop>
    requires { length input.now ≤ input_limit }
    ensures { ExecutedAtOnce K.held K.faults out.old out.new tally.old tally.new
        (of_model input.now (count_part view.now)) result }
{
    let model = read_model(alloc, input)?;
    let text = count_image(alloc, &model, view, tally)?;
    send(alloc, &Drawn::Bytes(text), out)
}

// The work that a fresh image of a model over a view takes, as text: the image is drawn, and no
// pixel of it is written. What the tally counted before is not told.
#[tactic(auto, using(crate::proofs::Counting::counted_apart))]
fn count_image(
    alloc: Global,
    model: &Model,
    view: &View,
    tally: &mut Tally,
) -> Result<Vec<u8>, AllocError>
    ensures ok { IfOk result (λ text. text.items ≡ count_text view.now model.now) }
    ensures counted { OnOk result (CountsWork tally.old tally.new (frame_work view.now model.now)) }
    ensures at_most { CountsWithin tally.old tally.new (frame_work view.now model.now) }
    ensures plain { PointsRiseAtMost tally.old tally.new
        (plain_points_of view.now (length model.now)) }
{
    let mut frame = Tally::new();
    let drawn = draw_image(alloc, model, view, &mut frame);
    tally.join(&frame);
    drawn?;
    let plain = plain_points(model, view);
    count_lines(alloc, frame.points(), frame.spans(), plain)
}

// How many evaluations evaluating each clause of a model once at each sample would take.
pub(crate) fn plain_points(model: &Model, view: &View) -> u64
    ensures { result ≡ plain_points_of view.now (length model.now) }
{
    u64::from(view.w) * u64::from(view.h) * u64::from(model.len())
}

// The three lines of these counts.
fn count_lines(alloc: Global, points: u64, spans: u64, plain: u64) -> Result<Vec<u8>, AllocError>
    ensures { IfOk result (λ text. text.items ≡ count_lines points spans plain) }
{
    let text = format!(in alloc; "points {points}\nspans {spans}\nplain {plain}\n")?;
    Ok(text.into_bytes())
}
