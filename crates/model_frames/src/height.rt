// The height map of a solid over a view.
ghost use Rattle.std.specs.Prelude.{◌≡◌, length, IfOk, OnOk};
ghost use Rattle.view_places.specs.Window.{FitsHeight};
ghost use Rattle.model_frames.specs.Heights.{heights_of, plain_depths, tops_of};
ghost use Rattle.model_frames.specs.Work.{CountsWithin, CountsWork, PointsRiseAtMost, height_work};

use crate::render::window_holds;
use fixed_ops::Tally;
use height_map::{TopMap, heights};
use live_clauses::root_tape;
use raster_pgm::samples_text;
use solid_model::Model;
use std::alloc::{AllocError, Global};
use view_places::View;

/// The height map of a model over a view, as PGM text. The work of the samples that do not lie behind
/// a top is counted. AllocError: memory was refused, after some of that work perhaps.
pub fn height_text(
    alloc: Global,
    model: &Model,
    view: &View,
    tally: &mut Tally,
) -> Result<Vec<u8>, AllocError>
    requires { FitsHeight view.now }
    ensures ok { IfOk result (λ text. text.items ≡ heights_of view.now model.now) }
    ensures counted { OnOk result
        (CountsWork tally.old tally.new (height_work view.now model.now)) }
    ensures at_most { CountsWithin tally.old tally.new (height_work view.now model.now) }
    ensures plain { PointsRiseAtMost tally.old tally.new
        (plain_depths view.now (length model.now)) }
{
    window_holds(view);
    let map = top_map(alloc, model, view, tally)?;
    samples_text(alloc, map.w, map.h, map.d, &map.tops)
}

// The tops of a model over a view. The work of the samples that do not lie behind a top is counted,
// and where memory is refused no more than that of a map.
fn top_map(
    alloc: Global,
    model: &Model,
    view: &View,
    tally: &mut Tally,
) -> Result<TopMap, AllocError>
    requires { FitsHeight view.now }
    ensures map { IfOk result (λ map. map ≡ record {
      w = view.now.w;
      h = view.now.h;
      d = view.now.d;
      tops = tops_of view.now model.now;
    }) }
    ensures counted { OnOk result
        (CountsWork tally.old tally.new (height_work view.now model.now)) }
    ensures at_most { CountsWithin tally.old tally.new (height_work view.now model.now) }
    ensures plain { PointsRiseAtMost tally.old tally.new
        (plain_depths view.now (length model.now)) }
{
    window_holds(view);
    let list = root_tape(alloc, model)?;
    heights(alloc, &list, view, tally)
}
