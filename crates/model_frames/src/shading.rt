// The shaded height map of a solid over a view.
ghost use Rattle.std.specs.Prelude.{◌≡◌, length, IfOk, OnOk};
ghost use Rattle.solid_model.specs.Clauses.{IsModel};
ghost use Rattle.view_places.specs.Window.{FitsHeight};
ghost use Rattle.model_frames.specs.Shades.{plain_shades, solid_shades};
ghost use Rattle.model_frames.specs.Work.{CountsWithin, CountsWork, PointsRiseAtMost, shade_work};

use crate::render::window_holds;
use fixed_ops::Tally;
use height_map::heights;
use live_clauses::root_tape;
use normal_shade::shade;
use solid_model::Model;
use std::alloc::{AllocError, Global};
use view_places::View;

/// The pixels of the shaded height map of a model over a view, row by row from the top of the map on, and
/// each row from the left on: 0 where no sample of the column is inside, and otherwise the light by the
/// slopes of the whole model at the nearest one that is, from 1 to 255. The work of the height map and of
/// the slopes is counted. AllocError: memory was refused, after some of that work perhaps.
pub fn shade_pixels(
    alloc: Global,
    model: &Model,
    view: &View,
    tally: &mut Tally,
) -> Result<Vec<u8>, AllocError>
    requires { FitsHeight view.now }
    ensures ok { IfOk result (λ pixels. pixels.items ≡ solid_shades view.now model.now) }
    ensures counted { OnOk result (CountsWork tally.old tally.new (shade_work view.now model.now)) }
    ensures at_most { CountsWithin tally.old tally.new (shade_work view.now model.now) }
    ensures plain { PointsRiseAtMost tally.old tally.new
        (plain_shades view.now (length model.now)) }
{
    window_holds(view);
    model_holds(model);
    let list = root_tape(alloc, model)?;
    let map = heights(alloc, &list, view, tally)?;
    shade(alloc, &list, view, &map.tops, tally)
}

// Lets a proof know what every model keeps.
#[inline]
fn model_holds(model: &Model)
    ensures { IsModel model.now }
{
    let _clauses = model.len();
}
