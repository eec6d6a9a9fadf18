// The image of a solid over a view.
ghost use Rattle.std.specs.Prelude.{◌≡◌, length, Some, IfOk, OnOk};
ghost use Rattle.fixed_ops.specs.Points.{Point};
ghost use Rattle.live_clauses.specs.Live.{root_of};
ghost use Rattle.live_clauses.specs.Steps.{tape_value};
ghost use Rattle.solid_model.specs.Values.{solid_value};
ghost use Rattle.view_places.specs.Window.{IsWindow};
ghost use Rattle.model_frames.specs.Images.{drawn_text, image_of, plain_points};
ghost use Rattle.model_frames.specs.Work.{CountsWithin, CountsWork, FitsCounts, PointsRiseAtMost, frame_work};

use fixed_ops::Tally;
use live_clauses::root_tape;
use quad_descent::{Picture, draw_picture, image};
use raster_pgm::pgm_text;
use solid_model::Model;
use std::alloc::{AllocError, Global};
use view_places::View;

/// The boxes of an image of a model over a view, without its bytes. Its rows are those of the model.
/// The work of a fresh image is counted. AllocError: memory was refused, after some of that work perhaps.
pub fn draw_image(
    alloc: Global,
    model: &Model,
    view: &View,
    tally: &mut Tally,
) -> Result<Picture, AllocError>
    ensures picture { IfOk result (λ picture.
        picture ≡ record { view = view.now; list = root_of model.now }) }
    ensures value { IfOk result (λ picture.
        (p : Point) → tape_value p picture.list ≡ solid_value p model.now) }
    ensures text { IfOk result (λ picture.
        drawn_text (Some picture) ≡ image_of view.now model.now) }
    ensures fits { OnOk result (FitsCounts (frame_work view.now model.now)) }
    ensures counted { OnOk result (CountsWork tally.old tally.new (frame_work view.now model.now)) }
    ensures at_most { CountsWithin tally.old tally.new (frame_work view.now model.now) }
    ensures plain { PointsRiseAtMost tally.old tally.new
        (plain_points view.now (length model.now)) }
{
    window_holds(view);
    let list = root_tape(alloc, model)?;
    draw_picture(alloc, &list, view, tally)
}

/// The bytes of an image that is drawn, as PGM text. AllocError: there is no memory for them.
pub fn image_text(alloc: Global, picture: &Picture) -> Result<Vec<u8>, AllocError>
    ensures { IfOk result (λ text. text.items ≡ drawn_text (Some picture.now)) }
{
    let image = image(alloc, picture)?;
    pgm_text(alloc, &image)
}

// Lets a proof know what every view keeps.
#[inline]
pub(crate) fn window_holds(view: &View)
    ensures { IsWindow view.now }
{
    let _width = view.w;
}
