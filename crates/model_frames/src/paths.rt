// The contour of a solid over a view.
ghost use Rattle.std.specs.Prelude.{◌≡◌, length, IfOk, OnOk};
ghost use Rattle.view_places.specs.Window.{FitsContour};
ghost use Rattle.model_frames.specs.Work.{CountsWithin, CountsWork, PointsRiseAtMost};
ghost use Rattle.model_frames.specs.ClosedTexts.{IsClosedText};
ghost use Rattle.model_frames.specs.Contours.{contour_text, contour_work, plain_contour};

use crate::render::window_holds;
use contour_lines::contour;
use fixed_ops::Tally;
use live_clauses::root_tape;
use path_writer::path_text;
use solid_model::Model;
use std::alloc::{AllocError, Global};
use view_places::View;

/// The contour of a model over a view, at its height, as path data: a line for each loop. The loops are
/// closed: exactly one segment comes to each vertex, and exactly one goes on. The work of the boxes that
/// are looked into and of the corners of working cells is counted. AllocError: memory was refused, after
/// some of that work perhaps.
pub fn contour_paths(
    alloc: Global,
    model: &Model,
    view: &View,
    tally: &mut Tally,
) -> Result<Vec<u8>, AllocError>
    requires { FitsContour view.now }
    ensures ok { IfOk result (λ text. text.items ≡ contour_text view.now model.now) }
    ensures closed { IfOk result (λ text. IsClosedText view.now model.now text.items) }
    ensures counted { OnOk result (CountsWork tally.old tally.new (contour_work view.now model.now)) }
    ensures at_most { CountsWithin tally.old tally.new (contour_work view.now model.now) }
    ensures plain { PointsRiseAtMost tally.old tally.new
        (plain_contour view.now (length model.now)) }
{
    window_holds(view);
    let list = root_tape(alloc, model)?;
    let loops = contour(alloc, &list, view, tally)?;
    path_text(alloc, &loops, view)
}
