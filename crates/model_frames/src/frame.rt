// What can be drawn of a model.

use crate::drawn::Drawn;
use crate::height::height_text;
use crate::mesh::solid_grid;
use crate::paths::contour_paths;
use crate::render::draw_image;
use crate::shading::shade_pixels;
use clause_reader::write_model;
use fixed_ops::Tally;
use solid_model::Model;
use std::alloc::{AllocError, Global};
use view_places::View;

/// What can be drawn of a model.
#[derive(Clone, Copy, Debug, PartialEq, Eq)]
pub enum Frame {
    /// An image of this view.
    Render(View),
    /// A height map of this view.
    Height(View),
    /// A shaded height map of this view.
    Shade(View),
    /// A mesh of this view.
    Mesh(View),
    /// A contour of this view.
    Contour(View),
    /// The model as a text.
    Text,
}

impl Frame {
    ghost use Rattle.std.specs.Prelude.{◌≡◌, IfOk, OnOk};
    ghost use Rattle.model_frames.specs.Drawn.{drawn_bytes};
    ghost use Rattle.model_frames.specs.Frames.{CanDraw, frame_part};
    ghost use Rattle.model_frames.specs.Work.{CountsWithin, CountsWork, PointsRiseAtMost};

    /// Draws it of a model, as far as its bytes need memory of their own: the rows of an image, the
    /// header of a shaded map and the text of a mesh are still to be made. The work is counted.
    /// AllocError: memory was refused, after some of that work perhaps.
    pub fn draw(&self, alloc: Global, model: &Model, tally: &mut Tally) -> Result<Drawn, AllocError>
        requires { CanDraw self.now }
        ensures bytes { IfOk result (λ drawn.
            drawn_bytes drawn ≡ (frame_part self.now model.now).bytes) }
        ensures counted { OnOk result
            (CountsWork tally.old tally.new (frame_part self.now model.now).work) }
        ensures at_most { CountsWithin tally.old tally.new (frame_part self.now model.now).work }
        ensures plain { PointsRiseAtMost tally.old tally.new
            (frame_part self.now model.now).work.plain }
    {
        match self {
            Frame::Render(view) => Ok(Drawn::Image(draw_image(alloc, model, view, tally)?)),
            Frame::Height(view) => Ok(Drawn::Bytes(height_text(alloc, model, view, tally)?)),
            Frame::Shade(view) => {
                let pixels = shade_pixels(alloc, model, view, tally)?;
                Ok(Drawn::Pixels(*view, pixels))
            }
            Frame::Mesh(view) => Ok(Drawn::Mesh(solid_grid(alloc, model, view, tally)?)),
            Frame::Contour(view) => Ok(Drawn::Bytes(contour_paths(alloc, model, view, tally)?)),
            Frame::Text => Ok(Drawn::Bytes(write_model(alloc, model)?)),
        }
    }
}
