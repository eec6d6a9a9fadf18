// Whole images.
ghost use Rattle.std.specs.Prelude.{◌≡◌, ◌*◌, length, IfOk};
ghost use Rattle.quad_descent.specs.Pixels.{pixels_of};

use crate::Picture;
use raster_pgm::PixelGrid;
use std::alloc::{AllocError, Global};

/// The pixels of an image, as evaluating the whole list at each sample gives, 255 inside and
/// 0 outside. AllocError: there is no memory for them.
pub fn image(alloc: Global, picture: &Picture) -> Result<PixelGrid, AllocError>
    ensures image { IfOk result (λ grid. grid ≡ record {
      w = picture.now.view.w;
      h = picture.now.view.h;
      pixels = pixels_of picture.now.view picture.now.list;
    }) }
    ensures whole { IfOk result (λ grid. length grid.pixels ≡ grid.w * grid.h) }
{
    let mut pixels = Vec::new(alloc);
    pixels.resize(picture.view.w as usize * picture.view.h as usize, 0)?;
    picture.rows(0, &mut pixels);
    Ok(PixelGrid {
        w: picture.view.w,
        h: picture.view.h,
        pixels,
    })
}
