// Images as Netpbm PGM in the P5 form, with 255 as the greatest pixel.
// https://netpbm.sourceforge.net/doc/pgm.html
ghost use Rattle.std.specs.Prelude.{◌≡◌, ◌*◌, length, IfOk};
ghost use Rattle.raster_pgm.specs.Pgm.{pgm_of};

use crate::PixelGrid;
use std::alloc::{AllocError, Global};

/// The bytes of an image that has all its pixels. AllocError: there is no memory for them.
pub fn pgm_text(alloc: Global, image: &PixelGrid) -> Result<Vec<u8>, AllocError>
    requires { length image.now.pixels ≡ image.now.w * image.now.h }
    ensures { IfOk result (λ text. text.items ≡ pgm_of image.now.w image.now.h image.now.pixels) }
{
    let PixelGrid { w, h, pixels } = image;
    let mut text = format!(in alloc; "P5\n{w} {h}\n255\n")?.into_bytes();
    text.reserve_exact(pixels.len())?;
    text.extend_from_slice(pixels)?;
    Ok(text)
}
