// An image.
use std::marker::Model;

/// An image with one byte a pixel, row by row from the top on, and each row from the left on.
#[derive(Debug, Drop)]
pub struct PixelGrid {
    /// The pixels of a row.
    pub w: u32,
    /// The rows.
    pub h: u32,
    /// The bytes of the pixels.
    pub pixels: Vec<u8>,
}

impl Model for PixelGrid {
    ghost use Rattle.raster_pgm.specs.Image.{Image};

    ghost Value = { Image };

    ghost view = { λ g. record { w = g.w; h = g.h; pixels = g.pixels.items } };
}
