// What has the rows of an image.
ghost use Rattle.std.specs.Prelude.{◌≡◌, length, Option, Some};
ghost use Rattle.quad_descent.specs.Raster.{Drawing};
ghost use Rattle.quad_descent.specs.Rows.{AreRows, rows_at};

use crate::Picture;

/// What has the rows of an image, and paints them as they are asked for.
pub trait RowSource {
    /// The image, where one stands.
    ghost image: { Self → Option Drawing };

    /// Paints the rows of the image from `row` on, as many as there are places for.
    fn paint(&self, row: u32, pixels: &mut [u8])
        requires { AreRows (image self.now) row (length pixels.old) }
        ensures { pixels.new ≡ rows_at (image self.now) row (length pixels.old) };
}

impl RowSource for Picture {
    ghost image = { λ picture. Some picture };

    fn paint(&self, row: u32, pixels: &mut [u8]) {
        self.rows(row, pixels);
    }
}
