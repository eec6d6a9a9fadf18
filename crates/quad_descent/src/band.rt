// Rows of an image that are painted together.
ghost use Rattle.std.specs.Prelude.{◌≡◌, ◌+◌, ◌≤◌};
ghost use Rattle.quad_descent.specs.Painting.{meets as meets_box};

use view_places::IndexBox;

/// Some rows of an image, from one on.
#[derive(Clone, Copy, Debug, PartialEq, Eq)]
pub struct Band {
    /// The first row.
    pub row: u32,
    /// How many rows there are.
    pub rows: u32,
}

impl Band {
    /// Whether some sample of a box lies in these rows.
    #[inline]
    pub fn meets(self, b: IndexBox) -> bool
        requires { self.row + self.rows ≤ 4096 }
        ensures { result ≡ meets_box self b }
    {
        self.row < b.y1 && b.y0 < self.row + self.rows
    }
}
