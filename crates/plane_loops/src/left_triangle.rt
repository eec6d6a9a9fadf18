// Triangles at the edges of a plane grid.
ghost use Rattle.std.specs.Prelude.{◌≡◌, ◌≤◌, if◌then◌else◌};
ghost use Rattle.plane_loops.specs.Following.{left_triangle};

// The triangle to the left of an edge as one goes from its inside end to its outside end.
#[derive(Clone, Copy)]
pub(crate) struct LeftTriangle {
    // How far its cell lies before the lower point of the edge along x and along y.
    pub(crate) back_x: u16,
    pub(crate) back_y: u16,
    // Its corners, counterclockwise: the inside end, the outside end, and the third.
    pub(crate) a: u8,
    pub(crate) b: u8,
    pub(crate) c: u8,
}

impl LeftTriangle {
    // By the direction of the edge, and by whether its lower end is inside.
    #[inline]
    pub(crate) fn of(dir: u8, low: bool) -> LeftTriangle
        requires some { 1 ≤ dir }
        requires few { dir ≤ 3 }
        ensures triangle { result ≡ left_triangle dir low }
        ensures a { result.a ≤ 3 }
        ensures b { result.b ≤ 3 }
        ensures c { result.c ≤ 3 }
    {
        let (back_x, back_y, a, b, c) = match (dir, low) {
            (1, true) => (0, 0, 0, 1, 3),
            (1, false) => (0, 1, 3, 2, 0),
            (2, true) => (1, 0, 1, 3, 0),
            (2, false) => (0, 0, 2, 0, 3),
            (_, true) => (0, 0, 0, 3, 2),
            (_, false) => (0, 0, 3, 0, 1),
        };
        LeftTriangle {
            back_x,
            back_y,
            a,
            b,
            c,
        }
    }

    // The one of its first two corners from which the third differs, by whether the third is inside.
    #[inline]
    pub(crate) fn other(self, third: bool) -> u8
        requires a { self.a ≤ 3 }
        requires b { self.b ≤ 3 }
        ensures corner { result ≡ (if third then self.b else self.a) }
        ensures few { result ≤ 3 }
    {
        if third { self.b } else { self.a }
    }
}
