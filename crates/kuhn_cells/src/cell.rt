// A cell of a grid.
ghost use Rattle.std.specs.Prelude.{◌≡◌, ◌<◌, ◌≤◌};
ghost use Rattle.kuhn_cells.specs.Triangles.{edge_between, point};

use crate::{EdgeKey, Triple};

// A cell, by the indices of its lowest corner.
#[derive(Clone, Copy)]
pub(crate) struct Cell {
    pub(crate) x: u16,
    pub(crate) y: u16,
    pub(crate) z: u16,
}

impl Cell {
    // The edge between two corners of the cell, of which one mask is a part of the other.
    #[inline]
    pub(crate) fn edge(self, a: u8, b: u8) -> EdgeKey
        requires x { self.x ≤ 65534 }
        requires y { self.y ≤ 65534 }
        requires z { self.z ≤ 65534 }
        ensures { result ≡ edge_between (point self.x self.y self.z) a b }
    {
        let low = a.min(b);
        EdgeKey {
            x: self.x + u16::from(low % 2),
            y: self.y + u16::from(low / 2 % 2),
            z: self.z + u16::from(low / 4 % 2),
            dir: a.max(b) - low,
        }
    }

    // The triangle between the three edges from a.
    #[inline]
    pub(crate) fn tip(self, a: u8, b: u8, c: u8, d: u8) -> Triple
        requires x { self.x ≤ 65534 }
        requires y { self.y ≤ 65534 }
        requires z { self.z ≤ 65534 }
        ensures { let edge = edge_between (point self.x self.y self.z) in
            result ≡ record { a = edge a b; b = edge a c; c = edge a d } }
    {
        Triple {
            a: self.edge(a, b),
            b: self.edge(a, c),
            c: self.edge(a, d),
        }
    }
}
