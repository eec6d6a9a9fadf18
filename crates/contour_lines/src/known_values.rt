// The values that are known of the points of a plane grid.
ghost use Rattle.std.specs.Prelude.{◌≡◌, ◌+◌, ◌*◌, ◌<◌, ◌≤◌, None, IfOk, length};
ghost use Rattle.kuhn_cells.specs.Triangles.{GridPoint, point};
ghost use Rattle.oct_descent.specs.Known.{Sets};
ghost use Rattle.contour_lines.specs.Tables.{known_at, known_of};

use fixed_ops::Fx;
use kuhn_cells::GridSize;
use std::alloc::{AllocError, Global};
use std::marker::Model;

/// The values that are known of the points of a plane grid, row by row: a mark and a value for each,
/// where a value counts where its mark is true.
#[derive(Debug, Drop)]
pub struct KnownValues {
    n: GridSize,
    known: Vec<bool>,
    values: Vec<Fx>,
}

impl Model for KnownValues {
    ghost use Rattle.std.specs.Prelude.{◌≡◌, ◌+◌, ◌*◌, ◌≤◌, length};
    ghost use Rattle.contour_lines.specs.Tables.{PlaneValues};

    ghost Value = { PlaneValues };

    ghost view = { λ g. record {
      n = g.n;
      kept = record { known = g.known.items; values = g.values.items };
    } };

    ghost invariant = { λ g. (g.n.x ≤ 512) × (g.n.y ≤ 512)
        × (length g.known.items ≡ (g.n.y + 1) * (g.n.x + 1))
        × (length g.values.items ≡ (g.n.y + 1) * (g.n.x + 1)) };
}

impl KnownValues {
    /// No known value. AllocError: there is no memory for them.
    pub fn new(alloc: Global, n: GridSize) -> Result<KnownValues, AllocError>
        requires x { n.x ≤ 512 }
        requires y { n.y ≤ 512 }
        ensures n { IfOk result (λ values. values.n ≡ n) }
        ensures none { IfOk result (λ values. (p : GridPoint) → known_at values p ≡ None) }
    {
        let points = (n.y as usize + 1) * (n.x as usize + 1);
        Ok(KnownValues {
            n,
            known: vec![in alloc; false; points]?,
            values: vec![in alloc; Fx::from_raw(0); points]?,
        })
    }

    /// Lets a proof know what the values of a plane grid always keep.
    #[inline]
    pub fn holds(&self)
        ensures x { self.now.n.x ≤ 512 }
        ensures y { self.now.n.y ≤ 512 }
        ensures known { length self.now.kept.known ≡ (self.now.n.y + 1) * (self.now.n.x + 1) }
        ensures values { length self.now.kept.values ≡ (self.now.n.y + 1) * (self.now.n.x + 1) }
    {
        let _n = self.n;
    }

    /// How many cells the grid has along each axis.
    #[inline]
    pub fn n(&self) -> GridSize
        ensures { result ≡ self.now.n }
    {
        self.n
    }

    /// How many cells the grid has along x.
    #[inline]
    pub fn nx(&self) -> u32
        ensures value { result ≡ self.now.n.x }
        ensures few { result ≤ 512 }
    {
        self.n.x
    }

    /// How many cells the grid has along y.
    #[inline]
    pub fn ny(&self) -> u32
        ensures value { result ≡ self.now.n.y }
        ensures few { result ≤ 512 }
    {
        self.n.y
    }

    /// The value of a point, where it is known.
    #[inline]
    pub fn get(&self, x: u32, y: u32) -> Option<Fx>
        requires x { x ≤ self.now.n.x }
        requires y { y ≤ self.now.n.y }
        ensures { result ≡ known_at self.now (point x y 0) }
    {
        let at = place_of(self.n, x, y);
        if self.known[at] {
            Some(self.values[at])
        } else {
            None
        }
    }

    /// Keeps the value of a point.
    #[inline]
    pub fn set(&mut self, x: u32, y: u32, value: Fx)
        requires x { x ≤ self.old.n.x }
        requires y { y ≤ self.old.n.y }
        ensures { Sets (point x y 0) value (known_of self.old) (known_of self.new) }
    {
        let at = place_of(self.n, x, y);
        self.known[at] = true;
        self.values[at] = value;
    }

    /// The values of all points, row by row, where those that are not known are any.
    #[inline]
    pub fn into_values(self) -> Vec<Fx>
        ensures { result.items ≡ self.kept.values }
    {
        let KnownValues { values, .. } = self;
        values
    }
}

// Where the value of a point stands.
#[inline]
fn place_of(n: GridSize, x: u32, y: u32) -> usize
    requires wide { n.x ≤ 512 }
    requires high { n.y ≤ 512 }
    requires x { x ≤ n.x }
    requires y { y ≤ n.y }
    ensures place { result ≡ y * (n.x + 1) + x }
    ensures within { result < (n.y + 1) * (n.x + 1) }
{
    y as usize * (n.x as usize + 1) + x as usize
}
