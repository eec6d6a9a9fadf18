// The places of the points of a grid.
ghost use Rattle.std.specs.Prelude.{◌≡◌, ◌≤◌, ◌↔◌, IfNone, IfSome, IsTrue};
ghost use Rattle.fixed_ops.specs.Raw.{IsRaw};
ghost use Rattle.view_places.specs.declared.lattice.Lattice.TheVariants.{Grid};
ghost use Rattle.view_places.specs.Places.{sample_place, steps_of};
ghost use Rattle.tetra_mesh.specs.Places.{IsPlaced, steps_along, vertex_place};
ghost use Rattle.tetra_mesh.specs.Tables.{IsTable};

use crate::Vertex;
use crate::place::{between, index_along, leads_along};
use std::marker::Model;
use view_places::{Axis, Lattice, View, samples_along};

// A grid has at most so many points along an axis.
const POINTS: usize = 513;

/// The raw places of the points of a view's grid along each axis, each worked out once, for the
/// places of many vertices.
#[derive(Debug, Drop)]
pub struct GridPlaces {
    view: View,
    x: [i64; POINTS],
    y: [i64; POINTS],
    z: [i64; POINTS],
}

impl Model for GridPlaces {
    ghost use Rattle.view_places.specs.declared.lattice.Axis.TheVariants.{X, Y, Z};
    ghost use Rattle.view_places.specs.Window.{Window};
    ghost use Rattle.tetra_mesh.specs.Tables.{AreTables};

    ghost Value = { Window };

    ghost view = { λ p. p.view };

    ghost invariant = { λ p. AreTables p.view p.x p.y p.z };
}

impl GridPlaces {
    /// The places of the points of a view's grid.
    pub fn new(view: &View) -> GridPlaces
        ensures { result ≡ view.now }
    {
        GridPlaces {
            view: *view,
            x: table(view, Axis::X),
            y: table(view, Axis::Y),
            z: table(view, Axis::Z),
        }
    }

    /// Whether they are those of the points of this view's grid.
    pub fn serves(&self, view: &View) -> bool
        ensures { IsTrue result ↔ self.now ≡ view.now }
    {
        self.view == *view
    }

    /// The raw place of a vertex along an axis, as `vertex_raw` gives it.
    #[inline]
    pub fn raw(&self, v: &Vertex, axis: Axis) -> i64
        requires { IsPlaced self.now v.now }
        ensures place { result ≡ vertex_place self.now v.now axis }
        ensures raw { IsRaw result }
    {
        let index = index_along(v.key, axis);
        let low = self.point(axis, index);
        if !leads_along(v.key, axis) {
            return low;
        }
        between(low, self.point(axis, index + 1), v.t)
    }

    /// The index along an axis of the points of the grid that have the place of a vertex there, and
    /// None only where the vertex's edge leads along the axis.
    #[inline]
    pub fn point_along(&self, v: &Vertex, axis: Axis) -> Option<u32>
        requires { IsPlaced self.now v.now }
        ensures place { IfSome result (λ index. vertex_place self.now v.now axis
            ≡ sample_place self.now Grid axis index) }
        ensures within { IfSome result (λ index. index ≤ steps_of self.now Grid axis) }
        ensures leading { IfNone result (steps_along axis v.now.key.dir ≡ 1) }
    {
        if leads_along(v.key, axis) {
            return None;
        }
        Some(index_along(v.key, axis))
    }

    // The raw place of a point of the grid along an axis.
    #[inline]
    fn point(&self, axis: Axis, index: u32) -> i64
        requires { index ≤ steps_of self.now Grid axis }
        ensures place { result ≡ sample_place self.now Grid axis index }
        ensures raw { IsRaw result }
    {
        match axis {
            Axis::X => self.x[index as usize],
            Axis::Y => self.y[index as usize],
            Axis::Z => self.z[index as usize],
        }
    }
}

// The raw places of the points of a view's grid along an axis.
fn table(view: &View, axis: Axis) -> [i64; POINTS]
    ensures { IsTable view.now axis result }
{
    // No grid has more than 512 cells along an axis.
    let _size = view.grid();
    let samples = samples_along(view, Lattice::Grid, axis);
    let mut places = [0; POINTS];
    for i in 0..samples.steps + 1 {
        places[i as usize] = samples.place(i);
    }
    places
}
