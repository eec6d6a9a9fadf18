// Where the samples of a lattice lie.
ghost use Rattle.std.specs.Prelude.{◌≡◌, ◌+◌, ◌<◌, ◌≤◌, IfOk};
ghost use Rattle.std.specs.Int.{int_max, int_min};
ghost use Rattle.view_places.specs.Places.{sample_place, steps_of};
ghost use Rattle.view_places.specs.Spans.{IsInRoot, last_of, range_along, region_of, root_box_of};
ghost use Rattle.box_chains.specs.Placing.{places_along};

use fixed_ops::{Fx, le};
use interval_ops::{Region, Span};
use std::alloc::{AllocError, Global};
use std::marker::Model;
use view_places::{Axis, IndexBox, Lattice, View, root, samples_along};

/// The places of the samples of a lattice over a view, each worked out once.
#[derive(Debug, Drop)]
pub struct Places {
    view: View,
    lattice: Lattice,
    x: Vec<Fx>,
    y: Vec<Fx>,
    z: Vec<Fx>,
}

impl Model for Places {
    ghost use Rattle.std.specs.Prelude.{◌≡◌};
    ghost use Rattle.view_places.specs.declared.lattice.Axis.TheVariants.{X, Y, Z};
    ghost use Rattle.box_chains.specs.Placing.{Sampling, places_along};

    ghost Value = { Sampling };

    ghost view = { λ p. record { view = p.view; lattice = p.lattice } };

    ghost invariant = { λ p. (p.x.items ≡ places_along p.view p.lattice X)
        × (p.y.items ≡ places_along p.view p.lattice Y)
        × (p.z.items ≡ places_along p.view p.lattice Z) };
}

impl Places {
    /// The places of a lattice over a view. AllocError: there is no memory for them.
    pub fn new(alloc: Global, view: &View, lattice: Lattice) -> Result<Places, AllocError>
        ensures { IfOk result (λ places. places ≡ record { view = view.now; lattice = lattice }) }
    {
        let x = along(alloc, view, lattice, Axis::X)?;
        let y = along(alloc, view, lattice, Axis::Y)?;
        let z = along(alloc, view, lattice, Axis::Z)?;
        Ok(Places {
            view: *view,
            lattice,
            x,
            y,
            z,
        })
    }

    /// The box of all samples.
    #[inline]
    pub fn root(&self) -> IndexBox
        ensures { result ≡ root_box_of self.now.view self.now.lattice }
    {
        root(&self.view, self.lattice)
    }

    /// The columns of the view.
    #[inline]
    pub fn w(&self) -> u32
        ensures { result ≡ self.now.view.w }
    {
        self.view.w
    }

    /// The place of sample i along x.
    #[inline]
    pub fn x(&self, i: u32) -> Fx
        requires { i ≤ steps_of self.now.view self.now.lattice Axis.X }
        ensures { result ≡ sample_place self.now.view self.now.lattice Axis.X i }
    {
        self.x[i as usize]
    }

    /// The place of sample j along y.
    #[inline]
    pub fn y(&self, j: u32) -> Fx
        requires { j ≤ steps_of self.now.view self.now.lattice Axis.Y }
        ensures { result ≡ sample_place self.now.view self.now.lattice Axis.Y j }
    {
        self.y[j as usize]
    }

    /// The place of sample k along z.
    #[inline]
    pub fn z(&self, k: u32) -> Fx
        requires { k ≤ steps_of self.now.view self.now.lattice Axis.Z }
        ensures { result ≡ sample_place self.now.view self.now.lattice Axis.Z k }
    {
        self.z[k as usize]
    }

    /// The least and the greatest place of the samples of a box, along each axis.
    #[inline]
    pub fn region(&self, b: IndexBox) -> Region
        requires { IsInRoot self.now.view self.now.lattice b }
        ensures { result ≡ region_of self.now.view self.now.lattice b }
    {
        Region {
            x: span(self.x(b.x0), self.x(last(self.lattice, b.x1))),
            y: span(self.y(b.y0), self.y(last(self.lattice, b.y1))),
            z: span(self.z(b.z0), self.z(last(self.lattice, b.z1))),
        }
    }
}

// The places along an axis.
fn along(alloc: Global, view: &View, lattice: Lattice, axis: Axis) -> Result<Vec<Fx>, AllocError>
    ensures { IfOk result (λ places. places.items ≡ places_along view.now lattice axis) }
{
    let samples = samples_along(view, lattice, axis);
    let count = samples.steps + 1;
    let mut places = Vec::with_capacity(alloc, count as usize)?;
    for i in 0..count {
        places.push(samples.sample(i))?;
    }
    Ok(places)
}

// The last sample of a box that ends so along an axis.
#[inline]
fn last(lattice: Lattice, high: u32) -> u32
    requires { 0 < high }
    ensures { result ≡ last_of lattice high }
{
    match lattice {
        Lattice::Grid => high,
        Lattice::Raster | Lattice::Height => high - 1,
    }
}

// The range that has two numbers as its ends.
#[inline]
fn span(a: Fx, b: Fx) -> Span
    ensures { result ≡ record { lo = int_min a b; hi = int_max a b } }
{
    if le(a, b) {
        Span::new(a, b)
    } else {
        Span::new(b, a)
    }
}
