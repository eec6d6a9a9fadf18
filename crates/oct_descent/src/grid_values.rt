// The values that are known of the points of a grid.
ghost use Rattle.std.specs.Prelude.{◌≡◌, ◌+◌, ◌*◌, ◌/◌, ◌%◌, ◌^◌, ◌<◌, ◌≤◌, ◌⊎◌, None, Some, IfNone, IfOk, IfSome, IsTrue, OnOk, length};
ghost use Rattle.kuhn_cells.specs.Triangles.{GridPoint, further, point};
ghost use Rattle.kuhn_cells.specs.Sizes.{IsBounded};
ghost use Rattle.oct_descent.specs.Corners.{AreTogether, CrossesBricks, IsRow};
ghost use Rattle.oct_descent.specs.Taking.{TakesValue};
ghost use Rattle.oct_descent.specs.Kinds.{known_of};
ghost use Rattle.oct_descent.specs.Known.{Sets};
ghost use Rattle.oct_descent.specs.Tables.{AreKept, IsSame, KeepsPlaces, brick_of as brick_of_point, is_known as is_known_of, is_within, known_at, read as read_of, slot as slot_of, stand as stand_of};

use fixed_ops::Fx;
use kuhn_cells::GridSize;
use std::alloc::{AllocError, Global};
use std::marker::Model;

/// How many points a brick has.
const POINTS: usize = 512;

/// The values that are known of the points of a grid. They stand in bricks of eight points along each
/// axis, and there is memory for those bricks alone that have some: one brick after another, in two
/// lists. `places` tells of each brick as which one it is kept, from 1 on, and 0 where it is not.
#[derive(Debug, Drop)]
pub struct GridValues {
    n: GridSize,
    places: Vec<usize>,
    known: Vec<bool>,
    values: Vec<Fx>,
}

impl Model for GridValues {
    ghost use Rattle.std.specs.Prelude.{◌≡◌, ◌+◌, ◌*◌, ◌/◌, ◌≤◌, length};
    ghost use Rattle.kuhn_cells.specs.Sizes.{IsBounded};
    ghost use Rattle.oct_descent.specs.Taking.{TakesValue};
    ghost use Rattle.oct_descent.specs.Tables.{AreKept, PointValues};

    ghost Value = { PointValues };

    ghost view = { λ g. record {
      n = g.n;
      places = g.places.items;
      kept = record { known = g.known.items; values = g.values.items };
    } };

    ghost invariant = { λ g. IsBounded g.n
        × (length g.places.items ≡ (g.n.z / 8 + 1) * ((g.n.y / 8 + 1) * (g.n.x / 8 + 1)))
        × AreKept g.places.items (length g.known.items) (length g.values.items) };
}

impl GridValues {
    /// No known value. AllocError: there is no memory for the bricks' places.
    pub fn new(alloc: Global, n: GridSize) -> Result<GridValues, AllocError>
        requires { IsBounded n }
        ensures n { IfOk result (λ values. values.n ≡ n) }
        ensures none { IfOk result (λ values. (p : GridPoint) → known_at values p ≡ None) }
    {
        let (x, y, z) = (bricks_along(n.x), bricks_along(n.y), bricks_along(n.z));
        let places = vec![in alloc; 0usize; z * (y * x)]?;
        Ok(GridValues {
            n,
            places,
            known: Vec::new(alloc),
            values: Vec::new(alloc),
        })
    }

    /// Lets a proof know what the values of a grid always keep: no grid has more than 512 cells along an
    /// axis, and each brick that is kept has a place of its own, with room for all its points.
    #[inline]
    pub fn holds(&self)
        ensures bounded { IsBounded self.now.n }
        ensures kept { AreKept self.now.places (length self.now.kept.known)
            (length self.now.kept.values) }
        ensures few { length self.now.kept.known < 2 ^ 63 }
    {
        let _n = self.n;
    }

    /// How many cells the grid has along each axis.
    #[inline]
    pub fn n(&self) -> GridSize
        ensures size { result ≡ self.now.n }
        ensures bounded { IsBounded result }
    {
        self.n
    }

    /// The value of a point, where it is known.
    #[inline]
    pub fn get(&self, x: u32, y: u32, z: u32) -> Option<Fx>
        requires x { x ≤ self.now.n.x }
        requires y { y ≤ self.now.n.y }
        requires z { z ≤ self.now.n.z }
        ensures { result ≡ known_at self.now (point x y z) }
    {
        self.read(self.stand(x, y, z)?)
    }

    /// Where the value of a point stands, if its brick is kept.
    #[inline]
    pub fn stand(&self, x: u32, y: u32, z: u32) -> Option<usize>
        requires x { x ≤ self.now.n.x }
        requires y { y ≤ self.now.n.y }
        requires z { z ≤ self.now.n.z }
        ensures stand { result ≡ stand_of self.now (point x y z) }
        ensures within { IfSome result (λ at. at < length self.now.kept.known) }
    {
        let place = self.places[brick_of(self.n, x, y, z)];
        if place == 0 {
            return None;
        }
        Some((place - 1) * POINTS + slot(x, y, z))
    }

    /// Where the values of eight points along x stand, from one whose index is divisible by 8 on, if
    /// their brick is kept.
    #[inline]
    pub fn row(&self, x: u32, y: u32, z: u32) -> Option<usize>
        requires x { x ≤ self.now.n.x }
        requires y { y ≤ self.now.n.y }
        requires z { z ≤ self.now.n.z }
        requires eighth { x % 8 ≡ 0 }
        ensures row { IfSome result (IsRow self.now (point x y z)) }
        ensures none { result ≡ None → stand_of self.now (point x y z) ≡ None }
    {
        self.holds();
        self.stand(x, y, z)
    }

    /// Whether the value is known that stands so many places behind a start.
    #[inline]
    pub fn is_known(&self, start: usize, further: usize) -> bool
        requires { start + further < length self.now.kept.known }
        ensures { result ≡ is_known_of (read_of self.now.kept (start + further)) }
    {
        self.known[start + further]
    }

    /// Where the value of the lowest corner of a cell stands, if one brick that is kept has all
    /// corners of the cell.
    #[inline]
    pub fn together(&self, x: u32, y: u32, z: u32) -> Option<usize>
        requires x { x < self.now.n.x }
        requires y { y < self.now.n.y }
        requires z { z < self.now.n.z }
        ensures together { IfSome result (AreTogether self.now (point x y z)) }
        ensures none { IfNone result (CrossesBricks (point x y z) ⊎ stand_of self.now (point x y z) ≡ None) }
    {
        self.holds();
        if x % 8 == 7 || y % 8 == 7 || z % 8 == 7 {
            return None;
        }
        self.stand(x, y, z)
    }

    /// The value of corner c of a cell, where it is known. `first` is what `together` told.
    #[inline]
    pub fn corner(&self, first: Option<usize>, x: u32, y: u32, z: u32, c: u32) -> Option<Fx>
        requires first { IfSome first (AreTogether self.now (point x y z)) }
        requires x { x < self.now.n.x }
        requires y { y < self.now.n.y }
        requires z { z < self.now.n.z }
        requires c { c < 8 }
        ensures { result ≡ known_at self.now (further (point x y z) c) }
    {
        self.holds();
        let (i, j, k) = (c % 2, c / 2 % 2, c / 4 % 2);
        match first {
            Some(first) => self.read(first + (k * 64 + j * 8 + i) as usize),
            None => self.get(x + i, y + j, z + k),
        }
    }

    /// Keeps the brick of corner c of a cell, and gives where the corner's value stands. `first` is
    /// what `together` told. AllocError: there is no memory for the brick.
    #[inline]
    pub fn corner_room(
        &mut self,
        first: Option<usize>,
        x: u32,
        y: u32,
        z: u32,
        c: u32,
    ) -> Result<usize, AllocError>
        requires first { IfSome first (AreTogether self.old (point x y z)) }
        requires x { x < self.old.n.x }
        requires y { y < self.old.n.y }
        requires z { z < self.old.n.z }
        requires c { c < 8 }
        ensures room { IfOk result (λ at. stand_of self.new (further (point x y z) c) ≡ Some at) }
        ensures within { IfOk result (λ at. at < length self.new.kept.known) }
        ensures keeps { OnOk result (KeepsPlaces self.old self.new) }
        ensures same { IsSame self.old self.new }
    {
        self.holds();
        let (i, j, k) = (c % 2, c / 2 % 2, c / 4 % 2);
        match first {
            Some(first) => Ok(first + (k * 64 + j * 8 + i) as usize),
            None => self.make_room(x + i, y + j, z + k),
        }
    }

    // The value that stands somewhere, where it is known.
    #[inline]
    fn read(&self, at: usize) -> Option<Fx>
        requires { at < length self.now.kept.known }
        ensures { result ≡ read_of self.now.kept at }
    {
        if self.known[at] {
            Some(self.values[at])
        } else {
            None
        }
    }

    /// Keeps the brick of a point, and gives where the point's value stands. AllocError: there is no
    /// memory for the brick.
    #[inline]
    pub fn make_room(&mut self, x: u32, y: u32, z: u32) -> Result<usize, AllocError>
        requires x { x ≤ self.old.n.x }
        requires y { y ≤ self.old.n.y }
        requires z { z ≤ self.old.n.z }
        ensures room { IfOk result (λ at. stand_of self.new (point x y z) ≡ Some at) }
        ensures within { IfOk result (λ at. at < length self.new.kept.known) }
        ensures keeps { OnOk result (KeepsPlaces self.old self.new) }
        ensures same { IsSame self.old self.new }
    {
        match self.stand(x, y, z) {
            Some(at) => Ok(at),
            None => self.add_brick(x, y, z),
        }
    }

    // The same for a brick that is not kept. Few calls come here.
    fn add_brick(&mut self, x: u32, y: u32, z: u32) -> Result<usize, AllocError>
        requires x { x ≤ self.old.n.x }
        requires y { y ≤ self.old.n.y }
        requires z { z ≤ self.old.n.z }
        requires room { stand_of self.old (point x y z) ≡ None }
        ensures room { IfOk result (λ at. stand_of self.new (point x y z) ≡ Some at) }
        ensures within { IfOk result (λ at. at < length self.new.kept.known) }
        ensures keeps { OnOk result (KeepsPlaces self.old self.new) }
        ensures same { IsSame self.old self.new }
    {
        let start = self.known.len();
        self.values.resize(start + POINTS, Fx::from_raw(0))?;
        self.known.resize(start + POINTS, false)?;
        self.places[brick_of(self.n, x, y, z)] = start / POINTS + 1;
        Ok(start + slot(x, y, z))
    }

    /// Keeps the value of a point, which stands there.
    #[inline]
    pub fn set(&mut self, at: usize, value: Fx)
        requires { at < length self.old.kept.known }
        ensures sets { (p : GridPoint) → IsTrue (is_within self.old.n p) → stand_of self.old p
            ≡ Some at
            → Sets p value (known_of self.old) (known_of self.new) }
        ensures keeps { KeepsPlaces self.old self.new }
    {
        self.known[at] = true;
        self.values[at] = value;
    }

    /// Keeps a value that stands somewhere in another grid, if it is known there, where the value of a
    /// point stands that is not known.
    #[inline]
    pub fn take_place(&mut self, other: &GridValues, from: usize, to: usize)
        requires from { from < length other.now.kept.known }
        requires to { to < length self.old.kept.known }
        ensures takes { (p : GridPoint) → IsTrue (is_within self.old.n p) → stand_of self.old p ≡ Some to
            → TakesValue p (read_of other.now.kept from) self.old self.new }
        ensures keeps { KeepsPlaces self.old self.new }
    {
        if self.read(to).is_some() {
            return;
        }
        if let Some(value) = other.read(from) {
            self.set(to, value);
        }
    }
}

// Which brick has a point.
#[inline]
fn brick_of(n: GridSize, x: u32, y: u32, z: u32) -> usize
    requires few { IsBounded n }
    requires x { x ≤ n.x }
    requires y { y ≤ n.y }
    requires z { z ≤ n.z }
    ensures brick { result ≡ brick_of_point n (point x y z) }
    ensures within { result < (n.z / 8 + 1) * ((n.y / 8 + 1) * (n.x / 8 + 1)) }
{
    let (in_row, rows) = (bricks_along(n.x), bricks_along(n.y));
    (z as usize / 8 * rows + y as usize / 8) * in_row + x as usize / 8
}

// How many bricks lie along an axis of so many cells.
#[inline]
fn bricks_along(cells: u32) -> usize
    ensures { result ≡ cells / 8 + 1 }
{
    cells as usize / 8 + 1
}

// Where the value of a point stands in its brick.
#[inline]
fn slot(x: u32, y: u32, z: u32) -> usize
    ensures slot { result ≡ slot_of (point x y z) }
    ensures within { result < 512 }
{
    (z as usize % 8 * 8 + y as usize % 8) * 8 + x as usize % 8
}
