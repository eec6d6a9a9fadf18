// A window onto a solid, and how finely it is sampled.
ghost use Rattle.std.specs.Prelude.{◌≡◌, ◌↔◌, IsTrue};
ghost use Rattle.view_places.specs.Window.{AreEnds, IsCount, has_room as has_room_for};

use kuhn_cells::GridSize;
use std::marker::Model;

/// A window onto a solid, and how finely it is sampled. Ends and height are raw numbers, of 2^-32.
/// They are numbers of the modeller, and the ends of an axis are in order. w and h are 1 to 4096, d
/// is 1 to 1024, and nx, ny and nz are 1 to 512.
#[derive(Clone, Copy, Debug, PartialEq, Eq)]
pub struct View {
    /// The lower end along x.
    pub x0: i64,
    /// The upper end along x.
    pub x1: i64,
    /// The lower end along y.
    pub y0: i64,
    /// The upper end along y.
    pub y1: i64,
    /// The lower end along z.
    pub z0: i64,
    /// The upper end along z.
    pub z1: i64,
    /// The height at which a raster lies.
    pub z: i64,
    /// The columns of a raster or a height map.
    pub w: u32,
    /// The rows of a raster or a height map.
    pub h: u32,
    /// The layers of a height map.
    pub d: u32,
    /// The cells of a mesh along x.
    pub nx: u32,
    /// The cells of a mesh along y.
    pub ny: u32,
    /// The cells of a mesh along z.
    pub nz: u32,
}

impl Model for View {
    ghost use Rattle.view_places.specs.Window.{Window, IsWindow};

    ghost Value = { Window };

    ghost view = { λ v. record {
      x0 = v.x0;
      x1 = v.x1;
      y0 = v.y0;
      y1 = v.y1;
      z0 = v.z0;
      z1 = v.z1;
      z = v.z;
      w = v.w;
      h = v.h;
      d = v.d;
      nx = v.nx;
      ny = v.ny;
      nz = v.nz;
    } };

    ghost invariant = { λ v. IsWindow (record {
      x0 = v.x0;
      x1 = v.x1;
      y0 = v.y0;
      y1 = v.y1;
      z0 = v.z0;
      z1 = v.z1;
      z = v.z;
      w = v.w;
      h = v.h;
      d = v.d;
      nx = v.nx;
      ny = v.ny;
      nz = v.nz;
    }) };

    ghost inverse = { λ v. record {
      x0 = v.x0;
      x1 = v.x1;
      y0 = v.y0;
      y1 = v.y1;
      z0 = v.z0;
      z1 = v.z1;
      z = v.z;
      w = v.w;
      h = v.h;
      d = v.d;
      nx = v.nx;
      ny = v.ny;
      nz = v.nz;
    } };
}

impl View {
    ghost use Rattle.kuhn_cells.specs.Sizes.{IsBounded};
    ghost use Rattle.view_places.specs.Window.{FitsHeight, FitsMesh, IsWindow};
    ghost use Rattle.view_places.specs.Window.{cells_are_few, cells_have_room, fits_mesh};
    ghost use Rattle.view_places.specs.Window.{plane_cells_have_room, size_of};

    /// Whether a height map may be drawn of it: w and h are at most 1024.
    #[inline]
    pub fn fits_height(&self) -> bool
        ensures fits { IsTrue result ↔ FitsHeight self.now }
        ensures window { IsWindow self.now }
    {
        self.w <= 1024 && self.h <= 1024
    }

    /// How many cells the grid of its mesh has.
    #[inline]
    pub fn grid(&self) -> GridSize
        ensures size { result ≡ size_of self.now }
        ensures bounded { FitsMesh self.now → IsBounded result }
        ensures window { IsWindow self.now }
    {
        GridSize {
            x: self.nx,
            y: self.ny,
            z: self.nz,
        }
    }

    /// Whether a mesh may be made of it: its cells have room along each axis, and they are few.
    #[inline]
    pub fn fits_mesh(&self) -> bool
        ensures value { result ≡ fits_mesh self.now }
        ensures fits { IsTrue result ↔ FitsMesh self.now }
        ensures window { IsWindow self.now }
    {
        self.cells_have_room() && self.cells_are_few()
    }

    /// Whether along no axis the ends are nearer than 65536 raw units a cell of a mesh.
    #[inline]
    pub fn cells_have_room(&self) -> bool
        ensures value { result ≡ cells_have_room self.now }
        ensures window { IsWindow self.now }
    {
        has_room(self.x0, self.x1, self.nx)
            && (has_room(self.y0, self.y1, self.ny) && has_room(self.z0, self.z1, self.nz))
    }

    /// Whether a mesh has at most 16777216 cells.
    #[inline]
    pub fn cells_are_few(&self) -> bool
        ensures { result ≡ cells_are_few self.now }
    {
        self.nx * (self.ny * self.nz) <= 16_777_216
    }

    /// Whether along neither x nor y the ends are nearer than 65536 raw units a cell of a plane grid.
    #[inline]
    pub fn plane_cells_have_room(&self) -> bool
        ensures value { result ≡ plane_cells_have_room self.now }
        ensures window { IsWindow self.now }
    {
        has_room(self.x0, self.x1, self.nx) && has_room(self.y0, self.y1, self.ny)
    }
}

// Whether ends lie at least 65536 raw units a cell from each other.
#[inline]
#[tactic(auto, unfolding(crate::specs::Window::has_room))]
fn has_room(low: i64, high: i64, cells: u32) -> bool
    requires ends { AreEnds low high }
    requires cells { IsCount 512 cells }
    ensures { result ≡ has_room_for low high cells }
{
    high - low >= i64::from(cells) * 65536
}
