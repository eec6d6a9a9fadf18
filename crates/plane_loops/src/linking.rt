// Whole contours.
ghost use Rattle.std.specs.Prelude.{◌≡◌, ◌≤◌, IfOk};
ghost use Rattle.plane_loops.specs.Contours.{IsContour};
ghost use Rattle.plane_loops.specs.Planes.{PlaneGrid};
ghost use Rattle.plane_loops.specs.Tables.{AreTables};

use crate::Loops;
use crate::following::follow;
use crate::numbering::Numbering;
use crate::successors::successors;
use fixed_ops::Fx;
use std::alloc::{AllocError, Global};

/// The contour of a plane grid of n cells along each axis, from a table of the values of its points
/// and from which corners of each cell are inside: bit c of the cell's byte is 1 where corner c is,
/// 1 for a step along x and 2 for one along y. Both go by y, then by x. No point of the border is
/// inside. A value counts only at the corners of the cells of which some corners are inside and some
/// outside. AllocError: there is no memory for it.
pub fn link_loops(alloc: Global, n: u32, values: &[Fx], signs: &[u8]) -> Result<Loops, AllocError>
    requires some { 1 ≤ n }
    requires few { n ≤ 256 }
    requires tables { (g : PlaneGrid) × AreTables n g values.now signs.now }
    ensures { (g : PlaneGrid) → AreTables n g values.now signs.now → IfOk result (IsContour g) }
{
    let n = n as usize;
    let made = Numbering::new(alloc, n, values, signs)?;
    let next = successors(alloc, n, signs, &made.bases, &made.vertices)?;
    let (order, ends) = follow(alloc, &next)?;
    Ok(Loops {
        vertices: made.vertices,
        order,
        ends,
    })
}
