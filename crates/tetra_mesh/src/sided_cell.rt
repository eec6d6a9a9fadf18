// Cells without their values.
ghost use Rattle.std.specs.Prelude.{◌≡◌, ◌≤◌, length};
ghost use Rattle.kuhn_cells.specs.declared.cell_list.CellValues.{CellValues as Cell};
ghost use Rattle.tetra_mesh.specs.Numbering.{vertices_on};
ghost use Rattle.tetra_mesh.specs.Sides.{mask_by, sided_of};

use crate::sides::signs_of;
use kuhn_cells::CellValues;

/// A cell by its place and by which of its corners are inside.
#[derive(Clone, Copy, Debug, PartialEq, Eq)]
pub struct SidedCell {
    /// The index of its lowest corner along x.
    pub x: u16,
    /// The index along y.
    pub y: u16,
    /// The index along z.
    pub z: u16,
    /// Which of its corners are inside: bit k is 1 where corner k is.
    pub signs: u8,
}

impl SidedCell {
    /// The place and the sides of a cell.
    #[inline]
    pub fn new(cell: &CellValues) -> SidedCell
        ensures { result ≡ sided_of cell.now }
    {
        SidedCell {
            x: cell.x,
            y: cell.y,
            z: cell.z,
            signs: signs_of(cell),
        }
    }

    /// How many vertices lie on the edges from its lowest corner.
    #[inline]
    pub fn vertices(&self) -> usize
        ensures exact { (cell : Cell) → self.now ≡ sided_of cell → result
            ≡ length (vertices_on cell) }
        ensures few { result ≤ 7 }
    {
        self.mask().count_ones() as usize
    }

    // Bit k is 1 where corner k is not on the side of corner 0.
    #[inline]
    pub(crate) fn mask(&self) -> u8
        ensures { result ≡ mask_by self.now.signs }
    {
        if self.signs % 2 == 1 {
            255 - self.signs
        } else {
            self.signs
        }
    }
}
