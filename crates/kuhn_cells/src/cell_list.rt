// Lists of cells.
use fixed_ops::Fx;

/// A cell of a grid, by the indices of its lowest corner, with the values of its corners.
#[derive(Clone, Copy, Debug, PartialEq, Eq)]
pub struct CellValues {
    /// The index along x.
    pub x: u16,
    /// The index along y.
    pub y: u16,
    /// The index along z.
    pub z: u16,
    /// The values of the eight corners, each at the place of its mask.
    pub values: [Fx; 8],
}

/// Cells of a grid.
#[derive(Debug, Drop)]
pub struct CellList {
    /// How many cells the grid has along x.
    pub nx: u32,
    /// How many it has along y.
    pub ny: u32,
    /// How many it has along z.
    pub nz: u32,
    /// The cells that are listed.
    pub cells: Vec<CellValues>,
}
