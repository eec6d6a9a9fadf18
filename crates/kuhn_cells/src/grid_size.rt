// How many cells a grid has.

/// How many cells a grid has along each axis.
#[derive(Clone, Copy, Debug, PartialEq, Eq)]
pub struct GridSize {
    /// How many along x.
    pub x: u32,
    /// How many along y.
    pub y: u32,
    /// How many along z.
    pub z: u32,
}
