// Points that have no value yet.

/// A point of a grid that has no value yet, and where its value is to stand.
#[derive(Clone, Copy, Debug, Default)]
pub struct Gap {
    /// Its index along x.
    pub x: u32,
    /// Its index along y.
    pub y: u32,
    /// Its index along z.
    pub z: u32,
    /// Where its value is to stand.
    pub at: usize,
}
