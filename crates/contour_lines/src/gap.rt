// Points that have no value yet.

/// A point of a plane grid that has no value yet.
#[derive(Clone, Copy, Debug, Default)]
pub struct Gap {
    /// Its index along x.
    pub x: u32,
    /// Its index along y.
    pub y: u32,
}
