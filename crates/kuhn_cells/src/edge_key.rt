// Edges of a grid.

/// An edge of a grid: its lower point, and the direction from there to the upper one. Keys are
/// ordered by z, then y, then x of the lower point, and then by the direction, as the fields stand.
#[derive(Clone, Copy, Debug, Default, PartialEq, Eq, PartialOrd, Ord)]
pub struct EdgeKey {
    /// The index of the lower point along z.
    pub z: u16,
    /// The index of the lower point along y.
    pub y: u16,
    /// The index of the lower point along x.
    pub x: u16,
    /// The direction, a mask from 1 to 7: 1 for a step along x, 2 for one along y, 4 for one along
    /// z.
    pub dir: u8,
}
