// Vertices of a contour.

/// A vertex of a contour, by the edge of the plane grid on which it lies.
#[derive(Clone, Copy, Debug, Default, PartialEq, Eq)]
pub struct PlaneVertex {
    /// The index of the edge's lower point along x.
    pub x: u16,
    /// Its index along y.
    pub y: u16,
    /// The direction from there to the upper point, a mask from 1 to 3: 1 for a step along x, 2 for
    /// one along y.
    pub dir: u8,
    /// How far the vertex lies from the lower point, in parts of 65536 of the edge.
    pub t: u32,
}
