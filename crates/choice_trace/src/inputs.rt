// What a list is evaluated at.

/// The elements that stand for the coordinates.
#[derive(Clone, Copy, Debug, PartialEq, Eq)]
pub struct Inputs<D> {
    /// The element of x.
    pub x: D,
    /// The element of y.
    pub y: D,
    /// The element of z.
    pub z: D,
}
