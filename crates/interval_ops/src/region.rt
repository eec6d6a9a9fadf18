// Boxes of points.

use crate::Span;

/// The points whose coordinates lie in three ranges, each by itself.
#[derive(Clone, Copy, Debug, PartialEq, Eq)]
pub struct Region {
    /// The range along x.
    pub x: Span,
    /// The range along y.
    pub y: Span,
    /// The range along z.
    pub z: Span,
}
