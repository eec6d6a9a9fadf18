// Top samples of columns.

/// The top sample of a column of a height map: the nearest one that is inside.
#[derive(Clone, Copy, Debug, Default)]
pub struct TopSample {
    /// Its index along x, from the left on.
    pub i: u32,
    /// Its row, from the top of the map on.
    pub j: u32,
    /// Its layer, from the far end on.
    pub k: u32,
    /// Where its column stands among the tops and the pixels.
    pub place: usize,
}
