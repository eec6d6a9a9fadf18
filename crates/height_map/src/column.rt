// Columns of samples.

/// A column of samples of a height map.
#[derive(Clone, Copy, Debug, Default)]
pub struct Column {
    /// Its index, from the left on.
    pub i: u32,
    /// Its row, from the top of the map on.
    pub j: u32,
    /// Where its top stands among the tops.
    pub place: usize,
}
