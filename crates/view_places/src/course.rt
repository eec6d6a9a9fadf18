// Which way the samples along an axis go.

/// Which way the samples along an axis go.
#[derive(Clone, Copy, Debug, PartialEq, Eq)]
pub enum Course {
    /// From the lower end of the axis up to the upper.
    Rising,
    /// From the upper end down to the lower, as the rows of an image do.
    Falling,
    /// All samples lie at one place.
    Level,
}
