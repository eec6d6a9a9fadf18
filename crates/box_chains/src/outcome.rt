// What tracing a list over a box tells.

/// What tracing a list over a box tells of the box's samples, with what stands for the list that it
/// hands on. The default is `Outside`.
#[derive(Clone, Copy, Debug, PartialEq, Eq)]
pub enum Outcome<T> {
    /// Each sample is inside.
    Inside,
    /// Each sample is outside.
    Outside,
    /// Neither is decided, and the box hands on this list.
    Open(T),
}

impl<T> Default for Outcome<T> {
    fn default() -> Outcome<T> {
        Outcome::Outside
    }
}
