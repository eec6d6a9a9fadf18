// A box that is split, whose halves are looked into.

use live_clauses::Tape;

/// A box that is split, while its halves are looked into.
#[derive(Debug, Drop)]
pub struct BegunBox {
    /// Where its place stands.
    pub at: usize,
    /// The list that it hands on, where boxes are kept.
    pub list: Option<Tape>,
    /// The list that it received.
    pub above: Option<Tape>,
}
