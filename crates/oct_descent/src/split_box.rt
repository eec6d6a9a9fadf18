// What is kept of a box that is split.

use live_clauses::Tape;

/// What is kept of a box of cells that is split.
#[derive(Debug, Drop)]
pub struct SplitBox {
    /// The list that it hands on to its halves.
    pub list: Tape,
    /// How many places the boxes of more than one cell below it have.
    pub below: usize,
}
