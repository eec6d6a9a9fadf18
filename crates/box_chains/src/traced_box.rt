// Boxes that a tape was traced over, with what their hulls decide.

use crate::Outcome;

/// A box that a tape was traced over: what the hull decides of it, and the outcome of tracing, with
/// what stands for the child tape. A box that is split even where it is decided prunes a child tape
/// also where it is inside, so there the outcome alone does not show the decision. The default is
/// undecided and outside.
#[derive(Clone, Copy, Debug, Default)]
pub struct TracedBox {
    /// Whether all of the box is inside (`Some(true)`) or outside (`Some(false)`), or `None` where
    /// the hull decides neither.
    pub decision: Option<bool>,
    /// The outcome, with the number of the child tape.
    pub outcome: Outcome<usize>,
}
