// How the boxes of a descent are split, traced and ordered.

/// How the boxes of a descent are split, traced and ordered.
#[derive(Clone, Copy, Debug)]
pub struct Plan {
    /// The longest side of a box that is not split: of a leaf.
    pub leaf: u32,
    /// Whether leaves are traced, too, together with the boxes beside them.
    pub traces_leaves: bool,
    /// Whether a box that is all inside prunes a tape, too.
    pub prunes_inside: bool,
    /// Where the outermost layer counts as outside whatever the tape gives.
    pub border: Border,
    /// The order of the children of a box.
    pub order: Order,
}

/// Where the outermost layer of a lattice counts as outside whatever the tape gives. A box that has a
/// part in it is split even where all of it is inside.
#[derive(Clone, Copy, Debug, PartialEq, Eq)]
pub enum Border {
    /// Nowhere.
    Nowhere,
    /// At the ends of the x axis and of the y axis.
    Plane,
    /// At the ends of each axis.
    Solid,
}

/// The order in which the children of a box are visited.
#[derive(Clone, Copy, Debug, PartialEq, Eq)]
pub enum Order {
    /// By z, then by y, then by x.
    Ascending,
    /// The other way round, and whoever visits them is asked anew which it wants before the ones of the
    /// lower z.
    NearestFirst,
    /// Ascending, but the other way round where all of them are leaves.
    LastLeafFirst,
}
