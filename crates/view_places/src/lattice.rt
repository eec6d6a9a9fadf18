// Lattices of samples, and their axes.

/// An axis of the model.
#[derive(Clone, Copy, Debug, PartialEq, Eq)]
pub enum Axis {
    /// From left to right.
    X,
    /// From below to above.
    Y,
    /// From the lowest layer on.
    Z,
}

/// A lattice of samples over a view.
#[derive(Clone, Copy, Debug, PartialEq, Eq)]
pub enum Lattice {
    /// w columns and h rows, row 0 on top, all at one height z.
    Raster,
    /// w columns, h rows and d layers, row 0 on top and layer 0 lowest.
    Height,
    /// The corners of nx by ny by nz cells.
    Grid,
}
