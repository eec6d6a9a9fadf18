// Where the coordinates of a solid stand.

/// The places of the clauses that give the coordinates of a point along x, y and z.
#[derive(Clone, Copy, Debug)]
pub(crate) struct Axes {
    pub(crate) x: u32,
    pub(crate) y: u32,
    pub(crate) z: u32,
}
