// A part of a block of steps.

// The steps of one list in a block: from a place on, before another.
#[derive(Clone, Copy, Debug)]
pub(crate) struct Part {
    pub(crate) start: usize,
    pub(crate) end: usize,
}
