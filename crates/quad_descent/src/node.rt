// What is kept of a box.

/// What is kept of a box that an image was drawn by.
#[derive(Clone, Copy, Debug, PartialEq, Eq)]
pub enum Node {
    /// Each sample of the box is outside.
    Outside,
    /// Each sample of the box is inside.
    Inside,
    /// The rows of a leaf: a binary digit a sample, the last one lowest, and 1 for inside.
    Leaf([u8; 8]),
    /// The box is split, and so many nodes of its halves stand behind it.
    Split(usize),
}

impl Node {
    ghost use Rattle.std.specs.Prelude.{◌≡◌, ◌<◌, ◌^◌};
    ghost use Rattle.quad_descent.specs.Drawn.{count_of};

    /// How many nodes it stands for: itself and those below its box.
    #[inline]
    pub fn count(&self) -> usize
        requires { count_of self.now < 2 ^ 64 }
        ensures { result ≡ count_of self.now }
    {
        match self {
            Node::Split(below) => below + 1,
            _ => 1,
        }
    }
}
