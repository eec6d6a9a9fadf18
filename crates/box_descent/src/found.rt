// What is found of a box.

/// What is found of a box before it is visited. A tape is given by its number.
#[derive(Clone, Copy, Debug)]
pub enum Found {
    /// Nothing: no tape was traced over it.
    Untraced,
    /// All of it is inside. The tape is the pruned one, where such a box prunes one, and else the one
    /// that the box was given.
    Inside(usize),
    /// All of it is outside.
    Outside,
    /// Neither is decided. The tape is the pruned one.
    Ambiguous(usize),
}

impl Found {
    ghost use Rattle.std.specs.Prelude.{◌≡◌};
    ghost use Rattle.box_descent.specs.Founds.{tape_of};

    /// The tape that was found, or else this one.
    #[inline]
    pub fn tape_or(self, given: usize) -> usize
        ensures { result ≡ tape_of given self }
    {
        match self {
            Found::Inside(tape) | Found::Ambiguous(tape) => tape,
            Found::Untraced | Found::Outside => given,
        }
    }
}
