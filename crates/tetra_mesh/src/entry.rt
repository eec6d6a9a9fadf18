// What is kept of a cell while its vertices may be asked for.
ghost use Rattle.std.specs.Prelude.{◌≡◌, ◌+◌, ◌<◌, ◌^◌};
ghost use Rattle.tetra_mesh.specs.Numbering.{rank_of};
ghost use Rattle.tetra_mesh.specs.Ranks.{AreRanks};

// The number of the first vertex on the edges from the lowest corner of a cell, and a bit for each
// direction whose edge has a vertex.
#[derive(Clone, Copy, Debug)]
pub(crate) struct Entry {
    pub(crate) base: u32,
    pub(crate) mask: u8,
}

impl Entry {
    // The number of the vertex on the edge in a direction.
    #[inline]
    #[tactic(auto, using(crate::proofs::RankLaws::rank_at))]
    pub(crate) fn number(self, ranks: &[u8], dir: u8) -> u32
        requires ranks { AreRanks ranks.now }
        requires dir { dir < 8 }
        requires room { self.base < 2 ^ 31 }
        ensures { result ≡ self.base + rank_of self.mask dir }
    {
        self.base + u32::from(ranks[usize::from(self.mask) * 8 + usize::from(dir)])
    }
}
