// What is noted of the neighbours of one vertex.
ghost use Rattle.std.specs.Prelude.{IfOk};
ghost use Rattle.ply_check.specs.Faults.{AreClear};

use std::alloc::{AllocError, Global};

// Tables of all vertices, in which those next to one are noted.
#[derive(Debug, Drop)]
pub(crate) struct Neighbours {
    // How many edges lead to each, and how many come back from it.
    pub(crate) to: Vec<u32>,
    pub(crate) back: Vec<u32>,
    // Which one follows each, round the vertex.
    pub(crate) next: Vec<u32>,
}

impl Neighbours {
    // Those of so many vertices, with nothing noted. AllocError: there is no memory for them.
    pub(crate) fn new(alloc: Global, top: u32) -> Result<Neighbours, AllocError>
        ensures { IfOk result (λ n. AreClear top n.to.items n.back.items n.next.items) }
    {
        let to = vec![in alloc; 0; top as usize]?;
        let back = vec![in alloc; 0; top as usize]?;
        let next = vec![in alloc; 0; top as usize]?;
        Ok(Neighbours { to, back, next })
    }
}
