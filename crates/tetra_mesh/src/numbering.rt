// How the vertices of mixed cells are numbered, layer by layer.
ghost use Rattle.std.specs.Prelude.{◌≡◌, ◌+◌, ◌*◌, ◌<◌, ◌≤◌, ◌^◌, [], length, IfOk};
ghost use Rattle.kuhn_cells.specs.Sizes.{IsBounded};
ghost use Rattle.tetra_mesh.specs.Numbering.{IsNumbered, LiesBelow, ReachesAbove, slot_of};
ghost use Rattle.tetra_mesh.specs.Sides.{HaveCells, Numbers, OfCells};

use crate::entry::Entry;
use crate::sided_cell::SidedCell;
use kuhn_cells::GridSize;
use std::alloc::{AllocError, Global};

// How many vertices the first cells of a list have, and what is kept of those cells that lie in the
// highest two layers among them.
#[derive(Debug, Drop)]
pub(crate) struct Numbering {
    pub(crate) n: GridSize,
    pub(crate) slots: Vec<Entry>,
    pub(crate) vertices: u32,
    pub(crate) ahead: usize,
}

impl Numbering {
    // No cell is numbered yet. AllocError: there is no memory.
    pub(crate) fn new(alloc: Global, n: GridSize) -> Result<Numbering, AllocError>
        requires { IsBounded n }
        ensures { IfOk result (λ s. IsNumbered [] n s) }
    {
        let places = 2 * n.x as usize * n.y as usize;
        let slots = vec![in alloc; Entry { base: 0, mask: 0 }; places]?;
        Ok(Numbering {
            n,
            slots,
            vertices: 0,
            ahead: 0,
        })
    }

    // Numbers every cell that lies at most one layer above z.
    pub(crate) fn reach(&mut self, sided: &[SidedCell], z: u16)
        requires cells { HaveCells self.old.n sided.now }
        requires numbered { OfCells self.old.n sided.now
            (λ cells. IsNumbered cells self.old.n self.old) }
        requires below { OfCells self.old.n sided.now (λ cells. LiesBelow cells self.old.ahead z) }
        requires layer { z ≤ 512 }
        ensures width { self.new.n ≡ self.old.n }
        ensures numbered { OfCells self.old.n sided.now
            (λ cells. IsNumbered cells self.old.n self.new) }
        ensures below { OfCells self.old.n sided.now (λ cells. LiesBelow cells self.new.ahead z) }
        ensures reached { OfCells self.old.n sided.now
            (λ cells. ReachesAbove cells self.new.ahead z) }
    {
        while self.ahead < sided.len() && sided[self.ahead].z <= z + 1 {
            self.push_cell(&sided[self.ahead]);
        }
    }

    // Numbers one more cell.
    #[inline]
    fn push_cell(&mut self, cell: &SidedCell)
        requires bounded { IsBounded self.old.n }
        requires x { cell.now.x < self.old.n.x }
        requires y { cell.now.y < self.old.n.y }
        requires room { length self.old.slots.items ≡ 2 * self.old.n.x * self.old.n.y }
        requires few { self.old.vertices < 2 ^ 31 }
        requires ahead { self.old.ahead < 2 ^ 32 }
        ensures { Numbers cell.now self.old self.new }
    {
        let slot = slot(self.n, cell.x, cell.y, cell.z);
        let mask = cell.mask();
        self.slots[slot] = Entry {
            base: self.vertices,
            mask,
        };
        self.vertices += mask.count_ones();
        self.ahead += 1;
    }
}

// The place in two layers at which what is known of a cell is kept.
#[inline]
pub(crate) fn slot(n: GridSize, x: u16, y: u16, z: u16) -> usize
    requires bounded { IsBounded n }
    requires x { x < n.x }
    requires y { y < n.y }
    ensures place { result ≡ slot_of n x y z }
    ensures within { result < 2 * n.x * n.y }
{
    (usize::from(z % 2) * n.y as usize + usize::from(y)) * n.x as usize + usize::from(x)
}
