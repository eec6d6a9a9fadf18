// What breaks that faces are closed and a manifold, vertex by vertex.
ghost use Rattle.std.specs.Prelude.{◌≡◌, ◌+◌, ◌<◌, ◌^◌, List, All, IfOk, length};
ghost use Rattle.kuhn_cells.specs.Faces.{Face as Triple};
ghost use Rattle.mesh_laws.specs.Closed.{IsTriangle};
ghost use Rattle.ply_check.specs.Arcs.{AreWithin, arcs_from};
ghost use Rattle.ply_check.specs.Corners.{corners, triples};
ghost use Rattle.ply_check.specs.Faults.{AreClear, AreFaultsBelow};

use crate::arc::Arc;
use crate::buckets::Buckets;
use crate::degrees::first_unpaired;
use crate::neighbours::Neighbours;
use crate::rounds::go_round;
use std::alloc::{AllocError, Global};

// The first edge that is not paired, and the lowest vertex without a fan.
#[derive(Clone, Copy)]
pub(crate) struct Faults {
    // The place of the edge among those of all faces, and how many there are where all are paired.
    pub(crate) edge: u64,
    // The vertex, if all edges are paired, and how many vertices there are where all have a fan.
    pub(crate) vertex: u32,
}

impl Faults {
    // Those of faces whose vertices are below a number. AllocError: there is no memory for what is
    // counted of them.
    pub(crate) fn of(alloc: Global, faces: &[[u32; 3]], top: u32) -> Result<Faults, AllocError>
        requires triangles { All IsTriangle (triples faces.now) }
        requires below { All (λ v. v < top) (corners faces.now) }
        requires few { length faces.now < 2 ^ 31 }
        ensures { IfOk result (AreFaultsBelow (triples faces.now) top top) }
    {
        let buckets = Buckets::new(alloc, faces, top)?;
        let mut neighbours = Neighbours::new(alloc, top)?;
        let mut arcs = Vec::new(alloc);
        let mut faults = Faults {
            edge: 3 * faces.len() as u64,
            vertex: top,
        };
        for vertex in 0..top {
            buckets.gather(faces, vertex, &mut arcs)?;
            faults = faults.or_at(vertex, top, &arcs, &mut neighbours);
        }
        Ok(faults)
    }

    // Those after a look at one vertex more, of so many, by the arcs opposite it.
    fn or_at(self, vertex: u32, top: u32, arcs: &[Arc], neighbours: &mut Neighbours) -> Faults
        requires vertex { vertex < top }
        requires within { AreWithin top arcs.now }
        requires few { length arcs.now < 2 ^ 31 }
        requires clear { AreClear top neighbours.old.to.items neighbours.old.back.items neighbours.old.next.items }
        ensures found { (fs : List Triple) → All IsTriangle fs → arcs.now ≡ arcs_from vertex 0 fs
            → AreFaultsBelow fs top vertex self → AreFaultsBelow fs top (vertex + 1) result }
        ensures clear { AreClear top neighbours.new.to.items neighbours.new.back.items neighbours.new.next.items }
    {
        let edge = first_unpaired(arcs, &mut neighbours.to, &mut neighbours.back, self.edge);
        let is_first = self.vertex == top && !go_round(arcs, &mut neighbours.next);
        Faults {
            edge,
            vertex: if is_first { vertex } else { self.vertex },
        }
    }
}
