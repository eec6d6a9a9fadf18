// How many edges lead from a vertex to each other one, and back.
ghost use Rattle.std.specs.Prelude.{◌≡◌, ℕ, ◌+◌, ◌<◌, ◌==◌, ◌&&◌, ◌^◌, List, [], All, get_or, length};
ghost use Rattle.kuhn_cells.specs.Faces.{Face as Triple};
ghost use Rattle.mesh_laws.specs.Closed.{IsTriangle};
ghost use Rattle.ply_check.specs.Arcs.{AreWithin, arcs_from, pairs};
ghost use Rattle.ply_check.specs.Degrees.{AreDegrees, IsLeastUnpaired};
ghost use Rattle.ply_check.specs.Faults.{IsFirstBelow};

use crate::arc::Arc;

// The first edge that is not paired, of those before a place and those that leave a vertex, by the arcs
// opposite it: the place of the edge, or else that place.
pub(crate) fn first_unpaired(arcs: &[Arc], to: &mut [u32], back: &mut [u32], first: u64) -> u64
    requires none { AreDegrees (length to.old) [] to.old back.old }
    requires within { AreWithin (length to.old) arcs.now }
    requires few { length arcs.now < 2 ^ 31 }
    ensures first { (fs : List Triple) (u : ℕ) → All IsTriangle fs → arcs.now ≡ arcs_from u 0 fs
        → IsFirstBelow fs u first → IsFirstBelow fs (u + 1) result }
    ensures none { AreDegrees (length to.old) [] to.new back.new }
{
    count(arcs, to, back);
    let least = least_unpaired(arcs, to, back, first);
    clear(arcs, to, back);
    least
}

// Counts the edges of the arcs opposite a vertex: by the vertices that they lead to, and by those from
// which they come back.
fn count(arcs: &[Arc], to: &mut [u32], back: &mut [u32])
    requires none { AreDegrees (length to.old) [] to.old back.old }
    requires within { AreWithin (length to.old) arcs.now }
    requires few { length arcs.now < 2 ^ 31 }
    ensures { AreDegrees (length to.old) (pairs arcs.now) to.new back.new }
{
    for arc in arcs {
        to[arc.next as usize] += 1;
        back[arc.last as usize] += 1;
    }
}

// Takes these edges away again.
fn clear(arcs: &[Arc], to: &mut [u32], back: &mut [u32])
    requires counted { AreDegrees (length to.old) (pairs arcs.now) to.old back.old }
    requires within { AreWithin (length to.old) arcs.now }
    ensures { AreDegrees (length to.old) [] to.new back.new }
{
    for arc in arcs {
        to[arc.next as usize] -= 1;
        back[arc.last as usize] -= 1;
    }
}

// The least of a place and those of the arcs to whose next vertex not one edge leads, or from which
// not one comes back.
fn least_unpaired(arcs: &[Arc], to: &[u32], back: &[u32], first: u64) -> u64
    requires within { AreWithin (length to.now) arcs.now }
    requires size { length back.now ≡ length to.now }
    ensures { IsLeastUnpaired to.now back.now arcs.now first result }
{
    let mut least = first;
    for arc in arcs {
        if !is_once(arc.next, to, back) {
            least = least.min(arc.place);
        }
    }
    least
}

// Whether one edge leads to a vertex, and one comes back from it.
#[inline]
fn is_once(vertex: u32, to: &[u32], back: &[u32]) -> bool
    requires to { vertex < length to.now }
    requires back { vertex < length back.now }
    ensures { result ≡ (get_or to.now vertex 0 == 1 && get_or back.now vertex 0 == 1) }
{
    to[vertex as usize] == 1 && back[vertex as usize] == 1
}
