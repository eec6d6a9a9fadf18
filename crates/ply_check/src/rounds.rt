// Whether arcs go round.
ghost use Rattle.std.specs.Prelude.{◌≡◌, ℕ, ◌<◌, ◌≤◌, ◌^◌, All, AllPairs, get_or, length, map, true, false};
ghost use Rattle.ply_check.specs.Arcs.{AreWithin, pairs};
ghost use Rattle.ply_check.specs.Walks.{GoesRound, HaveOneSource, IsNotBack, LeadsOn, table};

use crate::arc::Arc;

// Whether there are three arcs at least, and one that follows them from the first on does not come
// back in fewer steps than there are arcs. The table tells afterwards which vertex follows which.
pub(crate) fn go_round(arcs: &[Arc], next: &mut [u32]) -> bool
    requires within { AreWithin (length next.old) arcs.now }
    requires below { All (λ v. v < length next.old) next.old }
    requires few { length arcs.now < 2 ^ 32 }
    ensures leads { HaveOneSource (pairs arcs.now) → LeadsOn (table next.new) (pairs arcs.now) }
    ensures round { result ≡ true → GoesRound (table next.new) (pairs arcs.now) }
    ensures broken { result ≡ false → GoesRound (table next.new) (pairs arcs.now) → ⊥ }
    ensures size { length next.new ≡ length next.old }
    ensures below { All (λ v. v < length next.old) next.new }
{
    link(arcs, next);
    arcs.len() >= 3 && is_away(next, arcs[0].next, arcs.len() as u32)
}

// Writes down for each arc that its last vertex follows its next one.
fn link(arcs: &[Arc], next: &mut [u32])
    requires within { AreWithin (length next.old) arcs.now }
    requires below { All (λ v. v < length next.old) next.old }
    ensures leads { HaveOneSource (pairs arcs.now) → LeadsOn (table next.new) (pairs arcs.now) }
    ensures size { length next.new ≡ length next.old }
    ensures below { All (λ v. v < length next.old) next.new }
{
    for arc in arcs {
        next[arc.next as usize] = arc.last;
    }
}

// Whether one that goes on from a vertex to the next does not come back in fewer steps than so many.
fn is_away(next: &[u32], start: u32, count: u32) -> bool
    requires below { All (λ v. v < length next.now) next.now }
    requires start { start < length next.now }
    ensures away { result ≡ true → IsNotBack (table next.now) count start }
    ensures back { result ≡ false → IsNotBack (table next.now) count start → ⊥ }
{
    let mut at = start;
    for _step in 1..count {
        at = next[at as usize];
        if at == start {
            return false;
        }
    }
    true
}
