// How many digits of a number stand below one of them.
ghost use Rattle.std.specs.Prelude.{◌≡◌, ◌<◌, IfOk};
ghost use Rattle.tetra_mesh.specs.Numbering.{rank_of};
ghost use Rattle.tetra_mesh.specs.Ranks.{AreRanks};

use std::alloc::{AllocError, Global};

// Of each byte and each of its digits, how many digits stand below that one: the rank of digit d of
// the byte m is at the place 8 * m + d. AllocError: there is no memory for them.
pub(crate) fn ranks(alloc: Global) -> Result<Vec<u8>, AllocError>
    ensures { IfOk result (λ ranks. AreRanks ranks.items) }
{
    let mut ranks = Vec::with_capacity(alloc, 2048)?;
    for at in 0..2048u16 {
        ranks.push(rank((at / 8) as u8, (at % 8) as u8))?;
    }
    Ok(ranks)
}

// How many digits of a byte stand below one of them.
#[tactic(auto, using(crate::proofs::Bits::masked), unfolding(crate::specs::Numbering::rank_of))]
fn rank(mask: u8, dir: u8) -> u8
    requires { dir < 8 }
    ensures { result ≡ rank_of mask dir }
{
    (mask & ((1 << dir) - 1)).count_ones() as u8
}
