// The header of a text, written into a block from the last to the first.
ghost use Rattle.std.specs.Prelude.{◌≡◌, ◌<◌, ◌≤◌, ◌^◌, ◌++◌, drop, length};
ghost use Rattle.ply_writer.specs.Ply.{ply_header};

use crate::digits::{bytes_before, digits_before};

/// The longest header: its 155 bytes and two counts of at most ten digits.
pub const HEADER: usize = 175;

/// Writes the header of so many vertices and faces before `end`, and returns where it starts.
#[tactic(auto, using(crate::proofs::DigitLaws::count_short))]
pub(crate) fn header_before(vertices: u32, faces: u32, block: &mut [u8], end: usize) -> usize
    requires room { HEADER ≤ end }
    requires within { end ≤ length block.old }
    ensures before { result ≤ end }
    ensures header { drop result block.new ≡ ply_header vertices faces ++ drop end block.old }
{
    let start = bytes_before(
        b"\nproperty list uchar int vertex_indices\nend_header\n",
        block,
        end,
    );
    let start = digits_before(faces, block, start);
    let start = bytes_before(
        b"\nproperty double x\nproperty double y\nproperty double z\nelement face ",
        block,
        start,
    );
    let start = digits_before(vertices, block, start);
    bytes_before(b"ply\nformat ascii 1.0\nelement vertex ", block, start)
}
