// The lines of the faces of cells.
ghost use Rattle.std.specs.Prelude.{◌≡◌, ◌<◌, ◌++◌, [], drop, flat_map, length};
ghost use Rattle.ply_writer.specs.Ply.{face_line};
ghost use Rattle.tetra_mesh.specs.Numbering.{all_faces};
ghost use Rattle.tetra_mesh.specs.Sides.{OfCells};

use arrayvec::ArrayVec;
use ply_writer::{BLOCK, PlyBlock};
use tetra_mesh::{FACES, Face, FaceWalk};

/// Makes the lines of the faces of the next cells, as many as a block has room for. `faces` is memory
/// for these faces.
pub fn put_faces(walk: &mut FaceWalk, faces: &mut ArrayVec<Face, FACES>, block: &mut PlyBlock)
    requires room { block.old.room ≡ BLOCK }
    requires none { block.old.bytes ≡ [] }
    ensures n { walk.new.n ≡ walk.old.n }
    ensures sided { walk.new.sided ≡ walk.old.sided }
    ensures view { block.new.view ≡ block.old.view }
    ensures lines { OfCells walk.old.n walk.old.sided
        (λ cells. flat_map face_line (all_faces cells (drop walk.old.made cells))
        ≡ block.new.bytes ++ flat_map face_line (all_faces cells (drop walk.new.made cells))) }
    ensures full { walk.new.made < length walk.new.sided → 0 < length block.new.bytes }
{
    faces.clear();
    walk.fill(faces);
    block.put_faces(faces.as_slice());
}
