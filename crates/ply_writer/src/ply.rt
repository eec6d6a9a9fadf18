// Meshes in the ASCII form of PLY.
// https://paulbourke.net/dataformats/ply/
ghost use Rattle.std.specs.Prelude.{◌≡◌, ◌<◌, ◌^◌, ◌++◌, All, IfOk, OnOk, length};
ghost use Rattle.std.specs.List.{flat_map};
ghost use Rattle.tetra_mesh.specs.Places.{IsPlaced};
ghost use Rattle.ply_writer.specs.Ply.{face_line, ply_of, vertex_line};

use crate::line::{FACE_LINE, VERTEX_LINE};
use crate::ply_block::{BLOCK, PlyBlock};
use crate::room::room_for;
use std::alloc::{AllocError, Global};
use tetra_mesh::{Face, Mesh, Vertex};
use view_places::View;

// How many vertices a block has room for.
const VERTICES: usize = BLOCK / VERTEX_LINE;

// How many faces a block has room for.
const FACES: usize = BLOCK / FACE_LINE;

/// The text of a mesh over a view: the header, a line for each vertex with its three places, and a
/// line for each face with the numbers of its vertices. AllocError: there is no memory for it.
pub fn ply_text(alloc: Global, mesh: &Mesh, view: &View) -> Result<Vec<u8>, AllocError>
    requires placed { All (IsPlaced view.now) mesh.now.vertices }
    requires vertices { length mesh.now.vertices < 2 ^ 31 }
    requires faces { length mesh.now.faces < 2 ^ 31 }
    ensures { IfOk result (λ text. text.items
        ≡ ply_of view.now mesh.now.vertices mesh.now.faces) }
{
    let mut block = PlyBlock::new(alloc, view)?;
    let (vertices, faces) = (mesh.vertices.as_slice(), mesh.faces.as_slice());
    let mut text = Vec::with_capacity(alloc, room_for(vertices.len(), faces.len(), view))?;
    block.put_header(vertices.len() as u32, faces.len() as u32);
    text.extend_from_slice(block.piece())?;
    push_vertices(vertices, &mut block, &mut text)?;
    push_faces(faces, &mut block, &mut text)?;
    Ok(text)
}

// Adds the lines of vertices to a text, as many at a time as a block has room for.
fn push_vertices(
    vertices: &[Vertex],
    block: &mut PlyBlock,
    text: &mut Vec<u8>,
) -> Result<(), AllocError>
    requires { All (IsPlaced block.old.view) vertices.now }
    ensures { OnOk result (text.new.items
        ≡ text.old.items ++ flat_map (vertex_line block.old.view) vertices.now) }
{
    let mut rest = vertices;
    while !rest.is_empty() {
        let (batch, after) = rest.split_at(rest.len().min(VERTICES));
        block.clear();
        block.put_vertices(batch);
        text.extend_from_slice(block.piece())?;
        rest = after;
    }
    Ok(())
}

// Adds the lines of faces, likewise.
fn push_faces(faces: &[Face], block: &mut PlyBlock, text: &mut Vec<u8>) -> Result<(), AllocError>
    ensures { OnOk result (text.new.items ≡ text.old.items ++ flat_map face_line faces.now) }
{
    let mut rest = faces;
    while !rest.is_empty() {
        let (batch, after) = rest.split_at(rest.len().min(FACES));
        block.clear();
        block.put_faces(batch);
        text.extend_from_slice(block.piece())?;
        rest = after;
    }
    Ok(())
}
