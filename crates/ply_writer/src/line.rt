// The lines of vertices and of faces, written into a block from the last to the first.
ghost use Rattle.std.specs.Prelude.{◌≡◌, ◌+◌, ◌*◌, ◌≤◌, ◌++◌, All, drop, length};
ghost use Rattle.std.specs.List.{flat_map};
ghost use Rattle.fixed_ops.specs.NumberTexts.{number_text};
ghost use Rattle.tetra_mesh.specs.Places.{IsPlaced, vertex_place};
ghost use Rattle.ply_writer.specs.Ply.{face_line as face_line_of, vertex_line as vertex_line_of};
ghost use Rattle.ply_writer.specs.PointTexts.{ArePointTexts};
ghost use Rattle.ply_writer.specs.Triples.{AreTriples};

use crate::point_texts::PointTexts;
use crate::triples::Triples;
use fixed_ops::{LONGEST_NUMBER, byte_before, number_before};
use tetra_mesh::{Face, GridPlaces, Vertex};
use view_places::Axis;

/// The longest line of a vertex: three numbers, two spaces and a line feed.
pub const VERTEX_LINE: usize = 69;

/// The longest line of a face: 3, three counts, three spaces and a line feed.
pub const FACE_LINE: usize = 35;

/// Writes the lines of vertices before `end`, and returns where they start.
pub(crate) fn vertex_lines(
    places: &GridPlaces,
    texts: &PointTexts,
    vertices: &[Vertex],
    block: &mut [u8],
    end: usize,
) -> usize
    requires texts { ArePointTexts places.now texts.now }
    requires placed { All (IsPlaced places.now) vertices.now }
    requires room { VERTEX_LINE * length vertices.now ≤ end }
    requires within { end ≤ length block.old }
    ensures few { end ≤ result + VERTEX_LINE * length vertices.now }
    ensures before { result ≤ end }
    ensures lines { drop result block.new
        ≡ flat_map (vertex_line_of places.now) vertices.now ++ drop end block.old }
{
    let mut start = end;
    for i in (0..vertices.len()).rev() {
        start = vertex_line(places, texts, &vertices[i], block, start);
    }
    start
}

/// Writes the lines of faces before `end`, and returns where they start.
pub(crate) fn face_lines(triples: &Triples, faces: &[Face], block: &mut [u8], end: usize) -> usize
    requires triples { AreTriples triples.now }
    requires room { FACE_LINE * length faces.now ≤ end }
    requires within { end ≤ length block.old }
    ensures few { end ≤ result + FACE_LINE * length faces.now }
    ensures before { result ≤ end }
    ensures lines { drop result block.new ≡ flat_map face_line_of faces.now ++ drop end block.old }
{
    let mut start = end;
    for i in (0..faces.len()).rev() {
        start = face_line(triples, &faces[i], block, start);
    }
    start
}

// Writes the line of a vertex before `end`, and returns where it starts.
#[inline]
fn vertex_line(
    places: &GridPlaces,
    texts: &PointTexts,
    v: &Vertex,
    block: &mut [u8],
    end: usize,
) -> usize
    requires texts { ArePointTexts places.now texts.now }
    requires placed { IsPlaced places.now v.now }
    requires room { VERTEX_LINE ≤ end }
    requires within { end ≤ length block.old }
    ensures few { end ≤ result + VERTEX_LINE }
    ensures before { result ≤ end }
    ensures line { drop result block.new
        ≡ vertex_line_of places.now v.now ++ drop end block.old }
{
    let start = byte_before(b'\n', block, end);
    let start = place_before(places, texts, v, Axis::Z, block, start);
    let start = byte_before(b' ', block, start);
    let start = place_before(places, texts, v, Axis::Y, block, start);
    let start = byte_before(b' ', block, start);
    place_before(places, texts, v, Axis::X, block, start)
}

// Writes the text of a vertex's place along an axis before `end`, and returns where it starts. The
// texts of the grid's own places are copied.
#[inline(always)]
fn place_before(
    places: &GridPlaces,
    texts: &PointTexts,
    v: &Vertex,
    axis: Axis,
    block: &mut [u8],
    end: usize,
) -> usize
    requires texts { ArePointTexts places.now texts.now }
    requires placed { IsPlaced places.now v.now }
    requires room { LONGEST_NUMBER ≤ end }
    requires within { end ≤ length block.old }
    ensures few { end ≤ result + LONGEST_NUMBER }
    ensures before { result ≤ end }
    ensures written { drop result block.new
        ≡ number_text (vertex_place places.now v.now axis) ++ drop end block.old }
{
    let Some(index) = places.point_along(v, axis) else {
        return number_before(places.raw(v, axis), block, end);
    };
    match axis {
        Axis::X => texts.x[index as usize].text_before(block, end),
        Axis::Y => texts.y[index as usize].text_before(block, end),
        Axis::Z => texts.z[index as usize].text_before(block, end),
    }
}

// Writes the line of a face before `end`, and returns where it starts.
#[inline]
fn face_line(triples: &Triples, face: &Face, block: &mut [u8], end: usize) -> usize
    requires triples { AreTriples triples.now }
    requires room { FACE_LINE ≤ end }
    requires within { end ≤ length block.old }
    ensures few { end ≤ result + FACE_LINE }
    ensures before { result ≤ end }
    ensures line { drop result block.new ≡ face_line_of face.now ++ drop end block.old }
{
    let start = byte_before(b'\n', block, end);
    let start = triples.count_before(face.c, block, start);
    let start = byte_before(b' ', block, start);
    let start = triples.count_before(face.b, block, start);
    let start = byte_before(b' ', block, start);
    let start = triples.count_before(face.a, block, start);
    let start = byte_before(b' ', block, start);
    byte_before(b'3', block, start)
}
