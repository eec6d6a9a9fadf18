// Contours as path data.
// https://www.w3.org/TR/SVG2/paths.html#PathData
ghost use Rattle.std.specs.Prelude.{◌≡◌, ◌<◌, ◌++◌, All, IfOk, OnOk, length, map};
ghost use Rattle.std.specs.List.{flat_map};
ghost use Rattle.plane_loops.specs.Contours.{IsContour};
ghost use Rattle.plane_loops.specs.Planes.{IsBordered, PlaneGrid};
ghost use Rattle.path_writer.specs.Closed.{AreClosedPaths};
ghost use Rattle.path_writer.specs.Paths.{line_to, path_line, path_of, vertex_at};
ghost use Rattle.path_writer.specs.Written.{CanBeWritten, IsInPlane};

use crate::vertex_text::push_vertex;
use plane_loops::{Loops, PlaneVertex};
use std::alloc::{AllocError, Global};
use tetra_mesh::GridPlaces;
use view_places::View;

// The bytes of a vertex with places below 10, of which few have more.
const USUAL: usize = 30;

/// The paths of a contour over a view: a line for each loop, which moves to its first vertex, draws
/// lines to the others, one after the other, and closes the loop. Places are number texts of raw
/// numbers, and y is not turned over. The paths of a contour of a grid whose border is outside are
/// closed loops: exactly one segment comes to each vertex, and exactly one goes on. AllocError: there is
/// no memory for it.
pub fn path_text(alloc: Global, contour: &Loops, view: &View) -> Result<Vec<u8>, AllocError>
    requires { CanBeWritten view.now contour.now }
    ensures text { IfOk result (λ text. text.items ≡ path_of view.now contour.now) }
    ensures closed { (g : PlaneGrid) → IsBordered g → IsContour g contour.now
        → IfOk result (λ text. AreClosedPaths view.now g text.items) }
{
    let places = GridPlaces::new(view);
    let mut text = Vec::with_capacity(alloc, contour.order.len().saturating_mul(USUAL))?;
    let mut start = 0;
    for end in &contour.ends {
        let end = *end as usize;
        let numbers = &contour.order[start..end];
        push_loop(&mut text, &places, &contour.vertices, numbers)?;
        start = end;
    }
    Ok(text)
}

// Adds the line of the loop along the vertices of these numbers.
fn push_loop(
    text: &mut Vec<u8>,
    places: &GridPlaces,
    vertices: &[PlaneVertex],
    numbers: &[u32],
) -> Result<(), AllocError>
    requires placed { All (IsInPlane places.now) vertices.now }
    requires known { All (λ k. k < length vertices.now) numbers.now }
    ensures { OnOk result (text.new.items ≡ text.old.items
        ++ path_line places.now (map (vertex_at vertices.now) numbers.now)) }
{
    let [first, others @ ..] = numbers else {
        return Ok(());
    };
    push_vertex(text, b"M ", places, &vertices[*first as usize])?;
    push_lines(text, places, vertices, others)?;
    text.extend_from_slice(b" Z\n")
}

// Adds a line to each of the vertices of these numbers.
fn push_lines(
    text: &mut Vec<u8>,
    places: &GridPlaces,
    vertices: &[PlaneVertex],
    numbers: &[u32],
) -> Result<(), AllocError>
    requires placed { All (IsInPlane places.now) vertices.now }
    requires known { All (λ k. k < length vertices.now) numbers.now }
    ensures { OnOk result (text.new.items ≡ text.old.items
        ++ flat_map (line_to places.now) (map (vertex_at vertices.now) numbers.now)) }
{
    for number in numbers {
        push_vertex(text, b" L ", places, &vertices[*number as usize])?;
    }
    Ok(())
}
