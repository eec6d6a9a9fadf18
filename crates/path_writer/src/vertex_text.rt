// The places of a vertex, as text.
ghost use Rattle.std.specs.Prelude.{◌≡◌, ◌++◌, OnOk};
ghost use Rattle.path_writer.specs.Paths.{in_space, place_text};
ghost use Rattle.path_writer.specs.Written.{IsInPlane};
ghost use Rattle.tetra_mesh.specs.Places.{IsPlaced};

use fixed_ops::{LONGEST_NUMBER, byte_before, number_before};
use kuhn_cells::EdgeKey;
use plane_loops::PlaneVertex;
use std::alloc::AllocError;
use tetra_mesh::{GridPlaces, Vertex};
use view_places::Axis;

// The longest text of a place: two numbers, and a space between them.
const PLACE: usize = 2 * LONGEST_NUMBER + 1;

/// Adds a mark to a text, and then the place of a vertex.
pub(crate) fn push_vertex(
    text: &mut Vec<u8>,
    mark: &[u8],
    places: &GridPlaces,
    v: &PlaneVertex,
) -> Result<(), AllocError>
    requires { IsInPlane places.now v.now }
    ensures { OnOk result (text.new.items
        ≡ text.old.items ++ (mark.now ++ place_text places.now v.now)) }
{
    let v = on_the_grid(places, v);
    let mut line = [0; PLACE];
    let start = number_before(places.raw(&v, Axis::Y), &mut line, PLACE);
    let start = byte_before(b' ', &mut line, start);
    let start = number_before(places.raw(&v, Axis::X), &mut line, start);
    text.extend_from_slice(mark)?;
    text.extend_from_slice(&line[start..])
}

// The vertex of a mesh that lies above a vertex of a contour, in the lowest layer.
fn on_the_grid(places: &GridPlaces, v: &PlaneVertex) -> Vertex
    requires { IsInPlane places.now v.now }
    ensures vertex { result ≡ in_space v.now }
    ensures placed { IsPlaced places.now result }
{
    // That the view is one.
    let _places = places;
    Vertex {
        key: EdgeKey {
            x: v.x,
            y: v.y,
            z: 0,
            dir: v.dir,
        },
        t: v.t,
    }
}
