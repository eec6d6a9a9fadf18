// Meshes with their text written out by hand.
ghost use Rattle.std.specs.Prelude.{All, IsTrue};
ghost use Rattle.tetra_mesh.specs.Places.{IsPlaced};

use kuhn_cells::EdgeKey;
use ply_writer::ply_text;
use std::test::Fail;
use tetra_mesh::{Face, Mesh, Vertex};
use view_places::View;

const ONE: i64 = 1 << 32;

// The view of n cells along each axis, from -1 to 1.
fn view_of(n: u32) -> Option<View> {
    if n == 0 || n > 512 {
        return None;
    }
    Some(View {
        x0: -ONE,
        x1: ONE,
        y0: -ONE,
        y1: ONE,
        z0: -ONE,
        z1: ONE,
        z: 0,
        w: 1,
        h: 1,
        d: 1,
        nx: n,
        ny: n,
        nz: n,
    })
}

fn vertex(x: u16, y: u16, z: u16, dir: u8, t: u32) -> Vertex {
    let key = EdgeKey { z, y, x, dir };
    Vertex { key, t }
}

fn face(a: u32, b: u32, c: u32) -> Face {
    Face { a, b, c }
}

// Whether a vertex lies in the grid of a view.
fn is_placed(view: &View, v: &Vertex) -> bool
    ensures { IsTrue result → IsPlaced view.now v.now }
{
    let key = v.key;
    1 <= key.dir
        && key.dir <= 7
        && u32::from(key.x) + u32::from(key.dir % 2) <= view.nx
        && u32::from(key.y) + u32::from(key.dir / 2 % 2) <= view.ny
        && u32::from(key.z) + u32::from(key.dir / 4 % 2) <= view.nz
        && 1 <= v.t
        && v.t <= 65535
}

// Whether all vertices do.
fn are_placed(view: &View, vertices: &[Vertex]) -> bool
    ensures { IsTrue result → All (IsPlaced view.now) vertices.now }
{
    vertices.iter().all(|v| is_placed(view, v))
}

#[test]
fn empty_mesh_is_a_header(rt: HostRuntime) -> Result<(), Fail> {
    let view = view_of(2).ok_or("no view")?;
    let mesh = Mesh {
        vertices: Vec::new(rt.alloc()),
        faces: Vec::new(rt.alloc()),
    };
    assert!(rt; are_placed(&view, &mesh.vertices));
    assert_eq!(rt; mesh.vertices.len(), 0);
    assert_eq!(rt; mesh.faces.len(), 0);
    let text = ply_text(rt.alloc(), &mesh, &view)?;
    assert_eq!(rt;
        text.as_slice(),
        b"ply\n\
        format ascii 1.0\n\
        element vertex 0\n\
        property double x\n\
        property double y\n\
        property double z\n\
        element face 0\n\
        property list uchar int vertex_indices\n\
        end_header\n"
            .as_slice()
    );
    Ok(())
}

#[test]
fn mesh_round_a_point_has_its_text(rt: HostRuntime) -> Result<(), Fail> {
    let view = view_of(2).ok_or("no view")?;
    let vertices = [
        vertex(0, 0, 0, 7, 60075),
        vertex(1, 0, 0, 6, 57344),
        vertex(0, 1, 0, 5, 57344),
        vertex(1, 1, 0, 4, 49152),
        vertex(0, 0, 1, 3, 57344),
        vertex(1, 0, 1, 2, 49152),
        vertex(0, 1, 1, 1, 49152),
        vertex(1, 1, 1, 1, 16384),
        vertex(1, 1, 1, 2, 16384),
        vertex(1, 1, 1, 3, 8192),
        vertex(1, 1, 1, 4, 16384),
        vertex(1, 1, 1, 5, 8192),
        vertex(1, 1, 1, 6, 8192),
        vertex(1, 1, 1, 7, 5461),
    ]
    .to_vec(rt.alloc())?;
    let faces = [
        face(0, 3, 1),
        face(0, 1, 5),
        face(0, 2, 3),
        face(0, 6, 2),
        face(0, 5, 4),
        face(0, 4, 6),
        face(1, 3, 7),
        face(1, 7, 5),
        face(2, 8, 3),
        face(2, 6, 8),
        face(3, 9, 7),
        face(3, 8, 9),
        face(4, 5, 10),
        face(4, 10, 6),
        face(5, 7, 11),
        face(5, 11, 10),
        face(6, 12, 8),
        face(6, 10, 12),
        face(7, 9, 13),
        face(7, 13, 11),
        face(8, 13, 9),
        face(8, 12, 13),
        face(10, 11, 13),
        face(10, 13, 12),
    ]
    .to_vec(rt.alloc())?;
    let mesh = Mesh { vertices, faces };
    assert!(rt; are_placed(&view, &mesh.vertices));
    assert_eq!(rt; mesh.vertices.len(), 14);
    assert_eq!(rt; mesh.faces.len(), 24);
    let text = ply_text(rt.alloc(), &mesh, &view)?;
    assert_eq!(rt;
        text.as_slice(),
        b"ply\n\
        format ascii 1.0\n\
        element vertex 14\n\
        property double x\n\
        property double y\n\
        property double z\n\
        element face 24\n\
        property list uchar int vertex_indices\n\
        end_header\n\
        -0.0833282470 -0.0833282470 -0.0833282470\n\
        0.0000000000 -0.1250000000 -0.1250000000\n\
        -0.1250000000 0.0000000000 -0.1250000000\n\
        0.0000000000 0.0000000000 -0.2500000000\n\
        -0.1250000000 -0.1250000000 0.0000000000\n\
        0.0000000000 -0.2500000000 0.0000000000\n\
        -0.2500000000 0.0000000000 0.0000000000\n\
        0.2500000000 0.0000000000 0.0000000000\n\
        0.0000000000 0.2500000000 0.0000000000\n\
        0.1250000000 0.1250000000 0.0000000000\n\
        0.0000000000 0.0000000000 0.2500000000\n\
        0.1250000000 0.0000000000 0.1250000000\n\
        0.0000000000 0.1250000000 0.1250000000\n\
        0.0833282470 0.0833282470 0.0833282470\n\
        3 0 3 1\n\
        3 0 1 5\n\
        3 0 2 3\n\
        3 0 6 2\n\
        3 0 5 4\n\
        3 0 4 6\n\
        3 1 3 7\n\
        3 1 7 5\n\
        3 2 8 3\n\
        3 2 6 8\n\
        3 3 9 7\n\
        3 3 8 9\n\
        3 4 5 10\n\
        3 4 10 6\n\
        3 5 7 11\n\
        3 5 11 10\n\
        3 6 12 8\n\
        3 6 10 12\n\
        3 7 9 13\n\
        3 7 13 11\n\
        3 8 13 9\n\
        3 8 12 13\n\
        3 10 11 13\n\
        3 10 13 12\n"
            .as_slice()
    );
    assert!(rt; text.capacity() < text.len() + text.len() / 4);
    Ok(())
}

#[test]
fn lines_of_more_than_one_block_are_all_there(rt: HostRuntime) -> Result<(), Fail> {
    let view = view_of(2).ok_or("no view")?;
    let mesh = Mesh {
        vertices: vec![in rt.alloc(); vertex(0, 0, 0, 7, 60075); 1000]?,
        faces: vec![in rt.alloc(); face(0, 1, 2); 2000]?,
    };
    assert!(rt; are_placed(&view, &mesh.vertices));
    assert_eq!(rt; mesh.vertices.len(), 1000);
    assert_eq!(rt; mesh.faces.len(), 2000);
    let text = ply_text(rt.alloc(), &mesh, &view)?;
    assert_eq!(rt; text.len(), 163 + 1000 * 42 + 2000 * 8);
    assert!(rt; text.ends_with(b"3 0 1 2\n3 0 1 2\n"));
    Ok(())
}
