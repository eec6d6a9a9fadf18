// Meshes worked out by hand.
ghost use Rattle.std.specs.Prelude.{◌≡◌, ◌≤◌, IfOk};
ghost use Rattle.kuhn_cells.specs.Grids.{Grid};
ghost use Rattle.kuhn_cells.specs.Lists.{ListsCells};
ghost use Rattle.kuhn_cells.specs.declared.grid_size.GridSize.{GridSize};
ghost use Rattle.view_places.specs.Window.{FitsMesh, size_of};

use fixed_ops::Fx;
use kuhn_cells::{CellList, CellValues, EdgeKey};
use std::alloc::{AllocError, Global};
use std::test::Fail;
use tetra_mesh::{Face, Vertex, build, build_from};
use view_places::View;

// A view of so many cells along each axis, one or two.
fn view_of(n: u32) -> View
    requires some { 1 ≤ n }
    requires few { n ≤ 2 }
    ensures size { size_of result ≡ record { x = n; y = n; z = n } }
    ensures fits { FitsMesh result }
{
    View {
        x0: -1 << 32,
        x1: 1 << 32,
        y0: -1 << 32,
        y1: 1 << 32,
        z0: -1 << 32,
        z1: 1 << 32,
        z: 0,
        w: 1,
        h: 1,
        d: 1,
        nx: n,
        ny: n,
        nz: n,
    }
}

// The cells round a middle point that lies a quarter below 0. The others lie 3 quarters above 0 along
// an axis, 7 along two and 11 along three.
fn lone_point(alloc: Global) -> Result<CellList, AllocError>
    ensures { IfOk result (λ list. (g : Grid) × ListsCells (record { x = 2; y = 2; z = 2 }) list g) }
{
    let i = Fx::from_raw(-1_073_741_824);
    let a = Fx::from_raw(3_221_225_472);
    let f = Fx::from_raw(7_516_192_768);
    let b = Fx::from_raw(11_811_160_064);
    let cells = vec![in alloc;
        CellValues {
            x: 0,
            y: 0,
            z: 0,
            values: [b, f, f, a, f, a, a, i]
        },
        CellValues {
            x: 1,
            y: 0,
            z: 0,
            values: [f, b, a, f, a, f, i, a]
        },
        CellValues {
            x: 0,
            y: 1,
            z: 0,
            values: [f, a, b, f, a, i, f, a]
        },
        CellValues {
            x: 1,
            y: 1,
            z: 0,
            values: [a, f, f, b, i, a, a, f]
        },
        CellValues {
            x: 0,
            y: 0,
            z: 1,
            values: [f, a, a, i, b, f, f, a]
        },
        CellValues {
            x: 1,
            y: 0,
            z: 1,
            values: [a, f, i, a, f, b, a, f]
        },
        CellValues {
            x: 0,
            y: 1,
            z: 1,
            values: [a, i, f, a, f, a, b, f]
        },
        CellValues {
            x: 1,
            y: 1,
            z: 1,
            values: [i, a, a, f, a, f, f, b]
        },
    ]?;
    Ok(CellList {
        nx: 2,
        ny: 2,
        nz: 2,
        cells,
    })
}

// No cell is mixed where there is one cell.
fn lone_cell(alloc: Global) -> CellList
    ensures { (g : Grid) × ListsCells (record { x = 1; y = 1; z = 1 }) result g }
{
    CellList {
        nx: 1,
        ny: 1,
        nz: 1,
        cells: Vec::new(alloc),
    }
}

fn vertex(x: u16, y: u16, z: u16, dir: u8, t: u32) -> Vertex {
    let key = EdgeKey { z, y, x, dir };
    Vertex { key, t }
}

fn face(a: u32, b: u32, c: u32) -> Face {
    Face { a, b, c }
}

#[test]
fn lone_inside_point_is_wrapped(rt: HostRuntime) -> Result<(), Fail> {
    let cells = lone_point(rt.alloc())?;
    let mesh = build(rt.alloc(), &cells, &view_of(2))?;
    assert_eq!(rt;
        mesh.vertices.as_slice(),
        [
            vertex(0, 0, 0, 7, 60075),
            vertex(1, 0, 0, 6, 57344),
            vertex(0, 1, 0, 5, 57344),
            vertex(1, 1, 0, 4, 49152),
            vertex(0, 0, 1, 3, 57344),
            vertex(1, 0, 1, 2, 49152),
            vertex(0, 1, 1, 1, 49152),
            vertex(1, 1, 1, 1, 16384),
            vertex(1, 1, 1, 2, 16384),
            vertex(1, 1, 1, 3, 8192),
            vertex(1, 1, 1, 4, 16384),
            vertex(1, 1, 1, 5, 8192),
            vertex(1, 1, 1, 6, 8192),
            vertex(1, 1, 1, 7, 5461),
        ]
        .as_slice()
    );
    assert_eq!(rt; mesh.faces.len(), 24);
    assert_eq!(rt; mesh.faces[0], face(0, 3, 1));
    assert_eq!(rt; mesh.faces[12], face(4, 5, 10));
    assert_eq!(rt; mesh.faces[23], face(10, 13, 12));
    Ok(())
}

#[test]
fn lone_cell_has_an_empty_mesh(rt: HostRuntime) -> Result<(), Fail> {
    let mesh = build(rt.alloc(), &lone_cell(rt.alloc()), &view_of(1))?;
    assert!(rt; mesh.vertices.is_empty());
    assert!(rt; mesh.faces.is_empty());
    Ok(())
}

#[test]
fn mesh_is_the_same_where_the_cells_are_given_up(rt: HostRuntime) -> Result<(), Fail> {
    let cells = lone_point(rt.alloc())?;
    let kept = build(rt.alloc(), &cells, &view_of(2))?;
    let mesh = build_from(rt.alloc(), cells, &view_of(2))?;
    assert_eq!(rt; mesh.faces.len(), 24);
    assert_eq!(rt; mesh.vertices.as_slice(), kept.vertices.as_slice());
    assert_eq!(rt; mesh.faces.as_slice(), kept.faces.as_slice());
    Ok(())
}

#[test]
fn lone_cell_that_is_given_up_has_an_empty_mesh(rt: HostRuntime) -> Result<(), Fail> {
    let mesh = build_from(rt.alloc(), lone_cell(rt.alloc()), &view_of(1))?;
    assert!(rt; mesh.vertices.is_empty());
    assert!(rt; mesh.faces.is_empty());
    Ok(())
}
