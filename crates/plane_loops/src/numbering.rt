// The vertices of a contour, numbered cell by cell.
ghost use Rattle.std.specs.Prelude.{◌≡◌, ◌+◌, ◌*◌, ◌<◌, ◌≤◌, ◌++◌, true, All, IfOk, OnOk, length, map};
ghost use Rattle.fixed_ops.specs.Raw.{is_inside as is_inside_of};
ghost use Rattle.kuhn_cells.specs.Arrangement.{differ};
ghost use Rattle.mesh_laws.specs.Places.{way_up as way_up_of};
ghost use Rattle.plane_loops.specs.Following.{cell_at, edges_before, if_mixed, mixed_directions, vertex_by};
ghost use Rattle.plane_loops.specs.Planes.{edge_from};
ghost use Rattle.plane_loops.specs.Steps.{IsParted, bases_of};

use crate::PlaneVertex;
use crate::signs::is_mixed;
use fixed_ops::{Fx, cut, is_inside};
use std::alloc::{AllocError, Global};

// The vertices of a grid, and for each cell how many stand before its own.
#[derive(Debug, Drop)]
pub(crate) struct Numbering {
    pub(crate) vertices: Vec<PlaneVertex>,
    pub(crate) bases: Vec<u32>,
}

impl Numbering {
    // Those of a grid of so many cells along each axis, by the values of its points and by which
    // corners of each cell are inside. AllocError: there is no memory for them.
    pub(crate) fn new(
        alloc: Global,
        n: usize,
        values: &[Fx],
        signs: &[u8],
    ) -> Result<Numbering, AllocError>
        requires few { n ≤ 256 }
        requires values { length values.now ≡ (n + 1) * (n + 1) }
        requires signs { length signs.now ≡ n * n }
        requires parted { All (IsParted n values.now) (edges_before n signs.now (n * n)) }
        ensures vertices { IfOk result (λ made. made.vertices.items
            ≡ map (vertex_by n values.now) (edges_before n signs.now (n * n))) }
        ensures bases { IfOk result (λ made. made.bases.items ≡ bases_of n signs.now) }
        ensures small { IfOk result (λ made. length made.vertices.items ≤ 3 * (n * n)) }
    {
        let mut vertices = Vec::new(alloc);
        let mut bases = Vec::with_capacity(alloc, n * n)?;
        for place in 0..n * n {
            bases.push(vertices.len() as u32)?;
            push_vertices(&mut vertices, n, values, place, signs[place])?;
        }
        Ok(Numbering { vertices, bases })
    }
}

// Appends the vertices on the edges from the lowest corner of a cell with these signs. AllocError:
// there is no memory for them.
fn push_vertices(
    vertices: &mut Vec<PlaneVertex>,
    n: usize,
    values: &[Fx],
    place: usize,
    signs: u8,
) -> Result<(), AllocError>
    requires few { n ≤ 256 }
    requires values { length values.now ≡ (n + 1) * (n + 1) }
    requires place { place < n * n }
    requires parted { All (IsParted n values.now)
        (map (edge_from (cell_at n place)) (mixed_directions signs)) }
    ensures { OnOk result (vertices.new.items ≡ vertices.old.items
        ++ map (vertex_by n values.now) (map (edge_from (cell_at n place)) (mixed_directions signs))) }
{
    push_vertex(vertices, n, values, place, signs, 1)?;
    push_vertex(vertices, n, values, place, signs, 2)?;
    push_vertex(vertices, n, values, place, signs, 3)?;
    Ok(())
}

// Appends the vertex on the edge in a direction from the lowest corner of a cell with these signs, if
// there is one. AllocError: there is no memory for it.
fn push_vertex(
    vertices: &mut Vec<PlaneVertex>,
    n: usize,
    values: &[Fx],
    place: usize,
    signs: u8,
    dir: u8,
) -> Result<(), AllocError>
    requires few { n ≤ 256 }
    requires values { length values.now ≡ (n + 1) * (n + 1) }
    requires place { place < n * n }
    requires some { 1 ≤ dir }
    requires direction { dir ≤ 3 }
    requires parted { All (IsParted n values.now)
        (map (edge_from (cell_at n place)) (mixed_directions signs)) }
    ensures { OnOk result (vertices.new.items ≡ vertices.old.items
        ++ map (vertex_by n values.now) (map (edge_from (cell_at n place)) (if_mixed signs dir))) }
{
    if is_mixed(signs, dir) {
        vertices.push(vertex(n, values, place, dir))?;
    }
    Ok(())
}

// The vertex on the edge in a direction from the lowest corner of a cell.
#[inline]
fn vertex(n: usize, values: &[Fx], place: usize, dir: u8) -> PlaneVertex
    requires few { n ≤ 256 }
    requires values { length values.now ≡ (n + 1) * (n + 1) }
    requires place { place < n * n }
    requires direction { dir ≤ 3 }
    requires parted { IsParted n values.now (edge_from (cell_at n place) dir) }
    ensures { result ≡ vertex_by n values.now (edge_from (cell_at n place) dir) }
{
    let (x, y) = (place % n, place / n);
    let (along_x, along_y) = (usize::from(dir % 2), usize::from(dir / 2 % 2));
    let low = values[y * (n + 1) + x];
    let high = values[(y + along_y) * (n + 1) + (x + along_x)];
    PlaneVertex {
        x: x as u16,
        y: y as u16,
        dir,
        t: way_up(low, high),
    }
}

// How far from its lower point an edge is cut, by the values of the lower and of the upper point.
#[inline]
fn way_up(low: Fx, high: Fx) -> u32
    requires { differ (is_inside_of low) (is_inside_of high) ≡ true }
    ensures value { result ≡ way_up_of low high }
    ensures least { 1 ≤ result }
    ensures most { result ≤ 65535 }
{
    if is_inside(low) {
        cut(low, high)
    } else {
        65536 - cut(high, low)
    }
}
