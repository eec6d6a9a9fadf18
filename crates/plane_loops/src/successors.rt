// The successors of the vertices of a contour.
ghost use Rattle.std.specs.Prelude.{◌≡◌, ◌+◌, ◌*◌, ◌<◌, ◌≤◌, All, IfOk, length, map};
ghost use Rattle.plane_loops.specs.Following.{edge_of, next_by, number_by};
ghost use Rattle.plane_loops.specs.Steps.{HasNext, IsInGrid, bases_of};

use crate::PlaneVertex;
use crate::left_triangle::LeftTriangle;
use crate::signs::{has_sign, rank};
use std::alloc::{AllocError, Global};

// The numbers of the vertices to which the segments run that leave some vertices. AllocError: there
// is no memory for them.
pub(crate) fn successors(
    alloc: Global,
    n: usize,
    signs: &[u8],
    bases: &[u32],
    vertices: &[PlaneVertex],
) -> Result<Vec<u32>, AllocError>
    requires few { n ≤ 256 }
    requires signs { length signs.now ≡ n * n }
    requires bases { bases.now ≡ bases_of n signs.now }
    requires small { All (λ base. base ≤ 196608) bases.now }
    requires vertices { All (λ v. HasNext n signs.now (edge_of v)) vertices.now }
    ensures { IfOk result (λ next. next.items
        ≡ map (λ v. number_by n signs.now (next_by n signs.now (edge_of v))) vertices.now) }
{
    let mut next = Vec::with_capacity(alloc, vertices.len())?;
    for v in vertices {
        next.push(successor(n, signs, bases, v))?;
    }
    Ok(next)
}

// The number of the vertex to which the segment runs that leaves a vertex: it lies between the third
// corner of the triangle to the left and that of the other two from which the third differs.
#[inline]
fn successor(n: usize, signs: &[u8], bases: &[u32], v: &PlaneVertex) -> u32
    requires few { n ≤ 256 }
    requires signs { length signs.now ≡ n * n }
    requires bases { bases.now ≡ bases_of n signs.now }
    requires small { All (λ base. base ≤ 196608) bases.now }
    requires vertex { HasNext n signs.now (edge_of v.now) }
    ensures { result ≡ number_by n signs.now (next_by n signs.now (edge_of v.now)) }
{
    let low = has_sign(signs[place_of(n, v.x, v.y)], 0);
    let left = LeftTriangle::of(v.dir, low);
    let (x, y) = (v.x - left.back_x, v.y - left.back_y);
    let third = has_sign(signs[place_of(n, x, y)], left.c);
    let other = left.other(third);
    let (from, to) = (left.c.min(other), left.c.max(other));
    number(
        n,
        signs,
        bases,
        x + u16::from(from % 2),
        y + u16::from(from / 2 % 2),
        to - from,
    )
}

// The number of the vertex on an edge.
#[inline]
fn number(n: usize, signs: &[u8], bases: &[u32], x: u16, y: u16, dir: u8) -> u32
    requires few { n ≤ 256 }
    requires signs { length signs.now ≡ n * n }
    requires bases { bases.now ≡ bases_of n signs.now }
    requires small { All (λ base. base ≤ 196608) bases.now }
    requires edge { IsInGrid n (record { x = x; y = y; dir = dir }) }
    ensures { result ≡ number_by n signs.now (record { x = x; y = y; dir = dir }) }
{
    let place = place_of(n, x, y);
    bases[place] + rank(signs[place], dir)
}

// The place of a cell in a table of the cells of a grid.
#[inline]
fn place_of(n: usize, x: u16, y: u16) -> usize
    requires few { n ≤ 256 }
    requires x { x < n }
    requires y { y < n }
    ensures place { result ≡ y * n + x }
    ensures within { result < n * n }
{
    usize::from(y) * n + usize::from(x)
}
