// What always holds of the definitions that the contracts cite.
ghost use Rattle.kuhn_cells.specs.Laws.{ArrangementsArePositive, ComparesKeys, SignsAreDeterminants};
ghost use Rattle.kuhn_cells.specs.Laws.{CellsAreFew, CellsAreOfTheGrid, CellsRise};
ghost use Rattle.kuhn_cells.specs.Laws.{CellsHaveTriangles, CellsHaveVertices, EdgesHaveCells};
ghost use Rattle.kuhn_cells.specs.Laws.{EdgesAreMixed, EdgesHaveDirections};
ghost use Rattle.kuhn_cells.specs.Laws.{NumbersArePlaces, TrianglesHaveVertices};
ghost use Rattle.kuhn_cells.specs.Laws.{VerticesAreMixedEdges, VerticesRise};

use crate::EdgeKey;

/// The sign of a tetrahedron, which is that of its order of the axes, is the sign of the
/// determinant of the ways from its corner v0 to v1, v2 and v3.
pub fn signs_are_determinants()
    ensures { SignsAreDeterminants }
{}

/// However the corners of a tetrahedron lie, those that are arranged as a, b, c and d turn one way:
/// the determinant of the ways from a to b, c and d is positive.
pub fn arrangements_are_positive()
    ensures { ArrangementsArePositive }
{}

/// Each edge of each triangle has a direction, and exactly one of its ends is inside.
pub fn edges_part_the_corners()
    ensures directions { EdgesHaveDirections }
    ensures mixed { EdgesAreMixed }
{}

/// The vertices of a grid are all its edges with exactly one inside end, and nothing else, in the
/// order of their keys, none twice.
pub fn vertices_are_mixed_edges()
    ensures edges { VerticesAreMixedEdges }
    ensures order { VerticesRise }
{}

/// Each edge of each triangle of a grid is a vertex, and the number of a vertex is the place at
/// which it stands.
pub fn triangles_have_vertices()
    ensures triangles { TrianglesHaveVertices }
    ensures numbers { NumbersArePlaces }
{}

/// Keys are compared by z, then by y, then by x of the lower point, and then by direction: of two
/// that are not equal one is less and the other greater.
pub fn keys_are_ordered()
    ensures { ComparesKeys ⟦<EdgeKey as Ord>⟧.cmp }
{}

/// The mixed cells of a grid, which stand in the order of their places, have all of its triangles.
/// Where its outermost layer is outside, the edges from their lowest corners are all of its
/// vertices, and each edge of each of their triangles is among these.
pub fn mixed_cells_suffice()
    ensures cells { CellsAreOfTheGrid }
    ensures order { CellsRise }
    ensures few { CellsAreFew }
    ensures vertices { CellsHaveVertices }
    ensures triangles { CellsHaveTriangles }
    ensures edges { EdgesHaveCells }
{}
