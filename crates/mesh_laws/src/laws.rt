// What always holds of the meshes that kuhn_cells defines. The functions compute nothing: what they
// ensure is the law.
ghost use Rattle.mesh_laws.specs.Laws.{EdgesArePaired, HaveOneCycle, PlacesAreDistinct, Separates};

/// The mesh of each grid is closed: the three vertices of a face differ, each directed edge occurs
/// in one place only, and so does the same edge in the other direction.
pub fn edges_paired()
    ensures { EdgesArePaired }
{}

/// The mesh of each grid is a manifold: the arcs that the faces of a vertex leave opposite it are
/// exactly those of one cycle through three different vertices at least.
pub fn one_cycle()
    ensures { HaveOneCycle }
{}

/// The mesh of each grid separates its inside points from the outside ones: an edge of the grid
/// holds a vertex exactly where one of its ends is inside and the other is not, and each face has
/// the inside ends of its edges behind it.
pub fn separates()
    ensures { Separates }
{}

/// Different vertices have different places on the lattice of 65536 steps a cell. Where the raw
/// places of the points of the grid rise by at least 65536 along each axis, they also have
/// different raw places and different lines.
pub fn places_distinct()
    ensures { PlacesAreDistinct }
{}
