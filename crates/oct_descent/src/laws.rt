// What always holds of grids of lists and of the work that their cells take.
ghost use Rattle.oct_descent.specs.AfterLaws.{BoxesAfterAddUp, MeshesAfterAddUp};
ghost use Rattle.oct_descent.specs.GridLaws.{GridsHold};
ghost use Rattle.oct_descent.specs.NewBoxes.{MeshBoxesAreCountedOnce, NewBoxesAreCountedOnce, OldBoxesAreASet};
ghost use Rattle.oct_descent.specs.Laws.{GridsAreBordered, LayersHaveTheCells, LongMeshSpansAddUp, MeshPointsAreBounded, MeshSpansAddUp, MeshSpansAreBounded, ReachedBoxesAreCountedOnce, WaysGoOn};

/// No point of the outermost layer of a list's grid is inside.
pub fn grids_are_bordered()
    ensures { GridsAreBordered }
{}

/// What holds of every grid whose cells are looked into by boxes, be it that of a mesh or a plane one: how
/// what is known of its points grows, what its boxes and their halves take, and what the box of all cells
/// leaves. A kind of grid has to show for it how its border lies.
#[inline]
pub fn grids_hold()
    ensures { GridsHold }
{}

/// The points of a grid take no more evaluations than the list has steps, at each of them, and no
/// more steps are traced than the list has, for each cell and each side of the boxes that hold it.
/// So neither count stands still at its last value.
pub fn grid_work_is_bounded()
    ensures points { MeshPointsAreBounded }
    ensures spans { MeshSpansAreBounded }
{}

/// The way to a cell goes on from a box that is split into the half that holds the cell, and ends at
/// any other box.
pub fn ways_go_on()
    ensures { WaysGoOn }
{}

/// The steps that are traced over a box of cells are those of its own list and, where it is split,
/// those of its halves. The same holds of those that are traced over boxes of more than one cell.
pub fn mesh_spans_add_up()
    ensures spans { MeshSpansAddUp }
    ensures long { LongMeshSpansAddUp }
{}

/// The steps that are traced are those of the lists that the different boxes on the ways to the
/// cells receive: each box is counted once.
pub fn reached_boxes_are_counted_once()
    ensures { ReachedBoxesAreCountedOnce }
{}

/// The mixed cells of a list's grid are those of its layers, one after the other.
pub fn layers_have_the_cells()
    ensures { LayersHaveTheCells }
{}

/// How the work of a mesh adds up that comes after another mesh of the same cells: nothing is taken
/// where a box received an equal list in that mesh, and the work of any other box is its own and that
/// of its halves.
pub fn meshes_after_add_up()
    ensures boxes { BoxesAfterAddUp }
    ensures meshes { MeshesAfterAddUp }
{}

/// The boxes of a mesh that comes after another of the same cells. Whether a box is old does not depend on
/// the cell by whose way it is reached: it is where it was on the way to any cell in the mesh before, with
/// an equal list. Each other box is traced once at most, and once where it has more than one cell, and no
/// other working cell takes evaluations.
pub fn new_boxes_are_counted_once()
    ensures old { OldBoxesAreASet }
    ensures new { NewBoxesAreCountedOnce }
    ensures meshes { MeshBoxesAreCountedOnce }
{}
