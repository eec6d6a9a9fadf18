// What always holds of plane grids and of the work that their cells take.
ghost use Rattle.contour_lines.specs.Laws.{BordersAreOutside, ContourPointsAreBounded, ContourSpansAreBounded, FlatRootsAreLow};
ghost use Rattle.contour_lines.specs.Laws.{FlatViewsArePlanes, FlatViewsAreViews, PlanesAreBordered};

/// A view whose ends of z are both its height, with one cell between them, has exactly the points of the
/// plane grid at that height, and the box of its cells is one cell high.
pub fn flat_view()
    ensures points { FlatViewsArePlanes }
    ensures window { FlatViewsAreViews }
    ensures root { FlatRootsAreLow }
{}

/// No point of the border of a plane grid is inside, whatever the values of its places are.
pub fn borders_are_outside()
    ensures points { BordersAreOutside }
    ensures planes { PlanesAreBordered }
{}

/// The points of a plane grid take no more evaluations than the list has steps, at each of them, and no
/// more steps are traced than the list has, for each cell and each side of the boxes that hold it.
pub fn contour_work_is_bounded()
    ensures points { ContourPointsAreBounded }
    ensures spans { ContourSpansAreBounded }
{}
