// What always holds of paths. The functions compute nothing: what they ensure is the law.
ghost use Rattle.path_writer.specs.Apart.{ContoursLieApart};
ghost use Rattle.path_writer.specs.Laws.{ContoursHavePaths};

/// Each contour of a plane grid can be written over a view of as many cells, and its paths run along
/// its loops. This is a law: nothing is done.
pub fn contours_have_paths()
    ensures { ContoursHavePaths }
{}

/// No two vertices of a contour have one place on the lattice of 65536 steps a cell. Over a view of
/// which a contour may be drawn they have no one raw place either, and the number texts of x and y of
/// the one are not both those of the other.
pub fn contours_lie_apart()
    ensures { ContoursLieApart }
{}
