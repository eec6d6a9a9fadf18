// What always holds of the definitions that the contracts cite. The functions compute nothing: what
// they ensure is the law.
ghost use Rattle.plane_loops.specs.Closed.{ContoursAreClosed};
ghost use Rattle.plane_loops.specs.Sides.{InsideIsLeft};
ghost use Rattle.plane_loops.specs.Laws.{ContoursAreWorkedOut, LoopsAreLong, OneContour, OneSegmentEachWay, SegmentsAreDistinct, SegmentsJoinVertices};

/// Each plane grid whose border is outside has exactly one contour: exactly one list of loops along
/// its segments has each vertex on one loop, once, where each loop starts at its lowest vertex and the
/// starts rise. It is the one that is worked out from which corners of each cell are inside.
pub fn one_contour()
    ensures one { OneContour }
    ensures worked_out { ContoursAreWorkedOut }
{}

/// The segments of such a grid run from vertices to vertices, and none of them is listed twice. Exactly
/// one of them leaves each vertex, and exactly one arrives there.
pub fn one_segment_each_way()
    ensures vertices { SegmentsJoinVertices }
    ensures distinct { SegmentsAreDistinct }
    ensures once { OneSegmentEachWay }
{}

/// Every loop of a contour has at least three vertices.
pub fn loops_are_long()
    ensures { LoopsAreLong }
{}

/// Each contour of such a grid is closed: its loops run along the segments, each vertex on one loop, once,
/// every loop has at least three, and of the segments, none of which is listed twice, exactly one leaves
/// each vertex and exactly one arrives there.
pub fn contours_are_closed()
    ensures { ContoursAreClosed }
{}

/// The inside ends of the two edges between which a segment runs lie on its left, on the lattice of
/// 65536 steps a cell.
pub fn inside_is_left()
    ensures { InsideIsLeft }
{}
