// What always holds of the work of frames, and of the contours of models.
ghost use Rattle.model_frames.specs.ClosedTexts.{ContourTextsAreClosed};
ghost use Rattle.model_frames.specs.Laws.{FramesAddUp};

/// The work of two frames is that of one after the other: exactly, at most, and in plain evaluations.
#[inline]
pub fn frames_add_up()
    ensures { FramesAddUp }
{}

/// The paths of the contour of each solid are closed loops, over each view of which a contour may be
/// drawn: of the segments, none of which is listed twice, exactly one leaves each vertex and exactly one
/// arrives there, each vertex stands on one loop, once, and every loop has at least three.
pub fn contour_texts_are_closed()
    ensures { ContourTextsAreClosed }
{}
