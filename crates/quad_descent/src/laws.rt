// What always holds of the work that images take.
ghost use Rattle.quad_descent.specs.Laws.{FrameWorkIsBounded, FreshPointsAreBounded, FreshSpansAreBounded, NewBoxesAreCountedOnce};

use box_chains::{new_boxes_are_counted_once, redrawn_work_adds_up, work_adds_up};

/// A fresh image takes no more evaluations than evaluating the list at each sample, and no more steps
/// are traced than the list has, for each sample and each side of the boxes that hold it. So
/// neither count stands still at its last value.
pub fn fresh_work_is_bounded()
    ensures points { FreshPointsAreBounded }
    ensures spans { FreshSpansAreBounded }
{
    work_adds_up();
}

/// An image that is drawn after another takes no more than a fresh one, and nothing after one of an
/// equal list.
pub fn frame_work_is_bounded()
    ensures { FrameWorkIsBounded }
{
    redrawn_work_adds_up();
}

/// What an image that is drawn after another takes is what those boxes take that the image before did not
/// have with an equal list, each of them once: `frame_spans` are the lengths of the lists that they
/// receive, and `frame_points` the evaluations of the samples of those that are not split.
pub fn frame_boxes_are_counted_once()
    ensures { NewBoxesAreCountedOnce }
{
    new_boxes_are_counted_once();
}
