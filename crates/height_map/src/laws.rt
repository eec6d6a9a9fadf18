// What always holds of the work that height maps take.
ghost use Rattle.height_map.specs.Laws.{HeightPointsAreBounded, HeightSpansAreBounded};

use box_chains::{tested_work_adds_up, work_adds_up};

/// A height map takes no more evaluations than evaluating the list at each sample, and no more steps
/// are traced than the list has, for each sample and each side of the boxes that hold it. So
/// neither count stands still at its last value.
pub fn height_work_is_bounded()
    ensures points { HeightPointsAreBounded }
    ensures spans { HeightSpansAreBounded }
{
    tested_work_adds_up();
    work_adds_up();
}
