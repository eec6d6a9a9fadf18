// What always holds of chains of boxes and of the work that boxes take.
ghost use Rattle.box_chains.specs.NewBoxes.{NewBoxesAreCountedOnce, OldBoxesAreASet};
ghost use Rattle.box_chains.specs.Laws.{BoxesAreCountedOnce, ChainsGoOn, Lawful, PointsAddUp, PointsAreBounded, RedrawnWorkAddsUp, SamplesAreTold, SpansAddUp, SpansAreBounded, TestedWorkAddsUp};

use choice_trace::traces_are_right;
use fixed_ops::tallies_add_up;
use live_clauses::{choices_keep_the_value, lists_are_told_apart, live_steps_are_the_least};
use view_places::{halves_part, ranges_hold};

/// What the layers below promise of tallies, boxes, lists and points, and what follows from it of
/// boxes and their halves, of chains and of work, in one place.
#[inline]
pub fn layers_hold()
    ensures { Lawful }
{
    tallies_add_up();
    halves_part();
    ranges_hold();
    live_steps_are_the_least();
    lists_are_told_apart();
    choices_keep_the_value();
    traces_are_right();
}

/// The way to a sample goes on from a box that is split into the half that holds the sample, and
/// ends at any other box.
pub fn chains_go_on()
    ensures { ChainsGoOn }
{
    layers_hold();
}

/// The work of a box that is split is that of its halves, and the steps of its own list are traced
/// once. A box takes no more evaluations than its list has steps, at each of its samples, and no more
/// steps are traced over it than that for each of the sides of the boxes that hold a sample.
pub fn work_adds_up()
    ensures points { PointsAddUp }
    ensures spans { SpansAddUp }
    ensures points_bounded { PointsAreBounded }
    ensures spans_bounded { SpansAreBounded }
{
    layers_hold();
}

/// The work of those samples of a box that pass a test, where the box is split, is that of those
/// samples of its halves.
pub fn tested_work_adds_up()
    ensures { TestedWorkAddsUp }
{
    layers_hold();
}

/// The work of a frame that comes after another of the same samples: nothing from a box on that
/// received an equal list in the frame before, and else the trace of the box and the work of its halves
/// or of its samples; never more than that of a frame that comes first.
pub fn redrawn_work_adds_up()
    ensures { RedrawnWorkAddsUp }
{
    layers_hold();
}

/// The last box on the way to a sample tells whether the sample is inside: its decision is right,
/// or the list that it hands on has the sample's value.
pub fn samples_are_told()
    ensures { SamplesAreTold }
{
    layers_hold();
}

/// The steps that are traced are those of the lists that the different boxes on the ways to the
/// samples receive: each box is counted once.
pub fn boxes_are_counted_once()
    ensures { BoxesAreCountedOnce }
{
    halves_part();
}

/// The boxes of a frame that comes after another of the same samples. Whether a box is old does not depend
/// on the sample by whose way it is reached: it is where it was on the way to any sample in the frame
/// before, with an equal list. Each other box is counted once: its trace, and where it is not split the
/// evaluations of its samples.
pub fn new_boxes_are_counted_once()
    ensures old { OldBoxesAreASet }
    ensures new { NewBoxesAreCountedOnce }
{
    lists_are_told_apart();
    halves_part();
}
