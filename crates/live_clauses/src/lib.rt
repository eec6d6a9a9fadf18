//! Lists of steps: the part of a solid that is live somewhere, without names.
#![tactic(auto)]

mod block;
mod choice_row;
mod choices;
mod copying;
mod equality;
mod laws;
mod lists;
mod marked;
mod marking;
mod owned;
mod packed_step;
mod part;
mod roots;
mod shortening;
mod step;
mod tape;

pub use choice_row::{ChoiceRow, is_set, with_bit};
pub use choices::{ChoiceRows, Choices, Lane};
pub use laws::{
    choices_keep_the_value, lists_are_told_apart, live_lists_are_whole, live_lists_keep_meanings,
    live_steps_are_the_least, root_has_the_value, values_are_of_operands, values_have_slopes,
};
pub use lists::Lists;
pub use marking::{mark_lanes, mark_rows};
pub use roots::{RootRoom, root_tape};
pub use shortening::prune;
pub use step::Step;
pub use tape::{Steps, Tape, same};
