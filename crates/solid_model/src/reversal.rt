// What takes a change of clauses back.

use crate::Name;
use crate::placed_form::PlacedForm;

// What takes a change back, by the places of the clauses after the change.
#[derive(Debug, Drop)]
pub(crate) enum Reversal {
    // The clause at this place gets this form again.
    Write(u32, PlacedForm),
    // The clause of this name and form is put in again at this place.
    Insert(u32, Name, PlacedForm),
    // The clause at this place is taken out again.
    Remove(u32),
}
