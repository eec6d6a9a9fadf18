// What an edit does, by places.

use crate::ClauseRef;

// A change to a list of clauses. The name that it speaks of is lent by its edit.
#[derive(Clone, Copy, Debug)]
pub(crate) enum Change<'e> {
    // The clause at this place, whose name stays, says what this one says.
    Write(u32, ClauseRef<'e>),
    // This clause is put in at this place.
    Insert(u32, ClauseRef<'e>),
    // The clause at this place is taken out.
    Remove(u32),
}
