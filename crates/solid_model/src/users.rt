// First users of numbers: found, and kept.
ghost use Rattle.std.specs.Prelude.{◌≡◌, ℕ, ◌⊎◌, ◌<◌, ◌≤◌, length, slice_get, slice_index_or, Some, IfNone, IfSome};
ghost use Rattle.solid_model.specs.Tables.{AreUnread, IsReader};

use crate::row::Row;

// The first user of a number that is kept, or 0 where none is: the clause at place 0 has no
// operand.
#[inline]
pub(crate) fn kept_user(users: &Vec<u16>, number: u16) -> u16
    ensures { result ≡ slice_index_or users.now.items number 0 }
{
    match users.get(number as usize) {
        Some(user) => *user,
        None => 0,
    }
}

// Keeps the first user of a number, unless memory is refused. The list reaches as far as the
// numbers with a user that is kept.
pub(crate) fn keep_user(users: &mut Vec<u16>, number: u16, user: u16)
    ensures { (n : ℕ) → (slice_index_or users.new.items n 0 ≡ slice_index_or users.old.items n 0)
        ⊎ ((n ≡ number) × (slice_index_or users.new.items n 0 ≡ user)) }
{
    let number = number as usize;
    if users.len() <= number && users.resize(number + 1, 0).is_err() {
        return;
    }
    users[number] = user;
}

// The place of the first of the numbers from a place up to another whose row has a number as an
// operand.
pub(crate) fn first_reader(
    numbers: &Vec<u16>,
    rows: &Vec<Row>,
    number: u16,
    first: usize,
    end: usize,
) -> Option<usize>
    requires end { end ≤ length numbers.now.items }
    requires rows { (place user : ℕ) → slice_get numbers.now.items place ≡ Some user
        → user < length rows.now.items }
    ensures none { IfNone result (AreUnread numbers.now.items rows.now.items number first end) }
    ensures some { IfSome result (λ place. IsReader numbers.now.items rows.now.items number place
        × (first ≤ place) × (place < end)
        × AreUnread numbers.now.items rows.now.items number first place) }
{
    for place in first..end {
        if rows[numbers[place] as usize].reads(number) {
            return Some(place);
        }
    }
    None
}
