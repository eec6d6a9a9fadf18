// Numbers in an order, in which each is found at once.
ghost use Rattle.std.specs.Prelude.{◌≡◌, ◌<◌, ◌≤◌, ◌+◌, [], ◌∷◌, ◌++◌, length, OnErr, OnOk};
ghost use Rattle.indexmap.specs.IndexMap.{move_index};
ghost use Rattle.solid_model.specs.Moves.{AreDistinct, AreNoted, AreNotedBut};
ghost use Rattle.solid_model.specs.Tables.{no_row, ArePlaces};

use crate::row::Row;
use std::alloc::AllocError;

// Makes one number more, which stands behind all others, and whose row says nothing. After an `Err`
// all is as it was.
pub(crate) fn grow(
    numbers: &mut Vec<u16>,
    places: &mut Vec<u16>,
    rows: &mut Vec<Row>,
    uses: &mut Vec<u32>,
) -> Result<(), AllocError>
    requires few { length numbers.old.items < 65535 }
    ensures numbers { OnOk result (numbers.new.items
        ≡ numbers.old.items ++ length numbers.old.items ∷ []) }
    ensures places { OnOk result (places.new.items
        ≡ places.old.items ++ length numbers.old.items ∷ []) }
    ensures rows { OnOk result (rows.new.items ≡ rows.old.items ++ no_row ∷ []) }
    ensures uses { OnOk result (uses.new.items ≡ uses.old.items ++ 0 ∷ []) }
    ensures err { OnErr result ((numbers.new.items ≡ numbers.old.items)
        × (places.new.items ≡ places.old.items) × (rows.new.items ≡ rows.old.items)
        × (uses.new.items ≡ uses.old.items)) }
{
    numbers.reserve(1)?;
    places.reserve(1)?;
    rows.reserve(1)?;
    uses.reserve(1)?;
    let number = numbers.len() as u16;
    numbers.push(number).unwrap();
    places.push(number).unwrap();
    rows.push(Row::empty()).unwrap();
    uses.push(0).unwrap();
    Ok(())
}

// Moves the number at a place to another, and shifts those in between by one. A number that stands
// there already, as that of a clause that goes last, is left alone.
pub(crate) fn move_number(numbers: &mut Vec<u16>, places: &mut Vec<u16>, from: usize, to: usize)
    requires are { ArePlaces (record { numbers = numbers.old.items; places = places.old.items }) }
    requires from { from < length numbers.old.items }
    requires to { to < length numbers.old.items }
    ensures are { ArePlaces (record { numbers = numbers.new.items; places = places.new.items }) }
    ensures moved { numbers.new.items ≡ move_index numbers.old.items from to }
{
    if from == to {
        return;
    }
    let number = numbers.remove(from);
    numbers.insert(to, number).unwrap();
    let order = numbers.as_slice();
    if from < to {
        note_places(order, places.as_mut_slice(), from, to);
    } else {
        note_places(order, places.as_mut_slice(), to, from);
    }
}

// Notes where the numbers from a place to another stand. It takes slices: where the lists lie in
// memory is then read once, and not again after each write.
fn note_places(numbers: &[u16], places: &mut [u16], first: usize, last: usize)
    requires few { length numbers.now ≤ 65535 }
    requires distinct { AreDistinct numbers.now }
    requires as_many { length places.old ≡ length numbers.now }
    requires within { last < length numbers.now }
    requires outside { AreNotedBut first (last + 1) numbers.now places.old }
    ensures noted { AreNoted numbers.now places.new }
    ensures length { length places.new ≡ length numbers.now }
{
    for place in first..last + 1 {
        let number = numbers[place] as usize;
        places[number] = place as u16;
    }
}
