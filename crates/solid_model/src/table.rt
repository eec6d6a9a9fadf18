// A list of clauses in which a name is found at once, and whose clauses move without their
// operands.
ghost use Rattle.std.specs.Prelude.{◌≡◌, ◌≢◌, ℕ, ◌<◌, ◌≤◌, List, [], ◌∷◌, ◌++◌, length, map, set, slice_get, slice_index_or, if◌then◌else◌, true, false, is_some, Some, None, IfErr, IfOk, IfSome, OnErr, OnOk};
ghost use Rattle.std.specs.List.{insert, position, remove};
ghost use Rattle.std.specs.Option.{unwrap_or};
ghost use Rattle.solid_model.specs.Changes.{done, surgery, Allows, PutsIn, TellsUser};
ghost use Rattle.solid_model.specs.Clauses.{place_of, AreClauses, AreInOrder};
ghost use Rattle.solid_model.specs.Edits.{IsEdit, MakesClause};
ghost use Rattle.solid_model.specs.Named.{by_name, name_at};
ghost use Rattle.solid_model.specs.Pushing.{push_fault};
ghost use Rattle.solid_model.specs.Refusals.{RefusesAs, WantsMemoryFor};
ghost use Rattle.solid_model.specs.Seen.{clause_seen, named_clause};
ghost use Rattle.solid_model.specs.declared.clause.Clause.{Clause};
ghost use Rattle.solid_model.specs.Surgery.{down, moved, reads, up};
ghost use Rattle.solid_model.specs.Tables.{clauses_in, label_of, standing_place, HasName, HasOperandsBefore, IsNumbered};

use crate::change::Change;
use crate::key::{Key, number_in};
use crate::numbers::{grow, move_number};
use crate::placed_form::PlacedForm;
use crate::refusal::Refusal;
use crate::row::Row;
use crate::users::{first_reader, keep_user, kept_user};
use crate::uses::{count_operands, uncount_operands};
use crate::{ClauseRef, EditFault, EditRef, Form, Name, PushFault};
use fixed_ops::arity;
use indexmap::IndexSet;
use std::alloc::{AllocError, Global};
use std::marker::Model;

// The most clauses that a table holds.
pub(crate) const MOST: usize = 65_535;

// At most 65,535 clauses. Each has a number, by which its operands are told, and which it keeps
// while it stands: a name and a row are found by it. The numbers stand in the order of the clauses,
// and behind them those of clauses that were taken out, which the next clauses get. For each number
// there is the count of its uses, and, once it was looked for, the place of its first user.
#[derive(Debug, Drop)]
pub(crate) struct Table {
    alloc: Global,
    count: usize,
    numbers: Vec<u16>,
    places: Vec<u16>,
    rows: Vec<Row>,
    uses: Vec<u32>,
    users: Vec<u16>,
    names: IndexSet<Key<'static>>,
}

impl Model for Table {
    ghost use Rattle.solid_model.specs.Tables.{IsKept, Kept};

    ghost Value = { Kept };

    ghost view = { λ t. record {
      order = record { numbers = t.numbers.items; places = t.places.items };
      count = t.count;
      rows = t.rows.items;
      names = t.names.keys;
    } };

    ghost invariant = { λ t. IsKept
        (record {
          order = record { numbers = t.numbers.items; places = t.places.items };
          count = t.count;
          rows = t.rows.items;
          names = t.names.keys;
        })
        t.uses.items t.users.items };
}

impl Table {
    // No clauses.
    pub(crate) fn new(alloc: Global) -> Table
        ensures { clauses_in result ≡ [] }
    {
        Table {
            alloc,
            count: 0,
            numbers: Vec::new(alloc),
            places: Vec::new(alloc),
            rows: Vec::new(alloc),
            uses: Vec::new(alloc),
            users: Vec::new(alloc),
            names: IndexSet::new(alloc),
        }
    }

    // Makes room for so many clauses more, or for as many as there may be, where memory is not
    // refused.
    pub(crate) fn make_room(&mut self, clauses: usize)
        ensures { clauses_in self.new ≡ clauses_in self.old }
    {
        let clauses = clauses.min(MOST);
        let _ = self.numbers.reserve(clauses);
        let _ = self.places.reserve(clauses);
        let _ = self.rows.reserve(clauses);
        let _ = self.uses.reserve(clauses);
        let _ = self.names.reserve(clauses);
    }

    // How many clauses there are.
    #[inline]
    pub(crate) fn len(&self) -> usize
        ensures len { result ≡ length (clauses_in self.now) }
        ensures few { length (clauses_in self.now) ≤ 65535 }
    {
        self.count
    }

    // The clause at a place.
    #[inline]
    pub(crate) fn clause(&self, at: usize) -> ClauseRef<'_>
        requires { at < length (clauses_in self.now) }
        ensures { slice_get (clauses_in self.now) at ≡ Some (clause_seen result) }
    {
        let number = self.numbers[at] as usize;
        let row = self.rows[number];
        let operands = arity(row.op);
        ClauseRef {
            name: self.names.as_slice()[number].bytes(),
            op: row.op,
            a: operand_place(&self.places, row.a, operands >= 1),
            b: operand_place(&self.places, row.b, operands >= 2),
            value: row.value,
        }
    }

    // The name of the clause at a place.
    pub(crate) fn name(&self, at: usize) -> Result<Name, AllocError>
        requires in_order { AreInOrder (clauses_in self.now) }
        requires within { at < length (clauses_in self.now) }
        ensures { IfOk result (λ name. name ≡ name_at (clauses_in self.now) at) }
    {
        let number = self.numbers[at] as usize;
        let label = self.names.as_slice()[number].share(self.alloc)?;
        Ok(Name::of(label))
    }

    // The form of the clause at a place.
    pub(crate) fn form(&self, at: usize) -> Result<Form, AllocError>
        requires in_order { AreInOrder (clauses_in self.now) }
        requires within { at < length (clauses_in self.now) }
        ensures { IfOk result (λ form. (clause : Clause) → slice_get (clauses_in self.now) at ≡ Some clause
            → form ≡ (by_name (clauses_in self.now) clause).form) }
    {
        let clause = self.clause(at);
        let operands = arity(clause.op);
        let mut args = Vec::new(self.alloc);
        if operands >= 1 {
            args.push(self.name(clause.a as usize)?)?;
        }
        if operands >= 2 {
            args.push(self.name(clause.b as usize)?)?;
        }
        Ok(Form::new(clause.op, args, clause.value))
    }

    // The place of the clause of this name. The set knows the names of clauses that were taken out
    // too; these stand behind the others.
    #[inline]
    pub(crate) fn position(&self, name: &[u8]) -> Option<u32>
        ensures place { result ≡ place_of (clauses_in self.now) name.now }
        ensures within { IfSome result (λ at. at < length (clauses_in self.now)) }
    {
        let number = number_in(&self.names, name)?;
        let place = self.places[number] as usize;
        if place < self.count {
            Some(place as u32)
        } else {
            None
        }
    }

    // Makes an edit, or leaves the clauses as they are.
    pub(crate) fn apply(&mut self, edit: &EditRef<'_>) -> Result<(), EditFault>
        requires in_order { AreInOrder (clauses_in self.old) }
        ensures ok { OnOk result (surgery (clauses_in self.old) edit.now
            ≡ Ok (clauses_in self.new)) }
        ensures fault { RefusesAs (surgery (clauses_in self.old) edit.now) EditFault.NoMemory
            result }
        ensures no_memory { WantsMemoryFor (surgery (clauses_in self.old) edit.now)
            EditFault.NoMemory result }
        ensures makes { IfErr result (λ fault. fault ≡ EditFault.NoMemory
            → MakesClause edit.now) }
        ensures err { OnErr result (clauses_in self.new ≡ clauses_in self.old) }
        ensures edit { IsEdit edit.now }
    {
        match self.change(edit) {
            Ok(change) => self.make(&change),
            Err(refusal) => {
                self.keep(&refusal);
                Err(refusal.fault())
            }
        }
    }

    // Makes a change that the clauses allow.
    pub(crate) fn make(&mut self, change: &Change<'_>) -> Result<(), EditFault>
        requires in_order { AreInOrder (clauses_in self.old) }
        requires allowed { Allows (clauses_in self.old) change.now }
        ensures ok { OnOk result (clauses_in self.new ≡ done (clauses_in self.old) change.now) }
        ensures fault { IfErr result (λ fault. fault ≡ EditFault.NoMemory) }
        ensures puts { OnErr result (PutsIn change.now) }
        ensures err { OnErr result (clauses_in self.new ≡ clauses_in self.old) }
    {
        match change {
            Change::Write(at, clause) => {
                self.write(*at as usize, &clause.form());
                Ok(())
            }
            Change::Insert(at, clause) => match self.insert(*at as usize, clause) {
                Ok(()) => Ok(()),
                Err(_) => Err(EditFault::NoMemory),
            },
            Change::Remove(at) => {
                self.remove(*at);
                Ok(())
            }
        }
    }

    // Keeps the first user that a refusal tells, until the clauses change.
    pub(crate) fn keep(&mut self, refusal: &Refusal)
        requires in_order { AreInOrder (clauses_in self.old) }
        requires told { TellsUser (clauses_in self.old) refusal.now }
        ensures { clauses_in self.new ≡ clauses_in self.old }
    {
        if let Refusal::InUse(at, user) = refusal {
            let asked = self.numbers[*at as usize];
            keep_user(&mut self.users, asked, *user as u16);
        }
    }

    // Puts a clause last.
    pub(crate) fn push(&mut self, clause: &ClauseRef<'_>) -> Result<(), PushFault>
        requires in_order { AreInOrder (clauses_in self.old) }
        requires operands { HasOperandsBefore (length (clauses_in self.old))
            (clause_seen clause.now) }
        ensures free { OnOk result (push_fault (clauses_in self.old) clause.now.name.now ≡ None) }
        ensures ok { OnOk result (clauses_in self.new
            ≡ (clauses_in self.old) ++ clause_seen clause.now ∷ []) }
        ensures fault { IfErr result (λ fault. fault ≢ PushFault.NoMemory
            → push_fault (clauses_in self.old) clause.now.name.now ≡ Some fault) }
        ensures no_memory { IfErr result (λ fault. fault ≡ PushFault.NoMemory
            → push_fault (clauses_in self.old) clause.now.name.now ≡ None) }
        ensures err { OnErr result (clauses_in self.new ≡ clauses_in self.old) }
    {
        self.insert(self.count, clause)
    }

    // Why a clause of this name does not go last: its fault, or else that memory was refused.
    pub(crate) fn refusal(&self, name: &[u8]) -> PushFault
        ensures { result
            ≡ unwrap_or (push_fault (clauses_in self.now) name.now) PushFault.NoMemory }
    {
        if self.position(name).is_some() {
            PushFault::DoubleName
        } else if self.len() >= MOST {
            PushFault::Full
        } else {
            PushFault::NoMemory
        }
    }

    // Puts a clause in at a place. Its name is hashed once. Where memory is refused, the name is
    // looked up after all, since a fault of the clause goes first.
    pub(crate) fn insert(&mut self, at: usize, clause: &ClauseRef<'_>) -> Result<(), PushFault>
        requires in_order { AreInOrder (clauses_in self.old) }
        requires within { at ≤ length (clauses_in self.old) }
        requires operands { HasOperandsBefore at (clause_seen clause.now) }
        ensures free { OnOk result (push_fault (clauses_in self.old) clause.now.name.now ≡ None) }
        ensures ok { OnOk result (clauses_in self.new
            ≡ insert (map (moved (up at)) (clauses_in self.old)) at (clause_seen clause.now)) }
        ensures fault { IfErr result (λ fault. fault ≢ PushFault.NoMemory
            → push_fault (clauses_in self.old) clause.now.name.now ≡ Some fault) }
        ensures no_memory { IfErr result (λ fault. fault ≡ PushFault.NoMemory
            → push_fault (clauses_in self.old) clause.now.name.now ≡ None) }
        ensures err { OnErr result (clauses_in self.new ≡ clauses_in self.old) }
    {
        if self.count >= MOST {
            return Err(self.refusal(clause.name));
        }
        let Ok(number) = self.number_for(clause.name) else {
            return Err(self.refusal(clause.name));
        };
        if self.stands(number) {
            return Err(PushFault::DoubleName);
        }
        self.stand(number, at, clause);
        Ok(())
    }

    // The number of a name: its own, where the set knows it, and else that of a clause that was
    // taken out, or a new one. The clauses stay as they are.
    fn number_for(&mut self, name: &[u8]) -> Result<usize, AllocError>
        requires room { self.old.count < 65535 }
        ensures named { IfOk result (λ number. HasName self.new.names name.now number) }
        ensures clauses { clauses_in self.new ≡ clauses_in self.old }
        ensures count { self.new.count ≡ self.old.count }
    {
        let key = Key::copied(self.alloc, name)?;
        let Ok((last, is_new)) = self.names.insert_full(key) else {
            return Err(AllocError);
        };
        if !is_new {
            return Ok(last);
        }
        if self.count < self.numbers.len() {
            let number = self.numbers[self.count] as usize;
            self.names.swap_remove_index(number);
            return Ok(number);
        }
        match grow(
            &mut self.numbers,
            &mut self.places,
            &mut self.rows,
            &mut self.uses,
        ) {
            Ok(()) => Ok(last),
            Err(fault) => {
                self.names.swap_remove_index(last);
                Err(fault)
            }
        }
    }

    // Whether the clause of a number stands.
    #[inline]
    fn stands(&self, number: usize) -> bool
        requires known { number < length self.now.names }
        ensures stands { result
            ≡ is_some (place_of (clauses_in self.now) (label_of self.now.names number)) }
        ensures behind { result ≡ false
            → self.now.count ≤ standing_place self.now.order number }
    {
        (self.places[number] as usize) < self.count
    }

    // Puts the clause of a number that does not stand in at a place.
    fn stand(&mut self, number: usize, at: usize, clause: &ClauseRef<'_>)
        requires in_order { AreInOrder (clauses_in self.old) }
        requires within { at ≤ length (clauses_in self.old) }
        requires operands { HasOperandsBefore at (clause_seen clause.now) }
        requires named { HasName self.old.names clause.now.name.now number }
        requires behind { self.old.count ≤ standing_place self.old.order number }
        requires room { self.old.count < 65535 }
        ensures { clauses_in self.new
            ≡ insert (map (moved (up at)) (clauses_in self.old)) at (clause_seen clause.now) }
    {
        let row = numbered(&self.numbers, &clause.form());
        count_operands(&mut self.uses, &row);
        self.rows[number] = row;
        let from = self.places[number] as usize;
        move_number(&mut self.numbers, &mut self.places, from, at);
        self.count += 1;
        self.users.clear();
    }

    // Gives the clause at a place, whose name stays, another form.
    pub(crate) fn write(&mut self, at: usize, form: &PlacedForm)
        requires named { place_of (clauses_in self.old) (name_at (clauses_in self.old) at) ≡ Some at }
        requires operands { HasOperandsBefore at
            (named_clause (name_at (clauses_in self.old) at) form.now) }
        ensures { clauses_in self.new ≡ set (clauses_in self.old) at
            (named_clause (name_at (clauses_in self.old) at) form.now) }
    {
        let number = self.numbers[at] as usize;
        let row = numbered(&self.numbers, form);
        uncount_operands(&mut self.uses, &self.rows[number]);
        count_operands(&mut self.uses, &row);
        self.rows[number] = row;
        self.users.clear();
    }

    // The place of the first clause that has the clause at a place as an operand. The clauses stay
    // as they are. Where none has it, that is known at once, and else only a later one can have it.
    // A place that was found is kept until the clauses change. So between two changes one clause is
    // looked for at most once, past at most 65,535 rows, and a further call takes constant time.
    pub(crate) fn first_user(&self, at: u32) -> Option<usize>
        requires in_order { AreInOrder (clauses_in self.now) }
        requires there { at < length (clauses_in self.now) }
        ensures place { result ≡ position (reads at) (clauses_in self.now) }
        ensures within { IfSome result (λ user. user < length (clauses_in self.now)) }
        ensures few { length (clauses_in self.now) ≤ 65535 }
    {
        let number = self.numbers[at as usize];
        if self.uses[number as usize] == 0 {
            return None;
        }
        let known = kept_user(&self.users, number) as usize;
        if known > 0 {
            return Some(known);
        }
        first_reader(
            &self.numbers,
            &self.rows,
            number,
            at as usize + 1,
            self.count,
        )
    }

    // Takes out the clause at a place, which is no operand. Its number goes behind the others.
    pub(crate) fn remove(&mut self, at: u32)
        requires in_order { AreInOrder (clauses_in self.old) }
        requires there { at < length (clauses_in self.old) }
        requires unread { position (reads at) (clauses_in self.old) ≡ None }
        ensures { clauses_in self.new
            ≡ remove (map (moved (down at)) (clauses_in self.old)) at }
    {
        let number = self.numbers[at as usize] as usize;
        uncount_operands(&mut self.uses, &self.rows[number]);
        move_number(
            &mut self.numbers,
            &mut self.places,
            at as usize,
            self.count - 1,
        );
        self.count -= 1;
        self.users.clear();
    }
}

// The place of an operand, or 0 where it is not there.
#[inline]
fn operand_place(places: &Vec<u16>, number: u16, there: bool) -> u32
    requires { there ≡ true → number < length places.now.items }
    ensures { result ≡ (if there then slice_index_or places.now.items number 0 else 0) }
{
    if there {
        u32::from(places[number as usize])
    } else {
        0
    }
}

// What a clause says, its operands by their numbers.
fn numbered(numbers: &Vec<u16>, form: &PlacedForm) -> Row
    requires { (name : List ℕ)
        × HasOperandsBefore (length numbers.now.items) (named_clause name form.now) }
    ensures { (name : List ℕ) → IsNumbered numbers.now.items (named_clause name form.now) result }
{
    let operands = arity(form.op);
    Row {
        op: form.op,
        a: if operands >= 1 {
            numbers[form.a as usize]
        } else {
            0
        },
        b: if operands >= 2 {
            numbers[form.b as usize]
        } else {
            0
        },
        value: form.value,
    }
}
