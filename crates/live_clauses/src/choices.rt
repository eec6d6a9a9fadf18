// Choices of the steps of a list.
ghost use Rattle.std.specs.Prelude.{◌≡◌, ◌<◌, ℕ, List, length, replicate};
ghost use Rattle.interval_ops.specs.declared.choice.Choice.{Choice};
ghost use Rattle.interval_ops.specs.declared.choice.Choice.TheVariants.{Both};
ghost use Rattle.live_clauses.specs.Choices.{choice_at, choice_in, lane};

use crate::ChoiceRow;
use interval_ops::Choice;

/// Choices of the steps of a list, wherever they stand.
pub trait Choices: Copy {
    /// The choice of each step, in the order of the steps.
    ghost list: { Self → List Choice };

    /// The choice of the step at a place.
    fn at(self, place: usize) -> Choice
        requires { place < length (list self) }
        ensures { result ≡ choice_at (list self) place };
}

/// Choices in a row.
impl<'a> Choices for &'a [Choice] {
    ghost list = { λ choices. choices.now };

    #[inline]
    fn at(self, place: usize) -> Choice {
        self[place]
    }
}

// Both operands of each of so many steps: no choice is made.
#[derive(Clone, Copy, Debug)]
pub(crate) struct NoChoice {
    pub(crate) steps: usize,
}

impl Choices for NoChoice {
    ghost list = { λ choices. replicate choices.steps Both };

    #[inline]
    fn at(self, _place: usize) -> Choice {
        Choice::Both
    }
}

/// One lane of some rows of choices: of each row the choice that stands in it.
#[derive(Clone, Copy, Debug)]
pub struct Lane<'a> {
    /// A row for each step, in the order of the steps.
    pub rows: &'a [ChoiceRow],
    /// The place of the choices in each row.
    pub lane: usize,
    ghost within: { lane < 4 },
}

impl<'a> Choices for Lane<'a> {
    ghost list = { λ choices. lane choices.lane choices.rows.now };

    #[inline]
    fn at(self, place: usize) -> Choice {
        in_lane(self.rows, place, self.lane)
    }
}

// What stands in a lane of the row at a place.
#[inline]
fn in_lane(rows: &[ChoiceRow], place: usize, l: usize) -> Choice
    requires place { place < length rows.now }
    requires lane { l < 4 }
    ensures { result ≡ choice_at (lane l rows.now) place }
{
    rows[place].choice(l)
}

/// Choices of the steps of a list in eight lanes, wherever they stand.
pub trait ChoiceRows: Copy {
    /// The choice of each step in a lane, in the order of the steps.
    ghost lanes: { Self → ℕ → List Choice };

    /// What the step at a place chooses in each lane.
    fn row(self, place: usize) -> ChoiceRow
        requires { (l : ℕ) → l < 8 → place < length (lanes self l) }
        ensures { (l : ℕ) → l < 8 → choice_in result l ≡ choice_at (lanes self l) place };
}

impl<'a> ChoiceRows for &'a [ChoiceRow] {
    ghost lanes = { λ rows l. lane l rows.now };

    #[inline]
    fn row(self, place: usize) -> ChoiceRow {
        row_at(self, place)
    }
}

// The row at a place.
#[inline]
fn row_at(rows: &[ChoiceRow], place: usize) -> ChoiceRow
    requires { place < length rows.now }
    ensures { (l : ℕ) → choice_in result l ≡ choice_at (lane l rows.now) place }
{
    rows[place]
}

// The same choices in each lane.
#[derive(Clone, Copy, Debug)]
pub(crate) struct EachLane<C> {
    pub(crate) choices: C,
}

impl<C: Choices> ChoiceRows for EachLane<C> {
    ghost lanes = { λ each l. C.list each.choices };

    #[inline]
    fn row(self, place: usize) -> ChoiceRow {
        ChoiceRow::all(self.choices.at(place))
    }
}
