// What one step chooses over several boxes.
ghost use Rattle.std.specs.Prelude.{◌≡◌, ◌≢◌, ℕ, ◌<◌, not, ◌||◌, true, false, if◌then◌else◌};
ghost use Rattle.interval_ops.specs.declared.choice.Choice.TheVariants.{Left, Right, Both};
ghost use Rattle.live_clauses.specs.Choices.{choice_in, has_bit};
ghost use Rattle.live_clauses.specs.Live.{chosen};

use interval_ops::Choice;

/// What one step chooses in each of up to eight lanes, as over boxes that are traced at once.
#[derive(Clone, Copy, Debug)]
pub struct ChoiceRow {
    // A bit for each lane in which it chooses its left operand, and for each in which its right one.
    // Where both are set it is the left one.
    left: u8,
    right: u8,
}

impl ChoiceRow {
    /// Both operands in each lane: no choice is made.
    #[inline]
    pub fn both() -> ChoiceRow
        ensures { (lane : ℕ) → choice_in result lane ≡ Both }
    {
        ChoiceRow { left: 0, right: 0 }
    }

    /// The left operand in each lane that `left` has a bit for, and the right one in the others.
    #[inline(always)]
    pub fn either(left: u8) -> ChoiceRow
        ensures { (lane : ℕ) → lane < 8
            → choice_in result lane ≡ (if has_bit left lane then Left else Right) }
    {
        ChoiceRow {
            left,
            right: others(left),
        }
    }

    /// The same choice in each lane.
    #[inline]
    pub fn all(choice: Choice) -> ChoiceRow
        ensures { (lane : ℕ) → lane < 8 → choice_in result lane ≡ choice }
    {
        match choice {
            Choice::Left => ChoiceRow {
                left: u8::MAX,
                right: 0,
            },
            Choice::Right => ChoiceRow {
                left: 0,
                right: u8::MAX,
            },
            Choice::Both => ChoiceRow::both(),
        }
    }

    /// The choice in a lane.
    #[inline]
    pub fn choice(self, lane: usize) -> Choice
        requires { lane < 8 }
        ensures { result ≡ choice_in self lane }
    {
        // Most steps choose no operand in any lane.
        if self.left | self.right == 0 {
            Choice::Both
        } else if is_set(self.left, lane) {
            Choice::Left
        } else if is_set(self.right, lane) {
            Choice::Right
        } else {
            Choice::Both
        }
    }

    /// The row with a choice in a lane in which none is made yet.
    #[inline]
    pub fn with(self, lane: usize, choice: Choice) -> ChoiceRow
        requires lane { lane < 8 }
        requires none { choice_in self lane ≡ Both }
        ensures here { choice_in result lane ≡ choice }
        ensures others { (other : ℕ) → other ≢ lane
            → choice_in result other ≡ choice_in self other }
    {
        let (left, right) = match choice {
            Choice::Left => (true, false),
            Choice::Right => (false, true),
            Choice::Both => (false, false),
        };
        ChoiceRow {
            left: with_bit(self.left, lane, left),
            right: with_bit(self.right, lane, right),
        }
    }

    // The lanes in which the step needs its first operand, where it has one or has none.
    #[inline(always)]
    pub(crate) fn first(self, has: bool) -> u8
        ensures { (lane : ℕ) → lane < 8
            → has_bit result lane ≡ chosen (choice_in self lane) true false has }
    {
        if has {
            self.left | others(self.right)
        } else {
            self.left
        }
    }

    // The lanes in which it needs its second one.
    #[inline(always)]
    pub(crate) fn second(self, has: bool) -> u8
        ensures { (lane : ℕ) → lane < 8
            → has_bit result lane ≡ chosen (choice_in self lane) false true has }
    {
        if has {
            others(self.left)
        } else {
            self.right & others(self.left)
        }
    }
}

// The lanes whose bits are not set.
#[inline(always)]
fn others(lanes: u8) -> u8
    ensures { (lane : ℕ) → lane < 8 → has_bit result lane ≡ not (has_bit lanes lane) }
{
    !lanes
}

/// Whether the bit of a lane is set.
#[inline(always)]
pub fn is_set(byte: u8, lane: usize) -> bool
    requires { lane < 8 }
    ensures { result ≡ has_bit byte lane }
{
    (byte >> lane) % 2 == 1
}

/// A byte with the bit of a lane set too, where this is asked.
#[inline(always)]
pub fn with_bit(byte: u8, lane: usize, asked: bool) -> u8
    requires { lane < 8 }
    ensures here { has_bit result lane ≡ (has_bit byte lane || asked) }
    ensures others { (other : ℕ) → other ≢ lane → has_bit result other ≡ has_bit byte other }
{
    byte | (lowest_if(asked) << lane)
}

// The lowest bit where this is asked, or else none.
#[inline(always)]
fn lowest_if(asked: bool) -> u8
    ensures { result ≡ (if asked then 1 else 0) }
{
    u8::from(asked)
}
