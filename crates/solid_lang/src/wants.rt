// What is wanted of the tokens of a text that are left.
ghost use Rattle.std.specs.Prelude.{◌≡◌, ◌==◌, ◌<◌, ◌≤◌, [], ◌∷◌, ◌++◌, length, Ok, Err, IfErr, IfOk, IfSome, OnOk, MatchOption};
ghost use Rattle.solid_lang.specs.Added.{added, clauses_of};
ghost use Rattle.solid_lang.specs.Forms.{form_named};
ghost use Rattle.solid_lang.specs.Room.{FitsBefore};
ghost use Rattle.solid_lang.specs.Wants.{in_front, numeral_wants, size_wants, take_token, token_wants, wants_of, whole_solid};
ghost use Rattle.solid_lang.specs.declared.want.Want.TheVariants.{Whole};
ghost use Rattle.fixed_ops.specs.Numerals.{numeral};

use crate::SolidReason;
use crate::form::{DEEPEST, Form, read_form};
use crate::want::Want;
use arrayvec::ArrayVec;
use fixed_ops::read_raw;
use std::marker::Model;

// At most so many are wanted at once: a solid within each of 256 forms, and the three numbers and
// the solid of one more.
const MOST: usize = 260;

/// What is wanted, the next first.
#[derive(Debug, Drop)]
pub(crate) struct Wants {
    stack: ArrayVec<Want, MOST>,
}

impl Model for Wants {
    ghost use Rattle.std.specs.Prelude.{List, reverse};
    ghost use Rattle.solid_lang.specs.declared.want.Want.{Want};
    ghost use Rattle.solid_lang.specs.Room.{HaveRoom};

    ghost Value = { List Want };

    ghost view = { λ w. reverse w.stack.items };

    ghost invariant = { λ w. HaveRoom (reverse w.stack.items) };
}

impl Wants {
    /// One solid is wanted.
    pub(crate) fn new() -> Wants
        ensures { result ≡ whole_solid }
    {
        let mut stack = ArrayVec::new();
        stack.push(Want::Whole(0));
        Wants { stack }
    }

    /// Whether nothing is wanted.
    pub(crate) fn is_empty(&self) -> bool
        ensures { result ≡ (length self.now == 0) }
    {
        self.stack.is_empty()
    }

    /// Takes a token for what is wanted next, and gives how many clauses it adds to the solid. Where
    /// the token is bad, what is wanted no longer matters.
    pub(crate) fn take(&mut self, token: &[u8]) -> Result<u32, SolidReason>
        ensures good { IfOk result (λ clauses. take_token self.old token.now ≡ Ok self.new) }
        ensures clauses { IfOk result (λ clauses. clauses ≡ added self.old token.now) }
        ensures few { IfOk result (λ clauses. clauses ≤ 11) }
        ensures bad { IfErr result (λ reason. take_token self.old token.now ≡ Err reason) }
    {
        match self.next() {
            None => Err(SolidReason::Trailing),
            Some(Want::Numeral) => {
                check_numeral(token)?;
                Ok(0)
            }
            Some(Want::Size) => {
                check_size(token)?;
                Ok(0)
            }
            Some(Want::Whole(within)) => self.open(within, token),
        }
    }

    // Takes the word of a form within so many others, and wants what the form wants.
    fn open(&mut self, within: u16, word: &[u8]) -> Result<u32, SolidReason>
        requires room { length self.old ≤ within }
        requires deep { within ≤ 256 }
        ensures good { IfOk result (λ clauses.
            in_front self.old (token_wants (Whole within) word.now) ≡ Ok self.new) }
        ensures clauses { IfOk result (λ clauses. clauses ≡ clauses_of (form_named word.now)) }
        ensures few { IfOk result (λ clauses. clauses ≤ 11) }
        ensures bad { IfErr result (λ reason. token_wants (Whole within) word.now ≡ Err reason) }
    {
        let Some(form) = read_form(word) else {
            return Err(SolidReason::UnknownForm);
        };
        if within >= DEEPEST {
            return Err(SolidReason::TooDeep);
        }
        self.want_parts(form, within);
        Ok(form.clauses())
    }

    // Wants the numbers and the solids of a form within so many others.
    fn want_parts(&mut self, form: Form, within: u16)
        requires room { length self.old ≤ within }
        requires shallow { within < 256 }
        ensures { self.new ≡ wants_of within form ++ self.old }
    {
        let inner = Want::Whole(within + 1);
        match form {
            Form::Ball => self.put(Want::Size),
            Form::Block => {
                self.put(Want::Size);
                self.put(Want::Size);
                self.put(Want::Size);
            }
            Form::Cylinder => {
                self.put(Want::Size);
                self.put(Want::Size);
            }
            Form::Move => {
                self.put(inner);
                self.put(Want::Numeral);
                self.put(Want::Numeral);
                self.put(Want::Numeral);
            }
            Form::Scale => {
                self.put(inner);
                self.put(Want::Size);
            }
            Form::Union | Form::Intersect | Form::Difference => {
                self.put(inner);
                self.put(inner);
            }
        }
    }

    // Wants this before all others.
    fn put(&mut self, want: Want)
        requires { FitsBefore want (length self.old) }
        ensures { self.new ≡ want ∷ self.old }
    {
        self.stack.push(want);
    }

    // What is wanted next, which is wanted no longer.
    fn next(&mut self) -> Option<Want>
        ensures next { MatchOption result (self.old ≡ []) (λ want. self.old ≡ want ∷ self.new) }
        ensures room { IfSome result (λ want. FitsBefore want (length self.new)) }
    {
        self.stack.pop()
    }
}

// A token where a numeral is wanted.
fn check_numeral(token: &[u8]) -> Result<(), SolidReason>
    ensures good { OnOk result (numeral_wants (numeral token.now) ≡ Ok []) }
    ensures bad { IfErr result (λ reason. numeral_wants (numeral token.now) ≡ Err reason) }
{
    match read_raw(token) {
        Ok(_) => Ok(()),
        Err(_) => Err(SolidReason::BadNumeral),
    }
}

// A token where the numeral of a size is wanted.
fn check_size(token: &[u8]) -> Result<(), SolidReason>
    ensures good { OnOk result (size_wants (numeral token.now) ≡ Ok []) }
    ensures bad { IfErr result (λ reason. size_wants (numeral token.now) ≡ Err reason) }
{
    match read_raw(token) {
        Ok(size) if size > 0 => Ok(()),
        Ok(_) => Err(SolidReason::NotPositive),
        Err(_) => Err(SolidReason::BadNumeral),
    }
}
