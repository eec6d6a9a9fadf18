// The names of the clauses of a disc.
ghost use Rattle.std.specs.Prelude.{◌≡◌, ◌≤◌, ◌∷◌, decimal};
ghost use Rattle.solid_model.specs.Names.{IsName};

use arrayvec::ArrayVec;
use itoa::Buffer;

/// What the name of a clause is made of: a letter, and the number of its disc.
#[derive(Clone, Copy, Debug)]
pub(crate) struct Label {
    pub letter: u8,
    pub disc: u32,
}

impl Label {
    /// The label of this letter for the disc of this number.
    #[inline]
    pub(crate) fn new(letter: u8, disc: u32) -> Label
        ensures letter { result.letter ≡ letter }
        ensures disc { result.disc ≡ disc }
    {
        Label { letter, disc }
    }

    /// The name: the letter, then the number in decimal.
    #[tactic(auto, using(crate::proofs::LabelLemmas::label_name, crate::proofs::LabelLemmas::number_short))]
    pub(crate) fn name(self) -> ArrayVec<u8, 11>
        requires { 97 ≤ self.letter }
        ensures bytes { result.items ≡ self.letter ∷ decimal self.disc }
        ensures name { IsName result.items }
    {
        let mut number = Buffer::new();
        let mut name = ArrayVec::new();
        name.push(self.letter);
        name.try_extend_from_slice(number.format(self.disc).as_bytes())
            .unwrap();
        name
    }
}
