// How a table keeps a name.
ghost use Rattle.std.specs.Prelude.{◌≡◌, [], ◌∷◌, length, nat_eq, nat_le, if◌then◌else◌, IfOk};
ghost use Rattle.std.specs.List.{position};
ghost use Rattle.std.specs.Str.{bytes_eq};
ghost use Rattle.std.specs.Hash as fed;
ghost use Rattle.std.specs.Cmp.Lexicographic.{pointwise, nat_list_eq_equiv};
ghost use Rattle.std.specs.Cmp.{partial_equiv_from_equiv};
ghost use Rattle.std.specs.Cmp.Rules.{hashing};
ghost use Rattle.std.proofs.Common.{rules};

use crate::label::Label;
use indexmap::IndexSet;
use std::alloc::{AllocError, Global};
use std::hash::{Hash, Hasher};
use std::marker::Model;

// The most bytes of a name that are hashed as one number.
const WORD: usize = 8;

// The bytes of a name, which contracts see: a table's own, or those of a name that is looked up,
// which are lent and not copied.
#[derive(Debug, Drop)]
pub(crate) struct Key<'n> {
    bytes: KeyBytes<'n>,
}

#[derive(Debug, Drop)]
enum KeyBytes<'n> {
    Kept(Label),
    Lent(&'n [u8]),
}

impl<'n> Model for Key<'n> {
    ghost use Rattle.std.specs.Prelude.{List, ℕ};
    ghost use Rattle.solid_model.specs.Keys.{key_bytes};

    ghost Value = { List ℕ };

    ghost view = { λ k. key_bytes k.bytes };
}

impl<'n> Key<'n> {
    // These bytes, which are copied.
    #[inline]
    pub(crate) fn copied(alloc: Global, bytes: &[u8]) -> Result<Key<'n>, AllocError>
        ensures { IfOk result (λ key. key ≡ bytes.now) }
    {
        Ok(Key {
            bytes: KeyBytes::Kept(Label::copied(alloc, bytes)?),
        })
    }

    // These bytes, which are lent.
    #[inline]
    fn lent(bytes: &'n [u8]) -> Key<'n>
        ensures { result ≡ bytes.now }
    {
        Key {
            bytes: KeyBytes::Lent(bytes),
        }
    }

    // The same bytes as they are kept once more. Those that were lent are copied.
    pub(crate) fn share(&self, alloc: Global) -> Result<Label, AllocError>
        ensures { IfOk result (λ label. label ≡ self.now) }
    {
        match &self.bytes {
            KeyBytes::Kept(label) => label.share(),
            KeyBytes::Lent(bytes) => Label::copied(alloc, bytes),
        }
    }

    // The bytes.
    #[inline]
    pub(crate) fn bytes(&self) -> &[u8]
        ensures { result.now ≡ self.now }
    {
        match &self.bytes {
            KeyBytes::Kept(label) => label.bytes(),
            KeyBytes::Lent(bytes) => bytes,
        }
    }
}

impl<'n> PartialEq for Key<'n> {
    ghost eq = { pointwise nat_eq };

    ghost laws = { partial_equiv_from_equiv nat_list_eq_equiv };

    #[inline]
    fn eq(&self, other: &Key<'n>) -> bool {
        self.bytes() == other.bytes()
    }
}

impl<'n> Eq for Key<'n> {
    ghost laws = { nat_list_eq_equiv };
}

// A short name is fed to the hasher at once. A longer one is fed byte by byte, as a slice is: in
// one piece its first eight bytes could be chosen so that the others do not count.
impl<'n> Hash for Key<'n> {
    ghost hash_input = { λ bytes. if nat_le (length bytes) 8 then bytes ∷ []
        else fed.slice fed.u8 bytes };

    ghost respects_eq = { Prim.search (hashing, rules) };

    #[inline]
    fn hash<H: Hasher>(&self, state: &mut H) {
        let bytes = self.bytes();
        if bytes.len() <= WORD {
            state.write(bytes);
        } else {
            bytes.hash(state);
        }
    }
}

// The number of this name among others. No memory is asked for: the kept keys, which may live for
// ever, are asked by a key that lives as long as the name is lent.
#[inline]
pub(crate) fn number_in(names: &IndexSet<Key<'static>>, name: &[u8]) -> Option<usize>
    ensures { result ≡ position (λ k. bytes_eq name.now k) names.now.keys }
{
    names.get_index_of(&Key::lent(name))
}
