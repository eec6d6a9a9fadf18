// The name of a clause.
ghost use Rattle.std.specs.Prelude.{◌≡◌, ◌↔◌, IfOk, OnOk, IsErrOf};
ghost use Rattle.std.specs.List.{list_all};
ghost use Rattle.solid_model.specs.Names.{is_token_byte, is_name, IsName};

use crate::label::Label;
use std::alloc::{AllocError, Global};
use std::marker::Model;
use thiserror::Error;

/// The name of a clause, which contracts see as its bytes: a token that does not begin with `#`.
#[derive(Debug, Drop)]
pub struct Name {
    label: Label,
}

impl Model for Name {
    ghost use Rattle.std.specs.Prelude.{List, ℕ};
    ghost use Rattle.solid_model.specs.Names.{IsName};

    ghost Value = { List ℕ };

    ghost view = { λ n. n.label };

    ghost invariant = { λ n. IsName n.label };
}

/// Why bytes are no name.
#[derive(Clone, Copy, Debug, PartialEq, Eq, Error)]
pub enum NameFault {
    /// They are empty, have a blank or a line feed, or begin with `#`.
    #[error("not a name")]
    BadName,
    /// Memory was refused.
    #[error("out of memory")]
    NoMemory,
}

impl Name {
    /// The name of these bytes, which are copied.
    ///
    /// `BadName`: they are empty, have a blank or a line feed, or begin with `#`. `NoMemory`:
    /// memory was refused.
    pub fn new(alloc: Global, bytes: &[u8]) -> Result<Name, NameFault>
        ensures ok { IfOk result (λ name. name ≡ bytes.now) }
        ensures ok_for_names { OnOk result (IsName bytes.now) }
        ensures bad { IsErrOf result NameFault.BadName ↔ ¬ IsName bytes.now }
        ensures no_memory_for_names { IsErrOf result NameFault.NoMemory → IsName bytes.now }
    {
        if !is_name(bytes) {
            return Err(NameFault::BadName);
        }
        Name::copied(alloc, bytes).map_err(|_| NameFault::NoMemory)
    }

    // The name of bytes that are known to be one.
    #[inline]
    pub(crate) fn copied(alloc: Global, bytes: &[u8]) -> Result<Name, AllocError>
        requires { IsName bytes.now }
        ensures { IfOk result (λ name. name ≡ bytes.now) }
    {
        Ok(Name {
            label: Label::copied(alloc, bytes)?,
        })
    }

    /// An equal name, which shares the memory of a long one. AllocError: memory was refused.
    pub fn copy(&self) -> Result<Name, AllocError>
        ensures { IfOk result (λ name. name ≡ self.now) }
    {
        Ok(Name {
            label: self.label.share()?,
        })
    }

    // The name that these bytes are known to be.
    #[inline]
    pub(crate) fn of(label: Label) -> Name
        requires { IsName label }
        ensures { result ≡ label }
    {
        Name { label }
    }

    // How its bytes are kept.
    #[inline]
    pub(crate) fn label(&self) -> &Label
        ensures label { result.now ≡ self.now }
        ensures name { IsName result.now }
    {
        &self.label
    }

    /// The bytes of the name.
    #[inline]
    pub fn bytes(&self) -> &[u8]
        ensures bytes { result.now ≡ self.now }
        ensures name { IsName result.now }
    {
        self.label.bytes()
    }
}

// Whether bytes are a token that does not begin with `#`.
fn is_name(bytes: &[u8]) -> bool
    ensures { result ≡ is_name bytes.now }
{
    match bytes {
        [] => false,
        [first, ..] => *first != b'#' && is_token(bytes),
    }
}

// Whether each byte may stand in a token.
fn is_token(bytes: &[u8]) -> bool
    ensures { result ≡ list_all is_token_byte bytes.now }
{
    bytes.iter().all(|byte| is_token_byte(*byte))
}

// Whether a byte may stand in a token: neither a blank nor a line feed.
#[inline]
fn is_token_byte(byte: u8) -> bool
    ensures { result ≡ is_token_byte byte }
{
    !matches!(byte, b' ' | b'\t' | b'\r' | b'\n')
}
