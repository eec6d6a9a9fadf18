// Why a reader gives no value.
ghost use Rattle.std.specs.Prelude.{◌≡◌};
ghost use Rattle.clause_reader.specs.Gives.{defect_or};

use std::alloc::{AllocError, AllocFailed};

/// Why a reader gives no value.
#[derive(Clone, Copy, Debug, PartialEq, Eq)]
pub enum ReadError<D> {
    /// Memory was refused.
    Memory,
    /// What is read has this defect, the first of them.
    Defect(D),
}

impl<D: Drop> ReadError<D> {
    /// The defect, or this one where memory was refused.
    pub fn defect_or(self, memory: D) -> D
        ensures { result ≡ defect_or memory self }
    {
        match self {
            ReadError::Memory => memory,
            ReadError::Defect(defect) => defect,
        }
    }
}

impl<D> From<AllocError> for ReadError<D> {
    ghost use Rattle.clause_reader.specs.declared.read_error.ReadError.TheVariants.{Memory};

    ghost from_gives = { λ _ error. error ≡ Memory };

    fn from(_refused: AllocError) -> ReadError<D> {
        ReadError::Memory
    }
}

impl<D, T: Drop> From<AllocFailed<T>> for ReadError<D> {
    ghost use Rattle.clause_reader.specs.declared.read_error.ReadError.TheVariants.{Memory};

    ghost from_gives = { λ _ error. error ≡ Memory };

    fn from(_refused: AllocFailed<T>) -> ReadError<D> {
        ReadError::Memory
    }
}
