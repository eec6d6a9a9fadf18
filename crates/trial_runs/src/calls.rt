// How a source or a sink in memory takes its calls.
use modeller_io::{MemSink, MemSource};
use std::alloc::{AllocError, Global};

/// How a source or a sink takes its calls: at most `chunk` bytes each, and one where `chunk` is 0. The call
/// of the number `failing`, from 1, fails. At 0 none does.
#[derive(Clone, Copy)]
pub struct Calls {
    /// The most bytes of a call.
    pub chunk: u64,
    /// The number of the call that fails.
    pub failing: u64,
}

impl Calls {
    /// Calls of at most 8192 bytes, none of which fails.
    pub fn sure() -> Calls {
        Calls {
            chunk: 8192,
            failing: 0,
        }
    }

    // A source of these bytes.
    pub(crate) fn source(self, alloc: Global, bytes: &[u8]) -> Result<MemSource, AllocError> {
        let fails = [self.failing].to_vec(alloc)?;
        Ok(MemSource::new(bytes.to_vec(alloc)?, self.chunk.max(1), fails))
    }

    // A sink with room for so many bytes.
    pub(crate) fn sink(self, alloc: Global, room: usize) -> Result<MemSink, AllocError> {
        let fails = [self.failing].to_vec(alloc)?;
        Ok(MemSink::new(self.chunk.max(1), fails, vec![in alloc; 0; room]?))
    }
}
