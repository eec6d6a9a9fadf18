use thiserror::Error;

/// A call of a source or a sink failed. The object's count of faults says so too.
#[derive(Clone, Copy, Debug, PartialEq, Eq, Error)]
#[error("the call failed")]
pub struct Failed;
