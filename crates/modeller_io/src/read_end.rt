use thiserror::Error;

/// Why a source was not read to its end.
#[derive(Clone, Copy, Debug, PartialEq, Eq, Error)]
pub enum ReadEnd {
    /// A call of the source failed.
    #[error("the source failed")]
    Failed,
    /// The source holds more bytes than the limit.
    #[error("the source is longer than the limit")]
    TooLong,
    /// There was no memory for the bytes.
    #[error("out of memory")]
    NoMemory,
}
