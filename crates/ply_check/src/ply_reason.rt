// Why a line of a file is refused.

use thiserror::Error;

/// Why a file is refused on a line.
#[derive(Clone, Copy, Debug, PartialEq, Eq, Error)]
pub enum PlyReason {
    /// The first line with a token is not `ply`, or there is none.
    #[error("not a PLY file")]
    NotPly,
    /// A line of the header is none that may stand there.
    #[error("a bad line in the header")]
    BadHeader,
    /// The line of a vertex has not as many tokens as a vertex has properties.
    #[error("a bad line of a vertex")]
    BadVertex,
    /// The line of a face is not `3` and three whole numbers of 1 to 10 digits.
    #[error("a bad line of a face")]
    BadFace,
    /// A face names a vertex that there is not.
    #[error("an unknown vertex")]
    BadIndex,
    /// The lines end within the header, the vertices or the faces.
    #[error("the lines end too early")]
    TooShort,
    /// A line with a token follows the last face.
    #[error("a line after the last face")]
    TooLong,
    /// Memory was refused.
    #[error("out of memory")]
    NoMemory,
}
