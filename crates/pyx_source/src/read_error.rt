use pyx_lines::LineError;
use thiserror::Error;

/// Why a reader gives no line.
#[derive(Clone, Copy, Debug, PartialEq, Eq, Error)]
pub enum ReadError {
    /// The source failed.
    #[error("failed")]
    Failed,
    /// The line has more than 1,048,576 bytes before its line feed.
    #[error("long line")]
    LongLine,
    /// The line is number 4,294,967,296.
    #[error("too many lines")]
    TooManyLines,
    /// The line's bytes spell no line. It is never `LineError::Memory`.
    #[error("{0}")]
    Line(LineError),
    #[error("out of memory")]
    Memory,
}
