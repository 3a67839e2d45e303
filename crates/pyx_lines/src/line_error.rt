use thiserror::Error;

/// Why bytes are no line, in the order in which the refusals are judged; `Memory` is want of memory.
#[derive(Clone, Copy, Debug, PartialEq, Eq, Error)]
pub enum LineError {
    /// The bytes aren't UTF-8.
    #[error("not UTF-8")]
    NotUtf8,
    /// The first byte is none of the notation.
    #[error("unknown line")]
    UnknownLine,
    /// An attribute line has no space.
    #[error("no space")]
    NoSpace,
    /// A name is no name, or a target no NCName.
    #[error("bad name")]
    BadName,
    #[error("out of memory")]
    Memory,
}
