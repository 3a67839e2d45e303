ghost use Rattle.std.specs.Prelude.{◌≡◌};
ghost use Rattle.line_feeder.specs.Feeding.{for_good};

use doc_model::Flaw;

/// What a feed answers.
#[derive(Clone, Copy, Debug, PartialEq, Eq)]
pub enum Fed {
    /// A further line was read whole, and no flaw is judged at it or before it.
    Line,
    /// The source was read to its end and has no flaw.
    Ended,
    /// The first flaw of the source.
    Flawed(Flaw),
    /// A read of the source failed.
    Failed,
    /// Want of memory.
    Memory,
}

impl Fed {
    /// The answer, if it is given for good.
    pub(crate) fn for_good(self) -> Option<Fed>
        ensures { result ≡ for_good self }
    {
        match self {
            Fed::Line => None,
            Fed::Ended | Fed::Flawed(_) | Fed::Failed | Fed::Memory => Some(self),
        }
    }
}
