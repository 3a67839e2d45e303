ghost use Rattle.std.specs.Prelude.{◌≡◌};
ghost use Rattle.engine_questions.specs.Walks.{Follows, GoesOnSo, Walk};

/// Nodes of a select that are taken one by one. A stream keeps where it stands in the document; what it keeps stands for
/// the steps that were seen, and for every lawful growth of them.
pub trait ItemStream {
    /// What it walks over, and how many nodes it gave.
    ghost walks: { Self → Walk };

    /// What it keeps stands for these steps.
    ghost follows: { Self → Follows };

    /// How many nodes it gave.
    fn taken(&self) -> u64
        ensures { result ≡ (walks self.now).taken };

    /// What it keeps for steps it keeps for every lawful growth of them.
    ghost goes_on: { (stream : Self) → GoesOnSo (follows stream) };
}
