ghost use Rattle.std.specs.Prelude.{◌≡◌};
ghost use Rattle.doc_model.specs.Cells.{text_words};

/// What a table has room for.
#[derive(Clone, Copy, Debug, PartialEq, Eq)]
pub struct Limits {
    /// Rows, the root counted: 1 to 4,000,000.
    pub rows: u32,
    /// Bytes of values and of new names: 1 to 268,435,456.
    pub text: u64,
    /// Types and prefixes that the source adds: at most 65,536.
    pub names: u32,
}

impl Limits {
    /// The words of seven bytes that a table reserves for its texts, each of which begins at a new word:
    /// enough for whatever the limits allow.
    pub fn text_words(self) -> u64
        ensures { result ≡ text_words self }
    {
        self.text / 7 + self.rows as u64 + 2 * self.names as u64 + 1
    }
}
