ghost use Rattle.std.specs.Prelude.{◌≡◌};
ghost use Rattle.plain_columns.specs.Stored.{JoinsNoRoot};

use std::marker::Model;

/// A join or a shut.
#[derive(Clone, Copy, Debug, PartialEq, Eq)]
pub enum Entry {
    /// This row was joined.
    Join(u32),
    /// The innermost open row was shut.
    Shut,
}

/// A join or a shut in one word: the row that was joined, which is not the root, or 0.
#[derive(Debug, Drop)]
pub(crate) struct StoredEntry {
    word: u32,
}

impl Model for StoredEntry {
    ghost use Rattle.plain_columns.specs.declared.entry.Entry.{Entry};
    ghost use Rattle.plain_columns.specs.Stored.{stored_entry};

    ghost Value = { Entry };

    ghost view = { stored_entry };
}

impl StoredEntry {
    pub(crate) fn of(entry: Entry) -> StoredEntry
        requires { JoinsNoRoot entry }
        ensures { result ≡ entry }
    {
        match entry {
            Entry::Join(n) => StoredEntry { word: n },
            Entry::Shut => StoredEntry { word: 0 },
        }
    }
}
