ghost use Rattle.std.specs.Prelude.{List, []};
ghost use mathlib.Core.List.{IsPrefix};
ghost use Rattle.link_cells.specs.declared.entry.Entry.{Entry};
ghost use Rattle.link_cells.specs.declared.layout.Layout.{Layout};

/// Which lists of sets may stand in the words: what the words mean is said here alone, by whoever sets them.
/// It holds of no set at all, and of every beginning of a list that it holds of.
pub trait Discipline: Drop + Send {
    // these sets may stand, the oldest first
    ghost keeps: { Layout → List Entry → Type 0 };

    ghost empty: { (layout : Layout) → keeps layout [] };

    ghost beginning: { (layout : Layout) (before log : List Entry) → IsPrefix before log → keeps layout log
        → keeps layout before };
}
