ghost use Rattle.std.specs.Prelude.{◌≡◌, ℕ, ◌-◌, ◌++◌, suc, List, flat_map};
ghost use Rattle.doc_model.specs.declared.step.Step.{Step};
ghost use Rattle.doc_model.specs.declared.strip_rule.StripRule.{StripRule};
ghost use Rattle.doc_model.specs.Answers.{Lasts};
ghost use Rattle.doc_model.specs.Lawful.{IsLawful, IsJoined};
ghost use Rattle.doc_model.specs.Relations.{extent_of};
ghost use Rattle.doc_model.specs.Rows.{rows_of, row_at};
ghost use Rattle.doc_model.specs.Shown.{shown_of};
ghost use Rattle.copy_meaning.specs.Copies.{made_of, attributes_of, copy_in, copy_of};
ghost use Rattle.copy_meaning.specs.Passes.{beginning, ending, pass};

/// A copy that is known stays on every lawful growth.
pub fn known_copies_stay()
    ensures { (rules : List StripRule) (n : ℕ) → Lasts (λ steps. copy_of rules steps n) }
{}

/// The copy of a row is made of its attributes and of the copies of its visible children, however deep they are.
pub fn copies_are_made_of_copies()
    ensures { (rules : List StripRule) (steps : List Step) (n : ℕ) → IsLawful steps → IsJoined steps n →
        copy_in rules (rows_of steps) n ≡ made_of (row_at (rows_of steps) n).kind (row_at (rows_of steps) n) (attributes_of (rows_of steps) n) (flat_map (copy_in rules (rows_of steps)) (shown_of rules (rows_of steps) n)) }
{}

/// The copy of a row is what one pass through the rows of its subtree gives, between its own beginning and ending.
pub fn copies_are_passes()
    ensures { (rules : List StripRule) (steps : List Step) (n : ℕ) → IsLawful steps → IsJoined steps n →
        copy_in rules (rows_of steps) n ≡ beginning (row_at (rows_of steps) n)
        ++ pass rules (rows_of steps) (row_at (rows_of steps) n).depth (suc n) (extent_of (rows_of steps) n - suc n) (row_at (rows_of steps) n).depth
        ++ ending (row_at (rows_of steps) n) }
{}
