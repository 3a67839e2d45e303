ghost use Rattle.std.specs.Prelude.{◌≡◌, ◌↔◌, ℕ, true, List, Some, ◌⊎◌};
ghost use Rattle.doc_model.specs.declared.node_test.Test.{Test};
ghost use Rattle.doc_model.specs.declared.row.Axis.{Axis};
ghost use Rattle.doc_model.specs.declared.step.Step.{Step};
ghost use Rattle.doc_model.specs.declared.strip_rule.StripRule.{StripRule};
ghost use Rattle.doc_model.specs.Answers.{Lasts};
ghost use Rattle.doc_model.specs.Axes.{is_descendant, is_ancestor, axis_of};
ghost use Rattle.doc_model.specs.Lawful.{IsLawful, IsJoined};
ghost use Rattle.doc_model.specs.Relations.{parent_of};
ghost use Rattle.doc_model.specs.Rows.{rows_of};
ghost use Rattle.doc_model.specs.Subtree.{IsDescendant};

/// The rows of an axis, once they are known, are so on every lawful growth.
pub fn known_axes_stay()
    ensures { (rules : List StripRule) (n : ℕ) (axis : Axis) (test : Test) → Lasts (λ steps. axis_of rules steps n axis test) }
{}

/// The descendants by the extent are those of the definition in words.
pub fn descendants_are_within_the_extent()
    ensures { (steps : List Step) (n k : ℕ) → IsLawful steps → IsJoined steps n → IsJoined steps k → ((is_descendant (rows_of steps) n k ≡ true) ↔ IsDescendant (rows_of steps) n k) }
{}

/// The ancestors are the parent, the parent's parent and so on (XPath 1.0, section 2.2).
pub fn ancestors_are_the_parent_and_its_ancestors()
    ensures { (steps : List Step) (n k : ℕ) → IsLawful steps → IsJoined steps n → ((is_ancestor (rows_of steps) n k ≡ true) ↔ ((parent_of (rows_of steps) n ≡ Some k) ⊎ ((m : ℕ) × (parent_of (rows_of steps) n ≡ Some m) × (is_ancestor (rows_of steps) m k ≡ true)))) }
{}
