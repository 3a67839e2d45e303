ghost use Rattle.std.specs.Prelude.{ℕ, List};
ghost use Rattle.doc_model.specs.declared.step.Step.{Step};
ghost use Rattle.doc_model.specs.Lawful.{IsLawful};
ghost use Rattle.doc_model.specs.Rows.{rows_of};
ghost use Rattle.text_walk.specs.Order.{IsOrdered};

/// In the rows of a lawful list a first child stands right after the attributes, a next sibling where
/// the extent ends, and a last child ends where its parent does.
pub fn links_follow_extents()
    ensures { (steps : List Step) → IsLawful steps → IsOrdered (rows_of steps) }
{}
