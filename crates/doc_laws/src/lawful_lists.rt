ghost use Rattle.std.specs.Prelude.{ℕ, ◌<◌, ◌^◌, List, length};
ghost use Rattle.doc_model.specs.declared.step.Step.{Step};
ghost use Rattle.doc_model.specs.Lawful.{Grows, IsLawful};
ghost use Rattle.doc_model.specs.Legal.{Call, StandsFor};
ghost use Rattle.doc_model.specs.Rows.{rows_of};

/// A list of steps that a legal log stands for is lawful, if its rows can be numbered in a u32.
pub fn legal_logs_stand_for_lawful_steps()
    ensures { (log : List Call) (steps : List Step) → StandsFor log steps → length (rows_of steps) < 2 ^ 32 → IsLawful steps }
{}

/// Every beginning of a lawful list is lawful.
pub fn beginnings_are_lawful()
    ensures { (before later : List Step) → Grows before later → IsLawful later → IsLawful before }
{}
