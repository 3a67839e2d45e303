ghost use Rattle.std.specs.Prelude.{◌≡◌, ℕ, true, List, Option};
ghost use Rattle.doc_model.specs.declared.step.Step.{Step};
ghost use Rattle.doc_model.specs.Document.{is_open};
ghost use Rattle.doc_model.specs.Lawful.{IsComplete};
ghost use Rattle.engine_meaning.specs.Meaning.{meaning_of};
ghost use Rattle.engine_meaning.specs.Runs.{State, Waits};
ghost use Rattle.sheet_ast.specs.declared.sheet.Sheet.{Sheet};

use xpath_laws::readings_tell_of_rows_that_are_there;

/// A stylesheet waits only for rows that are open. So on a whole document it waits for none: it is done, or has a
/// fault.
pub fn meanings_wait_for_open_rows()
    ensures waits { (sheet : Sheet) (order : List ℕ) (id : Option (List ℕ)) (steps : List Step) (budget m : ℕ) (s : State) → meaning_of sheet order id steps budget ≡ Waits m s → is_open steps m ≡ true }
    ensures whole { (sheet : Sheet) (order : List ℕ) (id : Option (List ℕ)) (steps : List Step) (budget m : ℕ) (s : State) → IsComplete steps → meaning_of sheet order id steps budget ≡ Waits m s → ⊥ }
{
    readings_tell_of_rows_that_are_there();
}
