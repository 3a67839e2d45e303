ghost use Rattle.std.specs.Prelude.{ℕ, List, Option};
ghost use Rattle.doc_model.specs.declared.step.Step.{Step};
ghost use Rattle.doc_model.specs.Answers.{Stays};
ghost use Rattle.doc_model.specs.Lawful.{Grows, IsLawful};
ghost use Rattle.engine_laws.specs.Growing.{Continues, Later};
ghost use Rattle.engine_meaning.specs.Execution.{execution_of};
ghost use Rattle.engine_meaning.specs.Meaning.{meaning_of};
ghost use Rattle.engine_meaning.specs.Places.{Place, World, setting};
ghost use Rattle.engine_meaning.specs.Runs.{State};
ghost use Rattle.rule_choice.specs.Choice.{choice_of};
ghost use Rattle.sheet_ast.specs.declared.instruction.Instruction.{Instruction};
ghost use Rattle.sheet_ast.specs.declared.sheet.Rule.{Rule};
ghost use Rattle.sheet_ast.specs.declared.sheet.Sheet.{Sheet};
ghost use Rattle.xpath_meaning.specs.Reading.{Reading, Extends};
ghost use Rattle.xpath_values.specs.declared.value.Value.{Value};

use copy_meaning::known_copies_stay;
use xpath_laws::readings_extend;

/// What a stylesheet means on some steps is what it means on every lawful growth of them: the same result events,
/// messages and budget where it is done or has a fault; and where a row must be shut first, the events and the
/// messages so far begin those of the growth.
pub fn meanings_go_on()
    ensures { (sheet : Sheet) (order : List ℕ) (id : Option (List ℕ)) (before later : List Step) (budget : ℕ) → Grows before later → IsLawful later → Later (meaning_of sheet order id before budget) (meaning_of sheet order id later budget) }
{
    readings_extend();
    known_copies_stay();
}

/// So it is with instructions, from any place and state.
pub fn executions_go_on()
    ensures { (sheet : Sheet) (globals : List Value) (before later : World) (more : ℕ) (body : List Instruction) (c : Place) (s : State) → Continues before later → Later (execution_of (setting sheet before globals) more body c s) (execution_of (setting sheet later globals) more body c s) }
{}

/// The rule of a node stays once it is known, and so does a fault of the choice.
pub fn choices_stay()
    ensures { (before later : Reading) (rules : List Rule) (mode n : ℕ) → Extends before later → Stays (choice_of before rules mode n) (choice_of later rules mode n) }
{}
