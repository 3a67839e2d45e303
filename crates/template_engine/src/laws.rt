ghost use Rattle.std.specs.Prelude.{List};
ghost use Rattle.doc_model.specs.Lawful.{Grows, IsLawful};
ghost use Rattle.doc_model.specs.declared.step.Step.{Step};
ghost use Rattle.doc_model.specs.declared.strip_rule.StripRule.{StripRule};
ghost use Rattle.engine_core.specs.Holding.{scene};
ghost use Rattle.key_sources.specs.Going.{Lookups};
ghost use Rattle.template_engine.specs.Turns.{IsOf};
ghost use Rattle.template_engine.specs.declared.machine.Machine.{Machine};

use engine_questions::ItemStream;

/// A machine that is one of its transformation at some steps is so at every lawful growth of them: its next turn may see
/// more of the document.
pub fn machines_go_on<S: ItemStream>()
    ensures { (lookups : Lookups) (rules : List StripRule) (before later : List Step) (m : Machine S) → Grows before later → IsLawful later → IsOf (scene S.walks S.follows lookups rules) before m → IsOf (scene S.walks S.follows lookups rules) later m }
{}
