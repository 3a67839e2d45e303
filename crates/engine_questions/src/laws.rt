ghost use Rattle.std.specs.Prelude.{ℕ, List};
ghost use Rattle.doc_model.specs.declared.step.Step.{Step};
ghost use Rattle.doc_model.specs.declared.strip_rule.StripRule.{StripRule};
ghost use Rattle.doc_model.specs.Lawful.{Grows, IsLawful};
ghost use Rattle.engine_laws.specs.Growing.{Continues};
ghost use Rattle.engine_questions.specs.Asking.{world_by};
ghost use Rattle.key_sources.specs.Going.{Lookups};
ghost use Rattle.xpath_laws.specs.Sound.{IsThere};

use copy_meaning::known_copies_stay;
use xpath_laws::readings_extend;

/// What is seen of some steps is seen of every lawful growth of them.
pub fn worlds_go_on()
    ensures { (lookups : Lookups) (rules : List StripRule) (before later : List Step) → Grows before later → IsLawful later → Continues (world_by lookups rules before) (world_by lookups rules later) }
{
    readings_extend();
    known_copies_stay();
}

/// A node that is there and visible stays so.
pub fn seen_nodes_stay()
    ensures { (rules : List StripRule) (before later : List Step) (n : ℕ) → Grows before later → IsThere rules before n → IsThere rules later n }
{}
