ghost use Rattle.std.specs.Prelude.{ℕ, List};
ghost use Rattle.doc_model.specs.declared.strip_rule.StripRule.{StripRule};
ghost use Rattle.doc_model.specs.Answers.{Lasts};
ghost use Rattle.doc_model.specs.Values.{string_value_of};

/// A string-value that is known stays on every lawful growth.
pub fn known_values_stay()
    ensures { (rules : List StripRule) (n : ℕ) → Lasts (λ steps. string_value_of rules steps n) }
{}
