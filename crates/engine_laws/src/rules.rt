ghost use Rattle.std.specs.Prelude.{◌≡◌, ℕ, List, Some, None};
ghost use Rattle.doc_model.specs.Answers.{Known};
ghost use Rattle.engine_laws.specs.Rules.{IsBuiltIn, IsChoice};
ghost use Rattle.rule_choice.specs.Choice.{choice_of};
ghost use Rattle.sheet_ast.specs.declared.sheet.Rule.{Rule};
ghost use Rattle.xpath_meaning.specs.Reading.{Reading};

/// The rule that a node has in a mode is of the mode and matches, and each rule of the mode that stands over it, by
/// import precedence, by priority and by its place in the sheet, doesn't match. Where a node has none, none of the
/// mode matches (XSLT 1.0, sections 2.6.2 and 5.5).
pub fn choices_stand_over_other_matching_rules()
    ensures rule { (R : Reading) (rules : List Rule) (mode n place : ℕ) → choice_of R rules mode n ≡ Known (Some place) → IsChoice R rules mode n place }
    ensures none { (R : Reading) (rules : List Rule) (mode n : ℕ) → choice_of R rules mode n ≡ Known None → IsBuiltIn R rules mode n }
{}
