ghost use Rattle.std.specs.Prelude.{◌≡◌, ℕ, List, false};
ghost use Rattle.doc_model.specs.declared.step.Step.{Step};
ghost use Rattle.doc_model.specs.declared.strip_rule.StripRule.{StripRule};
ghost use Rattle.doc_model.specs.Answers.{Known};
ghost use Rattle.doc_model.specs.Rows.{row_at, rows_of};
ghost use Rattle.doc_model.specs.Strip.{has_part};
ghost use Rattle.key_sources.specs.Going.{Lookups, reading_by};
ghost use Rattle.pattern_names.specs.Wanted.{wanted_by};
ghost use Rattle.xpath_laws.specs.Sound.{IsThere};
ghost use Rattle.xpath_meaning.specs.Match.{match_path};
ghost use Rattle.xpath_syntax.specs.declared.pattern.PatternPath.{PatternPath};

/// Where the test of a pattern's last step asks for a local name, or for the target of an instruction, a node of another
/// name doesn't match the pattern; and to know this no row must be shut. So rules for other names may be left out of the
/// choice of a rule (XSLT 1.0, sections 5.2 and 5.5; XPath 1.0, section 2.3).
pub fn nodes_that_match_have_the_wanted_name()
    ensures { (lookups : Lookups) (rules : List StripRule) (steps : List Step) (path : PatternPath) (n : ℕ) → IsThere rules steps n →
        has_part (wanted_by path) (row_at (rows_of steps) n).local ≡ false → match_path (reading_by lookups rules steps) path n ≡ Known false }
{}
