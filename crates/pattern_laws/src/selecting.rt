ghost use Rattle.std.specs.Prelude.{ℕ, List, ◌∷◌, Option};
ghost use Rattle.doc_model.specs.declared.step.Step.{Step};
ghost use Rattle.doc_model.specs.declared.strip_rule.StripRule.{StripRule};
ghost use Rattle.doc_model.specs.Lawful.{IsComplete, IsLawful};
ghost use Rattle.doc_model.specs.Rows.{rows_of};
ghost use Rattle.sheet_ast.specs.declared.sheet.KeyDecl.{KeyDecl};
ghost use Rattle.xpath_laws.specs.Sound.{Each, IsThere};
ghost use Rattle.xpath_meaning.specs.Readings.{reading_of};
ghost use Rattle.xpath_syntax.specs.declared.pattern.PatternPath.{PatternPath};
ghost use Rattle.pattern_laws.specs.Selecting.{IsPlain, IsPlainAlternative, LooksUpWithoutFault, MatchesAsSelected, PatternMatchesAsSelected};

/// A pattern without predicates matches what it selects (XSLT 1.0, section 5.2): on a whole document it is known of each
/// node whether it matches, and it does exactly where, with the node or one of its ancestors as the context, it is among
/// the nodes of the pattern as an expression. A key that the pattern names must have no fault. Of a pattern of several
/// alternatives, which as an expression are joined by `|`, each key must be bound too: one that isn't would be a fault
/// of the whole.
pub fn patterns_match_what_they_select()
    ensures alternatives { (rules : List StripRule) (keys : List KeyDecl) (id : Option (List ℕ)) (steps : List Step) (first : PatternPath) (others : List PatternPath) (n : ℕ) → IsLawful steps → IsComplete steps → Each (IsPlainAlternative (reading_of rules keys id steps)) (first ∷ others) → IsThere rules steps n → PatternMatchesAsSelected (rows_of steps) (reading_of rules keys id steps) first others n }
    ensures path { (rules : List StripRule) (keys : List KeyDecl) (id : Option (List ℕ)) (steps : List Step) (path : PatternPath) (n : ℕ) → IsLawful steps → IsComplete steps → IsPlain path → LooksUpWithoutFault (reading_of rules keys id steps) path.start → IsThere rules steps n → MatchesAsSelected (rows_of steps) (reading_of rules keys id steps) path n }
{}
