ghost use Rattle.std.specs.Prelude.{◌≡◌, ℕ, List, Option, Some};
ghost use Rattle.doc_model.specs.declared.look.Look.{Look};
ghost use Rattle.doc_model.specs.declared.row.Row.{Row};
ghost use Rattle.doc_model.specs.declared.step.Step.{Step};
ghost use Rattle.doc_model.specs.declared.step.Verdict.{Verdict};
ghost use Rattle.doc_model.specs.declared.strip_rule.StripRule.{StripRule};
ghost use Rattle.doc_model.specs.Document.{document_of};
ghost use Rattle.doc_model.specs.Lawful.{Grows, IsLawful, IsJoined};
ghost use Rattle.doc_model.specs.Rows.{rows_of};
ghost use Rattle.doc_model.specs.View.{is_settled, LinkIs, ExtentIs, EndedIs};
ghost use Rattle.doc_laws.specs.Stays.{DataStay, LinksStay};
ghost use Rattle.doc_laws.specs.Still.{look_of, known_extent};

/// A datum, a link or an extent that is answered of a list is answered so of every lawful growth of it.
pub fn answers_stay()
    ensures data { (rules : List StripRule) (before later : List Step) (n : ℕ) → Grows before later → IsLawful later → IsJoined before n → DataStay rules before later n }
    ensures links { (rules : List StripRule) (before later : List Step) (n : ℕ) → Grows before later → IsLawful later → IsJoined before n → LinksStay rules before later n }
{}

/// Nothing follows an End, so a verdict that is answered stays.
pub fn nothing_follows_an_end()
    ensures { (before later : List Step) (verdict : Verdict) → Grows before later → IsLawful later → (document_of before).ended ≡ Some verdict → later ≡ before }
{}

/// Where the steps seen are the whole, which no call changes, no call lets them grow.
pub fn still_tables_do_not_grow()
    ensures { (before later whole : List Step) → Grows before later → Grows later whole → whole ≡ before → later ≡ before }
{}

/// What a call may answer while the steps stay as they are is one answer alone: a link is the node, or
/// nothing exactly where the row that decides is shut, or not yet exactly where it is open; an extent is
/// told exactly where the row is shut, and a verdict exactly where there is one.
pub fn answers_are_exact_on_a_still_table()
    ensures link { (link decider : List Row → Option ℕ) (steps : List Step) (look : Look) → LinkIs link decider steps steps look → look ≡ look_of (link (rows_of steps)) (is_settled steps (decider (rows_of steps))) }
    ensures extent { (steps : List Step) (n : ℕ) (extent : Option ℕ) → ExtentIs steps steps n extent → extent ≡ known_extent steps n }
    ensures ended { (steps : List Step) (verdict : Option Verdict) → EndedIs steps steps verdict → verdict ≡ (document_of steps).ended }
{}
