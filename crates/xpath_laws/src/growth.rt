ghost use Rattle.std.specs.Prelude.{ℕ, List, Option};
ghost use Rattle.doc_model.specs.declared.step.Step.{Step};
ghost use Rattle.doc_model.specs.declared.strip_rule.StripRule.{StripRule};
ghost use Rattle.doc_model.specs.Answers.{Stays, Lasts};
ghost use Rattle.doc_model.specs.Lawful.{Grows, IsLawful};
ghost use Rattle.sheet_ast.specs.declared.sheet.KeyDecl.{KeyDecl};
ghost use Rattle.xpath_meaning.specs.declared.context.Context.{Context};
ghost use Rattle.xpath_meaning.specs.Evaluation.{evaluation_of, items_of, path_items_of};
ghost use Rattle.xpath_meaning.specs.Keys.{id_nodes_of, key_nodes_of};
ghost use Rattle.xpath_meaning.specs.Match.{match_of, match_path};
ghost use Rattle.xpath_meaning.specs.Reading.{Reading, Extends};
ghost use Rattle.xpath_meaning.specs.Readings.{reading_of, reading_without_keys};
ghost use Rattle.xpath_meaning.specs.Streams.{GoesOn};
ghost use Rattle.xpath_syntax.specs.declared.expression.Expr.{Expr};
ghost use Rattle.xpath_syntax.specs.declared.expression.Path.{Path};
ghost use Rattle.xpath_syntax.specs.declared.pattern.Pattern.{Pattern};
ghost use Rattle.xpath_syntax.specs.declared.pattern.PatternPath.{PatternPath};
ghost use Rattle.xpath_values.specs.declared.value.Value.{Value};

use string_values::known_values_stay;

/// A longer list of steps tells what a shorter one told, keys and IDs too.
pub fn readings_extend()
    ensures reading { (rules : List StripRule) (keys : List KeyDecl) (id : Option (List ℕ)) (before later : List Step) → Grows before later → IsLawful later → Extends (reading_of rules keys id before) (reading_of rules keys id later) }
    ensures without_keys { (rules : List StripRule) (id : Option (List ℕ)) (before later : List Step) → Grows before later → IsLawful later → Extends (reading_without_keys rules id before) (reading_without_keys rules id later) }
{
    known_values_stay();
}

/// A value or a fault of an expression that is known stays.
pub fn evaluations_stay()
    ensures { (before later : Reading) (e : Expr) (values : List Value) (c : Context) → Extends before later → Stays (evaluation_of before e values c) (evaluation_of later e values c) }
{}

/// The items that were found are those that are found first later.
pub fn items_go_on()
    ensures selected { (before later : Reading) (e : Expr) (values : List Value) (c : Context) → Extends before later → GoesOn (items_of before e values c) (items_of later e values c) }
    ensures path { (before later : Reading) (path : Path) (values : List Value) (c : Context) → Extends before later → GoesOn (path_items_of before path values c) (path_items_of later path values c) }
{}

/// Whether a node matches stays once it is known.
pub fn matches_stay()
    ensures pattern { (before later : Reading) (pattern : Pattern) (n : ℕ) → Extends before later → Stays (match_of before pattern n) (match_of later pattern n) }
    ensures path { (before later : Reading) (path : PatternPath) (n : ℕ) → Extends before later → Stays (match_path before path n) (match_path later path n) }
{}

/// What expressions, patterns, keys and IDs mean on a list of steps, once it is known, is so on every lawful
/// growth of it.
pub fn what_is_read_stays()
    ensures evaluation { (rules : List StripRule) (keys : List KeyDecl) (id : Option (List ℕ)) (e : Expr) (values : List Value) (c : Context) → Lasts (λ steps. evaluation_of (reading_of rules keys id steps) e values c) }
    ensures pattern { (rules : List StripRule) (keys : List KeyDecl) (id : Option (List ℕ)) (pattern : Pattern) (n : ℕ) → Lasts (λ steps. match_of (reading_of rules keys id steps) pattern n) }
    ensures key { (rules : List StripRule) (keys : List KeyDecl) (id : Option (List ℕ)) (key : ℕ) (value : List ℕ) → Lasts (λ steps. key_nodes_of (reading_without_keys rules id steps) rules keys steps key value) }
    ensures id { (id : Option (List ℕ)) (value : List ℕ) → Lasts (λ steps. id_nodes_of id steps value) }
{
    known_values_stay();
}
