ghost use Rattle.std.specs.Prelude.{◌≡◌, ℕ, List, Option};
ghost use Rattle.doc_model.specs.declared.step.Step.{Step};
ghost use Rattle.doc_model.specs.declared.strip_rule.StripRule.{StripRule};
ghost use Rattle.xpath_meaning.specs.declared.context.Context.{Context};
ghost use Rattle.xpath_meaning.specs.Evaluation.{evaluation_of, items_of, path_items_of};
ghost use Rattle.doc_model.specs.Answers.{Open};
ghost use Rattle.doc_model.specs.Lawful.{IsComplete};
ghost use Rattle.sheet_ast.specs.declared.sheet.KeyDecl.{KeyDecl};
ghost use Rattle.xpath_meaning.specs.Match.{match_of};
ghost use Rattle.xpath_meaning.specs.Reading.{Reading};
ghost use Rattle.xpath_meaning.specs.Readings.{reading_of, reading_without_keys};
ghost use Rattle.xpath_syntax.specs.declared.pattern.Pattern.{Pattern};
ghost use Rattle.xpath_meaning.specs.Streams.{Cut};
ghost use Rattle.xpath_syntax.specs.declared.expression.Expr.{Expr};
ghost use Rattle.xpath_syntax.specs.declared.expression.Path.{Path};
ghost use Rattle.xpath_values.specs.declared.value.Value.{Value};
ghost use Rattle.xpath_laws.specs.Sound.{Tells, Anything, IsValue, AllValues, IsContext, IsReading, Flows, IsThere, IsOpen};

/// Where a reading, the values of the variables and the context have only rows that are there and visible, the
/// nodes of a value are such rows, in document order without repeats; and a row that must be shut first is open.
/// So nothing must be shut first on a whole document.
pub fn evaluations_tell_of_rows_that_are_there()
    ensures { (rules : List StripRule) (steps : List Step) (R : Reading) (e : Expr) (values : List Value) (c : Context) → IsReading (IsThere rules steps) (IsOpen steps) R → AllValues (IsThere rules steps) values → IsContext (IsThere rules steps) c → Tells (IsOpen steps) (IsValue (IsThere rules steps)) (evaluation_of R e values c) }
{}

/// So it is with items.
pub fn items_are_rows_that_are_there()
    ensures selected { (rules : List StripRule) (steps : List Step) (R : Reading) (e : Expr) (values : List Value) (c : Context) → IsReading (IsThere rules steps) (IsOpen steps) R → AllValues (IsThere rules steps) values → IsContext (IsThere rules steps) c → Flows (IsThere rules steps) (IsOpen steps) (items_of R e values c) }
    ensures path { (rules : List StripRule) (steps : List Step) (R : Reading) (path : Path) (values : List Value) (c : Context) → IsReading (IsThere rules steps) (IsOpen steps) R → AllValues (IsThere rules steps) values → IsContext (IsThere rules steps) c → Flows (IsThere rules steps) (IsOpen steps) (path_items_of R path values c) }
{}

/// Whether a node matches waits only for rows that are open.
pub fn matches_wait_for_open_rows()
    ensures { (rules : List StripRule) (steps : List Step) (R : Reading) (pattern : Pattern) (n : ℕ) → IsReading (IsThere rules steps) (IsOpen steps) R → IsThere rules steps n → Tells (IsOpen steps) Anything (match_of R pattern n) }
{}

/// What is read of any steps tells of rows that are there and visible, and waits only for rows that are open.
pub fn readings_tell_of_rows_that_are_there()
    ensures reading { (rules : List StripRule) (keys : List KeyDecl) (id : Option (List ℕ)) (steps : List Step) → IsReading (IsThere rules steps) (IsOpen steps) (reading_of rules keys id steps) }
    ensures without_keys { (rules : List StripRule) (id : Option (List ℕ)) (steps : List Step) → IsReading (IsThere rules steps) (IsOpen steps) (reading_without_keys rules id steps) }
{}

/// On a whole document nothing must be shut first.
pub fn whole_documents_leave_nothing_open()
    ensures evaluation { (rules : List StripRule) (keys : List KeyDecl) (id : Option (List ℕ)) (steps : List Step) (e : Expr) (values : List Value) (c : Context) (m : ℕ) → IsComplete steps → AllValues (IsThere rules steps) values → IsContext (IsThere rules steps) c → evaluation_of (reading_of rules keys id steps) e values c ≡ Open m → ⊥ }
    ensures items { (rules : List StripRule) (keys : List KeyDecl) (id : Option (List ℕ)) (steps : List Step) (e : Expr) (values : List Value) (c : Context) (m : ℕ) → IsComplete steps → AllValues (IsThere rules steps) values → IsContext (IsThere rules steps) c → (items_of (reading_of rules keys id steps) e values c).ending ≡ Cut m → ⊥ }
    ensures pattern { (rules : List StripRule) (keys : List KeyDecl) (id : Option (List ℕ)) (steps : List Step) (pattern : Pattern) (n m : ℕ) → IsComplete steps → IsThere rules steps n → match_of (reading_of rules keys id steps) pattern n ≡ Open m → ⊥ }
{}
