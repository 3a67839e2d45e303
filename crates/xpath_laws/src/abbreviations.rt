ghost use Rattle.std.specs.Prelude.{◌≡◌, ℕ, List, [], ◌∷◌, Option, Some, None};
ghost use Rattle.doc_model.specs.declared.step.Step.{Step};
ghost use Rattle.doc_model.specs.declared.strip_rule.StripRule.{StripRule};
ghost use Rattle.doc_model.specs.Answers.{Known};
ghost use Rattle.doc_model.specs.Relations.{parent_of};
ghost use Rattle.doc_model.specs.Rows.{rows_of};
ghost use Rattle.sheet_ast.specs.declared.sheet.KeyDecl.{KeyDecl};
ghost use Rattle.xpath_meaning.specs.Readings.{reading_of};
ghost use Rattle.xpath_meaning.specs.Tests.{nodes_on};
ghost use Rattle.xpath_syntax.specs.declared.expression.AxisName.TheVariants as name;
ghost use Rattle.xpath_syntax.specs.declared.expression.TestExpr.TheVariants as written;
ghost use Rattle.xpath_laws.specs.Sound.{IsThere};

/// `.` is the context node (XPath 1.0, section 2.5).
pub fn a_dot_is_the_context_node()
    ensures { (rules : List StripRule) (keys : List KeyDecl) (id : Option (List ℕ)) (steps : List Step) (n : ℕ) → IsThere rules steps n → nodes_on (reading_of rules keys id steps) name.Itself written.Node n ≡ Known (n ∷ []) }
{}

/// `..` is the parent of the context node, if there is one (XPath 1.0, section 2.5).
pub fn two_dots_are_the_parent()
    ensures parent { (rules : List StripRule) (keys : List KeyDecl) (id : Option (List ℕ)) (steps : List Step) (n m : ℕ) → IsThere rules steps n → parent_of (rows_of steps) n ≡ Some m → nodes_on (reading_of rules keys id steps) name.Parent written.Node n ≡ Known (m ∷ []) }
    ensures none { (rules : List StripRule) (keys : List KeyDecl) (id : Option (List ℕ)) (steps : List Step) (n : ℕ) → IsThere rules steps n → parent_of (rows_of steps) n ≡ None → nodes_on (reading_of rules keys id steps) name.Parent written.Node n ≡ Known [] }
{}
