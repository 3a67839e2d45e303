ghost use Rattle.std.specs.Prelude.{◌≡◌, ℕ, true, Bool, List, [], ◌∷◌, Option};
ghost use Rattle.doc_model.specs.declared.row.Kind.TheVariants as kind;
ghost use Rattle.doc_model.specs.declared.step.Step.{Step};
ghost use Rattle.doc_model.specs.declared.strip_rule.StripRule.{StripRule};
ghost use Rattle.doc_model.specs.Lawful.{IsComplete, IsLawful};
ghost use Rattle.doc_model.specs.NodeTests.{meets};
ghost use Rattle.doc_model.specs.Rows.{row_at, rows_of};
ghost use Rattle.doc_model.specs.Subtree.{IsDescendant};
ghost use Rattle.sheet_ast.specs.declared.sheet.KeyDecl.{KeyDecl};
ghost use Rattle.xpath_grammar.specs.Grammar.{any_depth, path_of, step_of};
ghost use Rattle.xpath_laws.specs.Sound.{Each, IsContext, IsThere};
ghost use Rattle.xpath_meaning.specs.declared.context.Context.{Context};
ghost use Rattle.xpath_meaning.specs.Evaluation.{meant_step};
ghost use Rattle.xpath_meaning.specs.Readings.{reading_of};
ghost use Rattle.xpath_meaning.specs.Steps.{step_nodes, steps_nodes};
ghost use Rattle.xpath_meaning.specs.Tests.{test_of};
ghost use Rattle.xpath_syntax.specs.declared.expression.AxisName.TheVariants as axis;
ghost use Rattle.xpath_syntax.specs.declared.expression.Expr.TheVariants as expr;
ghost use Rattle.xpath_syntax.specs.declared.expression.TestExpr.{TestExpr};
ghost use Rattle.xpath_values.specs.declared.value.Value.{Value};
ghost use Rattle.pattern_laws.specs.Selecting.{GoesOnFromAnyDepth, SelectsExactly, start_at};

/// `//` leads to nodes at any depth (XPath 1.0, section 2.5). On a whole document the steps behind it go on from the nodes
/// before it and their visible descendants. So `//x` leads to the descendants that are an `x`: of any nodes its two
/// steps give what the one step along the axis descendant gives; and a path of them selects exactly the visible
/// descendants of its start that meet the test, where the start is the root or the context node.
pub fn two_slashes_lead_to_the_descendants()
    ensures depths { (rules : List StripRule) (keys : List KeyDecl) (id : Option (List ℕ)) (steps : List Step) (nodes : List ℕ) (values : List Value) (c : Context) → IsLawful steps → IsComplete steps → Each (IsThere rules steps) nodes → GoesOnFromAnyDepth rules steps (reading_of rules keys id steps) nodes values c }
    ensures steps { (rules : List StripRule) (keys : List KeyDecl) (id : Option (List ℕ)) (steps : List Step) (test : TestExpr) (nodes : List ℕ) (values : List Value) (c : Context) → IsLawful steps → IsComplete steps → Each (IsThere rules steps) nodes → steps_nodes (meant_step any_depth ∷ meant_step (step_of axis.Child test []) ∷ []) nodes (reading_of rules keys id steps) values c ≡ step_nodes (meant_step (step_of axis.Descendant test [])) nodes (reading_of rules keys id steps) values c }
    ensures descendants { (rules : List StripRule) (keys : List KeyDecl) (id : Option (List ℕ)) (steps : List Step) (absolute : Bool) (test : TestExpr) (values : List Value) (c : Context) → IsLawful steps → IsComplete steps → IsContext (IsThere rules steps) c → SelectsExactly (reading_of rules keys id steps) (expr.Path (path_of absolute (any_depth ∷ step_of axis.Child test [] ∷ []))) values c (λ k. IsThere rules steps k × IsDescendant (rows_of steps) (start_at absolute c) k × (meets kind.Element (test_of test) (row_at (rows_of steps) k) ≡ true)) }
{}
