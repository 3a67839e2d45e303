ghost use Rattle.std.specs.Prelude.{◌≡◌, ℕ, ℤ, List, map, Option, None, Some};
ghost use Rattle.whole_num.specs.declared.number.Num.TheVariants.{Whole};
ghost use Rattle.xpath_meaning.specs.Calls.{call};
ghost use Rattle.xpath_meaning.specs.Conversions.{text, number};
ghost use Rattle.xpath_meaning.specs.Evaluation.{meant, meant_path, meant_step, path_value, filter_value, value_in};
ghost use Rattle.xpath_meaning.specs.Items.{if_streams};
ghost use Rattle.xpath_meaning.specs.Meanings.{Meant, MeantPath, plain};
ghost use Rattle.xpath_meaning.specs.Operators.{binary, minus};
ghost use Rattle.doc_model.specs.Answers.{Known};
ghost use Rattle.xpath_syntax.specs.declared.expression.Expr.{Expr};
ghost use Rattle.xpath_syntax.specs.declared.expression.Expr.TheVariants as expr;
ghost use Rattle.xpath_syntax.specs.declared.expression.NameRef.{NameRef};
ghost use Rattle.xpath_syntax.specs.declared.expression.Op.{Op};
ghost use Rattle.xpath_syntax.specs.declared.expression.Path.{Path, out-Path};
ghost use Rattle.xpath_syntax.specs.declared.expression.StepExpr.{StepExpr, out-StepExpr};

/// What an expression means, by what its parts mean.
pub fn meanings_are_made_of_those_of_the_parts()
    ensures binary { (op : Op) (left right : Expr) → meant (expr.Binary op left right) ≡ plain (binary op (meant left) (meant right)) }
    ensures minus { (inner : Expr) → meant (expr.Minus inner) ≡ plain (minus (meant inner)) }
    ensures literal { (bytes : List ℕ) → meant (expr.Literal bytes) ≡ plain (λ R values c. Known (text bytes)) }
    ensures number { (whole : ℤ) → meant (expr.Number whole) ≡ plain (λ R values c. Known (number (Whole whole))) }
    ensures variable { (name : NameRef) → meant (expr.Variable name) ≡ plain (λ R values c. Known (value_in values name.slot)) }
    ensures call { (name : NameRef) (args : List Expr) → meant (expr.Call name args) ≡ plain (call name (map meant args)) }
    ensures path { (path : Path) → meant (expr.Path path) ≡ record { value = path_value (meant_path path); items = if_streams (meant_path path).streams (meant_path path) } }
    ensures filter { (primary : Expr) (predicates : List Expr) → meant (expr.Filter primary predicates None) ≡ plain (filter_value (meant primary) (map meant predicates) None) }
    ensures filter_with_tail { (primary : Expr) (predicates : List Expr) (tail : Path) → meant (expr.Filter primary predicates (Some tail)) ≡ plain (filter_value (meant primary) (map meant predicates) (Some (meant_path tail))) }
{}

/// What a location path and a step mean: their own fields, with what the predicates mean.
pub fn paths_are_made_of_steps()
    ensures path { (path : Path) → meant_path path ≡ record { absolute = (out-Path path).absolute; parts = map meant_step (out-Path path).parts; streams = (out-Path path).streams } }
    ensures step { (step : StepExpr) → meant_step step ≡ record { axis = (out-StepExpr step).axis; test = (out-StepExpr step).test; predicates = map meant (out-StepExpr step).predicates } }
{}
