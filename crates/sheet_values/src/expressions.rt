//! Expressions, patterns and value templates with their names bound.

ghost use Rattle.std.specs.Prelude.{◌≡◌, IfOk, None};
ghost use Rattle.std.specs.List.{list_any};
ghost use Rattle.xpath_binding.specs.Binding.{bound, bound_pattern};
ghost use Rattle.xpath_binding.specs.Names.{resolution};
ghost use Rattle.xpath_binding.specs.Scope.{outside_patterns};
ghost use Rattle.xpath_grammar.specs.Productions as rule;
ghost use Rattle.xpath_grammar.specs.declared.sign.Precedence.TheVariants as precedence;
ghost use Rattle.sheet_values.specs.Answers.{Answers};
ghost use Rattle.sheet_values.specs.Expressions as spec;
ghost use Rattle.sheet_values.specs.Refusals.{each, or_kind, unbound, unparsed};
ghost use Rattle.sheet_values.specs.TreeOf.{parts_of, tree_of};

use crate::stop::{ValueStop, stop_unbound, stop_unparsed};
use lists::List;
use sheet_elements::SheetKind;
use std::alloc::{AllocError, Global};
use xml_names::Scopes;
use xpath_binding::{bind, bind_pattern};
use xpath_parse::{expression, pattern, value_template};
use xpath_syntax::{Expr, LexError, Part, Pattern, Token, TokenKind, tokens};

fn read_expression(alloc: Global, text: &str) -> Result<Expr, ValueStop>
    ensures { Answers (or_kind unparsed (tree_of (rule.level precedence.Or) text.now)) result }
{
    match expression(alloc, text) {
        Ok(tree) => Ok(tree),
        Err(error) => Err(stop_unparsed(error)),
    }
}

fn bind_expression(alloc: Global, scopes: &Scopes, tree: Expr) -> Result<Expr, ValueStop>
    ensures { Answers (or_kind unbound (bound (outside_patterns (resolution scopes.now) None) tree)) result }
{
    match bind(alloc, tree, scopes, None) {
        Ok(bound) => Ok(bound),
        Err(error) => Err(stop_unbound(error)),
    }
}

/// An expression with its names bound. Costs O(length of the text) steps beside the look-ups of names.
#[tactic(auto, unfolding(crate::specs::Expressions::expression_of))]
pub fn expression_of(alloc: Global, scopes: &Scopes, text: &str) -> Result<Expr, ValueStop>
    ensures { Answers (spec.expression_of (resolution scopes.now) text.now) result }
{
    let tree = read_expression(alloc, text)?;
    bind_expression(alloc, scopes, tree)
}

fn read_pattern(alloc: Global, text: &str) -> Result<Pattern, ValueStop>
    ensures { Answers (or_kind unparsed (tree_of rule.pattern text.now)) result }
{
    match pattern(alloc, text) {
        Ok(tree) => Ok(tree),
        Err(error) => Err(stop_unparsed(error)),
    }
}

fn bind_tree(alloc: Global, scopes: &Scopes, tree: Pattern) -> Result<Pattern, ValueStop>
    ensures { Answers (or_kind unbound (bound_pattern (resolution scopes.now) tree)) result }
{
    match bind_pattern(alloc, tree, scopes) {
        Ok(bound) => Ok(bound),
        Err(error) => Err(stop_unbound(error)),
    }
}

fn is_variable(token: &Token) -> bool
    ensures { result ≡ spec.is_variable token.now }
{
    matches!(token.kind, TokenKind::Variable)
}

fn have_variable(tokens: &[Token]) -> bool
    ensures { result ≡ list_any spec.is_variable tokens.now }
{
    tokens.iter().any(|token| is_variable(token))
}

// Whether a variable is among the tokens of a text.
fn has_variable(alloc: Global, text: &str) -> Result<bool, AllocError>
    ensures { IfOk result (λ has. has ≡ spec.has_variable text.now) }
{
    match tokens(alloc, text) {
        Ok(tokens) => Ok(have_variable(tokens.as_slice())),
        Err(LexError::At(_)) => Ok(false),
        Err(LexError::Memory) => Err(AllocError),
    }
}

fn without_variable(alloc: Global, text: &str) -> Result<(), ValueStop>
    ensures { Answers (spec.without_variable text.now) result }
{
    if has_variable(alloc, text)? {
        Err(ValueStop::Refused(SheetKind::VariableInPattern))
    } else {
        Ok(())
    }
}

/// A pattern with its names bound and without a variable (XSLT 1.0, section 5.3). Costs as an expression does.
#[tactic(auto, unfolding(crate::specs::Expressions::pattern_of))]
pub fn pattern_of(alloc: Global, scopes: &Scopes, text: &str) -> Result<Pattern, ValueStop>
    ensures { Answers (spec.pattern_of (resolution scopes.now) text.now) result }
{
    let tree = read_pattern(alloc, text)?;
    let pattern = bind_tree(alloc, scopes, tree)?;
    without_variable(alloc, text)?;
    Ok(pattern)
}

fn read_template(alloc: Global, text: &str) -> Result<List<Part>, ValueStop>
    ensures { Answers (or_kind unparsed (parts_of text.now)) result }
{
    match value_template(alloc, text) {
        Ok(parts) => Ok(parts),
        Err(error) => Err(stop_unparsed(error)),
    }
}

fn bind_part(alloc: Global, scopes: &Scopes, part: Part) -> Result<Part, ValueStop>
    ensures { Answers (spec.bound_part (resolution scopes.now) part) result }
{
    match part {
        Part::Plain(text) => Ok(Part::Plain(text)),
        Part::Value(tree) => Ok(Part::Value(bind_expression(alloc, scopes, tree)?)),
    }
}

fn bind_parts(alloc: Global, scopes: &Scopes, parts: List<Part>) -> Result<List<Part>, ValueStop>
    ensures { Answers (each (spec.bound_part (resolution scopes.now)) parts) result }
{
    let mut bound = List::new(alloc);
    for part in parts.into_vec() {
        bound.push(bind_part(alloc, scopes, part)?)?;
    }
    Ok(bound)
}

/// An attribute value template with its names bound (XSLT 1.0, section 7.6.2). Costs as an expression does.
#[tactic(auto, unfolding(crate::specs::Expressions::template_of))]
pub fn template_of(alloc: Global, scopes: &Scopes, text: &str) -> Result<List<Part>, ValueStop>
    ensures { Answers (spec.template_of (resolution scopes.now) text.now) result }
{
    let parts = read_template(alloc, text)?;
    bind_parts(alloc, scopes, parts)
}
