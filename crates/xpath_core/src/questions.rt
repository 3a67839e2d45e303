//! An expression as a boolean and as a string (XPath 1.0, sections 4.2 and 4.3).

ghost use Rattle.std.specs.Prelude.{◌≡◌};
ghost use Rattle.key_sources.specs.Going.{Says, Went};
ghost use Rattle.xpath_core.specs.Asked as asked;
ghost use Rattle.xpath_core.specs.Ready.{IsReady};
ghost use Rattle.xpath_meaning.specs.Evaluation.{meant};
ghost use Rattle.xpath_meaning.specs.Meanings.{text_at, truth_at};
ghost use Rattle.xpath_meaning.specs.Readings.{values_of};

use crate::evaluation::operand;
use doc_model::NodeView;
use key_sources::KeySource;
use lists::List;
use std::alloc::Global;
use xpath_meaning::{Context, Env, EvalStop};
use xpath_operations::{Operand, OperandKind};
use xpath_syntax::Expr;

/// Whether an expression is true, as by `boolean`. Of a path whose nodes may be taken one by one nothing is evaluated behind
/// its first node. What stops it is as for `eval`.
pub fn truth<V: NodeView, K: KeySource<V>>(
    alloc: Global,
    view: &mut V,
    keys: &mut K,
    e: &Expr,
    ctx: &Context,
    env: &Env,
) -> Result<bool, EvalStop>
    requires { IsReady (V.sees view.old) (K.fits keys.old) (values_of env.now) ctx.now }
    ensures went { Went (V.sees view.old) (V.sees view.new) (K.made keys.old) (K.made keys.new) (K.fits keys.new) }
    ensures answers { Says (K.made keys.old).lookups (λ R. truth_at (meant e.now) R (values_of env.now) ctx.now) (V.sees view.old) (V.sees view.new) result }
{
    let x = operand(alloc, view, keys, OperandKind::Truth, e, ctx, env)?;
    Ok(truth_in(x))
}

/// The string of an expression in UTF-8, as by `string`. Of a path whose nodes may be taken one by one nothing is evaluated
/// behind its first node. What stops it is as for `eval`.
pub fn text<V: NodeView, K: KeySource<V>>(
    alloc: Global,
    view: &mut V,
    keys: &mut K,
    e: &Expr,
    ctx: &Context,
    env: &Env,
) -> Result<List<u8>, EvalStop>
    requires { IsReady (V.sees view.old) (K.fits keys.old) (values_of env.now) ctx.now }
    ensures went { Went (V.sees view.old) (V.sees view.new) (K.made keys.old) (K.made keys.new) (K.fits keys.new) }
    ensures answers { Says (K.made keys.old).lookups (λ R. text_at (meant e.now) R (values_of env.now) ctx.now) (V.sees view.old) (V.sees view.new) result }
{
    let x = operand(alloc, view, keys, OperandKind::Text, e, ctx, env)?;
    Ok(text_in(alloc, x))
}

fn truth_in(x: Operand) -> bool
    ensures { result ≡ asked.truth_in x }
{
    match x {
        Operand::Truth(b) => b,
        Operand::Number(_) => false,
        Operand::Nodes(_) => false,
        Operand::Whole(_) => false,
        Operand::Text(_) => false,
        Operand::Name => false,
    }
}

fn text_in(alloc: Global, x: Operand) -> List<u8>
    ensures { result ≡ asked.text_in x }
{
    match x {
        Operand::Text(bytes) => bytes,
        Operand::Truth(_) => List::new(alloc),
        Operand::Number(_) => List::new(alloc),
        Operand::Nodes(_) => List::new(alloc),
        Operand::Whole(_) => List::new(alloc),
        Operand::Name => List::new(alloc),
    }
}
