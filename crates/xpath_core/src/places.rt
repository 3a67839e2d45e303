//! Where steps and predicates are evaluated.

ghost use Rattle.std.specs.Prelude.{◌≡◌, ◌++◌, [], length, OnOk, OnErr};
ghost use Rattle.xpath_meaning.specs.declared.context.Size.TheVariants as size;
ghost use Rattle.xpath_meaning.specs.Evaluation.{meant_path};
ghost use Rattle.xpath_meaning.specs.Meanings as meanings;
ghost use Rattle.xpath_meaning.specs.Outcome.{with_if};
ghost use Rattle.xpath_meaning.specs.Steps as steps;

use lists::List;
use std::alloc::AllocError;
use xpath_meaning::{Context, Size};
use xpath_syntax::Path;

/// The context at another node, with the same current node.
pub(crate) fn at_node(ctx: &Context, size: Size, position: u64, n: u32) -> Context
    ensures { result ≡ meanings.at_node ctx.now size position n }
{
    Context {
        node: n,
        position,
        size,
        current: ctx.current,
    }
}

/// Where a path begins: at the root or at the context node.
pub(crate) fn start_of(path: &Path, ctx: &Context) -> u32
    ensures { result ≡ steps.start_of (meant_path path.now) ctx.now }
{
    if path.absolute { 0 } else { ctx.node }
}

/// How many nodes a predicate is evaluated at.
pub(crate) fn size_of(nodes: &[u32]) -> Size
    ensures { result ≡ size.Known (length nodes.now) }
{
    Size::Known(nodes.len() as u64)
}

/// Adds a node at which a predicate holds.
pub(crate) fn keep_if(kept: &mut List<u32>, here: bool, n: u32) -> Result<(), AllocError>
    ensures ok { OnOk result (kept.new ≡ kept.old ++ with_if here n []) }
    ensures err { OnErr result (kept.new ≡ kept.old) }
{
    if here {
        kept.push(n)?;
    }
    Ok(())
}
