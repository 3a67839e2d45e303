//! The nodes of selects.

ghost use Rattle.std.specs.Prelude.{◌≡◌, ◌∷◌, ◌++◌, OnOk};
ghost use Rattle.engine_core.specs.Holding.{scene_of};
ghost use Rattle.engine_questions.specs.Asking.{IsReady, Kept};
ghost use Rattle.engine_values.specs.Finding.{FindsSelection, select_frame, streams_in};

use engine_core::Core;
use engine_questions::{ItemStream, Questions};
use frames::{Frame, Work};
use lists::List;
use sheet_ast::SortDecl;
use std::alloc::{AllocError, Global};
use xpath_meaning::{Env, EvalStop};
use xpath_syntax::Expr;

/// What was found for a select.
#[derive(Drop)]
pub enum Selection<S> {
    /// Its nodes may be taken one by one.
    Stream(S),
    /// Its nodes, in document order.
    Nodes(List<u32>),
}

/// The nodes of a select at the current context: a stream of them, where they may be taken one by one and aren't sorted
/// (XSLT 1.0, sections 5.4, 8 and 10).
pub fn find_nodes<'s, S: ItemStream, Q: Questions<'s, S>>(
    core: &Core<'s, S>,
    alloc: Global,
    v: &mut Q,
    select: &'s Expr,
    sorts: &'s [SortDecl],
) -> Result<Selection<S>, EvalStop>
    requires { IsReady (Q.sees v.old) (Q.fits v.old) (core.now.globals ++ core.now.locals) core.now.context }
    ensures kept { Kept (Q.sees v.old) (Q.sees v.new) (Q.asked v.old) (Q.asked v.new) (Q.fits v.new) }
    ensures found { FindsSelection (scene_of S.walks S.follows (Q.asked v.old) (Q.sees v.old)) (Q.sees v.old).steps (Q.sees v.new).steps core.now select.entry sorts.entry result }
{
    let env = Env {
        globals: &core.globals,
        locals: &core.locals,
    };
    let stream = if sorts.is_empty() {
        v.stream(alloc, select, &core.context, &env)?
    } else {
        None
    };
    match stream {
        Some(stream) => Ok(Selection::Stream(stream)),
        None => Ok(Selection::Nodes(v.nodes(alloc, select, &core.context, &env)?)),
    }
}

/// Puts the frame that does some work at what was found on top, and its stream beside it. Fails only for want of memory.
pub fn lay<'s, S: Drop>(
    core: &mut Core<'s, S>,
    alloc: Global,
    found: Selection<S>,
    select: &'s Expr,
    sorts: &'s [SortDecl],
    work: Work<'s>,
) -> Result<(), AllocError>
    ensures { OnOk result (core.new ≡ record core.old { frames = select_frame found select.entry sorts.entry work.entry core.old.context ∷ core.old.frames; streams = core.old.streams ++ streams_in found }) }
{
    let context = core.context;
    let frame = match found {
        Selection::Stream(stream) => {
            core.streams.push(stream)?;
            Frame::Stream {
                select: Some(select),
                taken: 0,
                work,
                context,
            }
        }
        Selection::Nodes(nodes) if sorts.is_empty() => Frame::Items {
            nodes,
            next: 0,
            work,
            context,
        },
        Selection::Nodes(nodes) => Frame::Keys {
            nodes,
            rows: List::new(alloc),
            sorts,
            work,
            context,
        },
    };
    core.frames.push(frame)
}
