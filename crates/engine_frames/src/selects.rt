//! Items of selects, one after the other, and nodes that are copied.

ghost use Rattle.std.specs.Prelude.{◌≡◌, ◌≤◌, ◌∷◌, List, length, map, IfOk};
ghost use Rattle.doc_model.specs.declared.step.Step.{Step};
ghost use Rattle.doc_model.specs.declared.strip_rule.StripRule.{StripRule};
ghost use Rattle.engine_core.specs.Holding.{Ready, Sound, scene, scene_of};
ghost use Rattle.engine_core.specs.Moving.{Does, Goes};
ghost use Rattle.engine_core.specs.Standing.{left_with};
ghost use Rattle.engine_core.specs.Weight.{weight_of};
ghost use Rattle.engine_frames.specs.Items.{first_frame};
ghost use Rattle.engine_meaning.specs.Places.{at_item};
ghost use Rattle.engine_meaning.specs.Sorts.{how_of, in_key_order, node_in};
ghost use Rattle.engine_questions.specs.Asking.{Kept};
ghost use Rattle.frames.specs.declared.frame.Frame.TheVariants as f;
ghost use Rattle.key_sources.specs.Going.{Lookups};

use engine_core::{Core, copy_given};
use engine_questions::{ItemStream, Questions};
use frames::{Frame, Work};
use lists::List;
use sheet_ast::SortDecl;
use sort_keys::{How, KeyRow, order};
use std::alloc::{AllocError, Global};
use value_templates::key_row;
use xpath_meaning::{Context, Env, EvalStop, Size};
use xpath_syntax::Expr;

/// The next of the items of a select that are known whole: its work, with the item as the current node (XSLT 1.0,
/// sections 5.4 and 8). Behind the last the context is again that of the select. Fails only for want of memory.
pub fn items<'s, S: ItemStream>(
    core: &mut Core<'s, S>,
    alloc: Global,
    nodes: List<u32>,
    next: usize,
    work: Work<'s>,
    context: Context,
) -> Result<(), EvalStop>
    ensures { (lookups : Lookups) (rules : List StripRule) (steps : List Step) → Sound (scene S.walks S.follows lookups rules) steps (f.Items nodes next work.entry context ∷ core.old.frames) core.old → Does (scene S.walks S.follows lookups rules) steps (left_with (f.Items nodes next work.entry context ∷ core.old.frames) core.old) (weight_of (f.Items nodes next work.entry context)) core.old core.new result }
{
    let Some(node) = nodes.get(next) else {
        core.context = context;
        return Ok(());
    };
    let item = item_of(*node, next as u64 + 1, Size::Known(nodes.len() as u64));
    let first = first_frame(alloc, &work, core.locals.len())?;
    core.frames.push(Frame::Items {
        nodes,
        next: next + 1,
        work,
        context,
    })?;
    core.frames.push(first)?;
    core.context = item;
    Ok(())
}

/// The next node of a select whose nodes are taken one by one: its work, with the node as the current node (XSLT 1.0,
/// sections 5.4 and 8). Behind the last the stream is let go, and the context is again that of the select. A stream that
/// has a fault ends the transformation; where a row must be shut first, the frame is on top again.
pub fn stream<'s, S: ItemStream + Drop, Q: Questions<'s, S>>(
    core: &mut Core<'s, S>,
    alloc: Global,
    v: &mut Q,
    select: Option<&'s Expr>,
    taken: u64,
    work: Work<'s>,
    context: Context,
) -> Result<(), EvalStop>
    requires { Ready S.walks S.follows (Q.asked v.old) (Q.sees v.old) (Q.fits v.old) (f.Stream select taken work context ∷ core.old.frames) core.old }
    ensures kept { Kept (Q.sees v.old) (Q.sees v.new) (Q.asked v.old) (Q.asked v.new) (Q.fits v.new) }
    ensures goes { Goes (scene_of S.walks S.follows (Q.asked v.old) (Q.sees v.old)) (Q.sees v.old).steps (Q.sees v.new).steps (left_with (f.Stream select.entry taken work.entry context ∷ core.old.frames) core.old) (weight_of (f.Stream select.entry taken work.entry context)) core.old core.new result }
{
    let Some(mut stream) = core.streams.pop() else {
        return Err(EvalStop::Memory);
    };
    let env = Env {
        globals: &core.globals,
        locals: &core.locals,
    };
    match v.next(alloc, &mut stream, &env) {
        Ok(Some(node)) => {
            let first = first_frame(alloc, &work, core.locals.len())?;
            core.streams.push(stream)?;
            core.frames.push(Frame::Stream {
                select,
                taken: taken + 1,
                work,
                context,
            })?;
            core.frames.push(first)?;
            core.context = item_of(node, taken + 1, Size::Unasked);
            Ok(())
        }
        Ok(None) => {
            core.context = context;
            Ok(())
        }
        Err(stop) => {
            core.streams.push(stream)?;
            core.frames.push(Frame::Stream {
                select,
                taken,
                work,
                context,
            })?;
            Err(stop)
        }
    }
}

/// The sort keys of the next of the items of a select that is sorted; and behind the last, the items in the order of their
/// keys (XSLT 1.0, section 10). A key that has a fault ends the transformation; where a row must be shut first, the frame
/// is on top again.
pub fn keys<'s, S: ItemStream, Q: Questions<'s, S>>(
    core: &mut Core<'s, S>,
    alloc: Global,
    v: &mut Q,
    nodes: List<u32>,
    mut rows: List<KeyRow>,
    sorts: &'s [SortDecl],
    work: Work<'s>,
    context: Context,
) -> Result<(), EvalStop>
    requires { Ready S.walks S.follows (Q.asked v.old) (Q.sees v.old) (Q.fits v.old) (f.Keys nodes rows sorts work context ∷ core.old.frames) core.old }
    ensures kept { Kept (Q.sees v.old) (Q.sees v.new) (Q.asked v.old) (Q.asked v.new) (Q.fits v.new) }
    ensures goes { Goes (scene_of S.walks S.follows (Q.asked v.old) (Q.sees v.old)) (Q.sees v.old).steps (Q.sees v.new).steps (left_with (f.Keys nodes rows sorts.entry work.entry context ∷ core.old.frames) core.old) (weight_of (f.Keys nodes rows sorts.entry work.entry context)) core.old core.new result }
{
    let Some(node) = nodes.get(rows.len()) else {
        // No document has so many nodes.
        if rows.len() > 4294967296 {
            return Err(EvalStop::Memory);
        }
        let nodes = in_key_order(alloc, nodes.as_slice(), rows.as_slice(), sorts)?;
        core.frames.push(Frame::Items {
            nodes,
            next: 0,
            work,
            context,
        })?;
        return Ok(());
    };
    let item = item_of(
        *node,
        rows.len() as u64 + 1,
        Size::Known(nodes.len() as u64),
    );
    let env = Env {
        globals: &core.globals,
        locals: &core.locals,
    };
    match key_row(alloc, v, sorts, &item, &env) {
        Ok(row) => {
            rows.push(row)?;
            core.frames.push(Frame::Keys {
                nodes,
                rows,
                sorts,
                work,
                context,
            })?;
            Ok(())
        }
        Err(stop) => {
            core.frames.push(Frame::Keys {
                nodes,
                rows,
                sorts,
                work,
                context,
            })?;
            Err(stop)
        }
    }
}

/// Copies the next of some nodes, once it is shut (XSLT 1.0, section 11.3). A node whose copy has a fault ends the
/// transformation; where a row must be shut first, the frame is on top again.
pub fn copies<'s, S: ItemStream, Q: Questions<'s, S>>(
    core: &mut Core<'s, S>,
    alloc: Global,
    v: &mut Q,
    nodes: List<u32>,
    next: usize,
) -> Result<(), EvalStop>
    requires { Ready S.walks S.follows (Q.asked v.old) (Q.sees v.old) (Q.fits v.old) (f.Copies nodes next ∷ core.old.frames) core.old }
    ensures kept { Kept (Q.sees v.old) (Q.sees v.new) (Q.asked v.old) (Q.asked v.new) (Q.fits v.new) }
    ensures goes { Goes (scene_of S.walks S.follows (Q.asked v.old) (Q.sees v.old)) (Q.sees v.old).steps (Q.sees v.new).steps (left_with (f.Copies nodes next ∷ core.old.frames) core.old) (weight_of (f.Copies nodes next)) core.old core.new result }
{
    let Some(node) = nodes.get(next) else {
        return Ok(());
    };
    match v.copy(alloc, *node) {
        Ok(events) => {
            core.output.append(alloc, events)?;
            core.frames.push(Frame::Copies {
                nodes,
                next: next + 1,
            })?;
            Ok(())
        }
        Err(stop) => {
            core.frames.push(Frame::Copies { nodes, next })?;
            Err(stop)
        }
    }
}

// The context of an item, which is the current node.
fn item_of(node: u32, position: u64, size: Size) -> Context
    ensures { result ≡ at_item size position node }
{
    Context {
        node,
        position,
        size,
        current: node,
    }
}

// The frame that the work at an item begins with, where so many locals stand.
fn first_frame<'s>(alloc: Global, work: &Work<'s>, locals: usize) -> Result<Frame<'s>, AllocError>
    ensures { IfOk result (λ frame. frame ≡ first_frame work.now locals) }
{
    match work {
        Work::ByMode { mode, given } => Ok(Frame::Choose {
            mode: *mode,
            given: copy_given(alloc, given.as_slice())?,
        }),
        Work::ByBody(body) => Ok(Frame::Body {
            rest: *body,
            begun: false,
            locals,
        }),
    }
}

// Nodes in the order of their sort keys, a row of keys for each.
fn in_key_order(
    alloc: Global,
    nodes: &[u32],
    rows: &[KeyRow],
    sorts: &[SortDecl],
) -> Result<List<u32>, AllocError>
    requires { length rows.now ≤ 4294967296 }
    ensures { IfOk result (λ ordered. ordered ≡ in_key_order sorts.now nodes.now rows.now) }
{
    let hows = hows_of(alloc, sorts)?;
    let places = order(alloc, rows, hows.as_slice())?;
    nodes_in(alloc, nodes, places.as_slice())
}

fn nodes_in(alloc: Global, nodes: &[u32], places: &[u32]) -> Result<List<u32>, AllocError>
    ensures { IfOk result (λ found. found ≡ map (node_in nodes.now) places.now) }
{
    let mut found = List::new(alloc);
    for place in places {
        found.push(node_in(nodes, *place))?;
    }
    Ok(found)
}

fn hows_of(alloc: Global, sorts: &[SortDecl]) -> Result<List<How>, AllocError>
    ensures { IfOk result (λ hows. hows ≡ map how_of sorts.now) }
{
    let mut hows = List::new(alloc);
    for sort in sorts {
        hows.push(How {
            number: sort.number,
            descending: sort.descending,
        })?;
    }
    Ok(hows)
}

fn node_in(nodes: &[u32], place: u32) -> u32
    ensures { result ≡ node_in nodes.now place }
{
    match nodes.get(place as usize) {
        Some(node) => *node,
        None => 0,
    }
}
