//! Moves, one after the other.

ghost use Rattle.std.specs.Prelude.{◌≡◌, ◌∷◌};
ghost use Rattle.engine_core.specs.Holding.{Ready, scene_of};
ghost use Rattle.engine_core.specs.Moving.{Goes};
ghost use Rattle.engine_core.specs.Standing.{left_with};
ghost use Rattle.engine_core.specs.Weight.{weight_of};
ghost use Rattle.engine_questions.specs.Asking.{Kept};
ghost use Rattle.template_engine.specs.Steps.{Runs, Steps};

use crate::bodies::{begin, go_on};
use engine_core::Core;
use engine_frames::{
    children, choose, close, copies, declared, globals, items, keys, literal, params, receive,
    stream, whens,
};
use engine_questions::{ItemStream, Questions};
use frames::Frame;
use std::alloc::Global;
use xpath_meaning::EvalStop;

/// The move of a frame that was on top. Where it must wait the frame is put back.
fn go<'s, S: ItemStream + Drop, Q: Questions<'s, S>>(
    core: &mut Core<'s, S>,
    alloc: Global,
    v: &mut Q,
    frame: Frame<'s>,
) -> Result<(), EvalStop>
    requires ready { Ready S.walks S.follows (Q.asked v.old) (Q.sees v.old) (Q.fits v.old) (frame ∷ core.old.frames) core.old }
    requires rules { (Q.asked v.old).rules ≡ core.old.sheet.now.rules }
    ensures kept { Kept (Q.sees v.old) (Q.sees v.new) (Q.asked v.old) (Q.asked v.new) (Q.fits v.new) }
    ensures goes { Goes (scene_of S.walks S.follows (Q.asked v.old) (Q.sees v.old)) (Q.sees v.old).steps (Q.sees v.new).steps (left_with (frame.entry ∷ core.old.frames) core.old) (weight_of frame.entry) core.old core.new result }
{
    match frame {
        Frame::Template { locals, context } => {
            core.locals = locals;
            core.context = context;
            Ok(())
        }
        Frame::Body {
            rest,
            begun: false,
            locals,
        } => begin(core, rest, locals),
        Frame::Body {
            rest,
            begun: true,
            locals,
        } => go_on(core, alloc, v, rest, locals),
        Frame::Close => close(core, alloc),
        Frame::Literal { attributes, body } => literal(core, alloc, v, attributes, body),
        Frame::Whens {
            whens: tests,
            otherwise,
        } => whens(core, alloc, v, tests, otherwise),
        Frame::Params(passing) => params(core, alloc, v, passing),
        Frame::Choose { mode, given } => choose(core, alloc, v, mode, given),
        Frame::Declared(declaring) => declared(core, alloc, v, declaring),
        Frame::Stream {
            select,
            taken,
            work,
            context,
        } => stream(core, alloc, v, select, taken, work, context),
        Frame::Items {
            nodes,
            next,
            work,
            context,
        } => items(core, alloc, nodes, next, work, context),
        Frame::Children { mode } => children(core, alloc, v, mode),
        Frame::Keys {
            nodes,
            rows,
            sorts,
            work,
            context,
        } => keys(core, alloc, v, nodes, rows, sorts, work, context),
        Frame::Copies { nodes, next } => copies(core, alloc, v, nodes, next),
        Frame::Apart { outer, purpose } => receive(core, alloc, outer, purpose),
        Frame::Globals { left, begun } => globals(core, alloc, v, left, begun),
    }
}

/// Does the next move. False where nothing is left.
fn step<'s, S: ItemStream + Drop, Q: Questions<'s, S>>(
    core: &mut Core<'s, S>,
    alloc: Global,
    v: &mut Q,
) -> Result<bool, EvalStop>
    requires ready { Ready S.walks S.follows (Q.asked v.old) (Q.sees v.old) (Q.fits v.old) core.old.frames core.old }
    requires rules { (Q.asked v.old).rules ≡ core.old.sheet.now.rules }
    ensures kept { Kept (Q.sees v.old) (Q.sees v.new) (Q.asked v.old) (Q.asked v.new) (Q.fits v.new) }
    ensures steps { Steps (scene_of S.walks S.follows (Q.asked v.old) (Q.sees v.old)) (Q.sees v.old).steps (Q.sees v.new).steps core.old core.new result }
{
    let Some(frame) = core.frames.pop() else {
        return Ok(false);
    };
    go(core, alloc, v, frame)?;
    Ok(true)
}

/// Does moves until nothing is left, or one stops.
pub fn run<'s, S: ItemStream + Drop, Q: Questions<'s, S>>(
    core: &mut Core<'s, S>,
    alloc: Global,
    v: &mut Q,
) -> Result<(), EvalStop>
    requires ready { Ready S.walks S.follows (Q.asked v.old) (Q.sees v.old) (Q.fits v.old) core.old.frames core.old }
    requires rules { (Q.asked v.old).rules ≡ core.old.sheet.now.rules }
    ensures kept { Kept (Q.sees v.old) (Q.sees v.new) (Q.asked v.old) (Q.asked v.new) (Q.fits v.new) }
    ensures runs { Runs (scene_of S.walks S.follows (Q.asked v.old) (Q.sees v.old)) (Q.sees v.old).steps (Q.sees v.new).steps core.old core.new result }
{
    while step(core, alloc, v)? {}
    Ok(())
}
