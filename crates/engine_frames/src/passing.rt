//! Bodies that were run apart, globals, and values that are handed on.

ghost use Rattle.std.specs.Prelude.{◌≡◌, ◌∷◌, ◌<◌, List, IfOk};
ghost use Rattle.doc_model.specs.declared.step.Step.{Step};
ghost use Rattle.doc_model.specs.declared.strip_rule.StripRule.{StripRule};
ghost use Rattle.engine_core.specs.Holding.{Ready, Sound, scene, scene_of};
ghost use Rattle.engine_core.specs.Moving.{Does, Goes};
ghost use Rattle.engine_core.specs.Standing.{left_with, stand_of, state_in};
ghost use Rattle.engine_core.specs.Weight.{weight_of};
ghost use Rattle.engine_frames.specs.Opening.{opening_so};
ghost use Rattle.engine_frames.specs.Texts.{depth_behind, text_here};
ghost use Rattle.engine_meaning.specs.Events.{outer_text};
ghost use Rattle.engine_meaning.specs.Execution.{Called};
ghost use Rattle.engine_questions.specs.Asking.{Kept};
ghost use Rattle.frame_meaning.specs.Uses.{givens};
ghost use Rattle.frames.specs.declared.frame.Frame.TheVariants as f;
ghost use Rattle.key_sources.specs.Going.{Lookups};
ghost use Rattle.xpath_meaning.specs.Keys.{alone};

use crate::templates::open_template;
use engine_core::Core;
use engine_questions::{ItemStream, Questions};
use engine_values::{find_nodes, find_value, give, lay, use_value};
use fault_kinds::FaultKind;
use frames::{Call, Frame, Handed, Passing, Purpose, Use, Work};
use lists::List;
use result_events::{Buffer, Events, ResultEvent};
use std::alloc::{AllocError, Global};
use std::mem;
use xpath_meaning::{Context, EvalStop, Size};
use xpath_values::{Value, fragment_text};

/// The end of a body that was run apart: what becomes of its events, and the events outside it go on. A message that
/// terminates is told and then is the fault Terminated (XSLT 1.0, section 13). Else fails only for want of memory.
pub fn receive<'s, S: ItemStream>(
    core: &mut Core<'s, S>,
    alloc: Global,
    outer: Buffer,
    purpose: Purpose<'s>,
) -> Result<(), EvalStop>
    ensures { (lookups : Lookups) (rules : List StripRule) (steps : List Step) → Sound (scene S.walks S.follows lookups rules) steps (f.Apart outer purpose.entry ∷ core.old.frames) core.old → Does (scene S.walks S.follows lookups rules) steps (left_with (f.Apart outer purpose.entry ∷ core.old.frames) core.old) (weight_of (f.Apart outer purpose.entry)) core.old core.new result }
{
    let made = mem::replace(&mut core.output, outer).into_events();
    match purpose {
        Purpose::Value(how) => use_value(core, alloc, Value::Fragment(made), how),
        Purpose::Attribute(name) => {
            let value = outer_text(alloc, &made)?;
            core.output.push(alloc, ResultEvent::Attr { name, value })?;
            Ok(())
        }
        Purpose::Processing(target) => {
            let value = outer_text(alloc, &made)?;
            core.output
                .push(alloc, ResultEvent::Instruction { target, value })?;
            Ok(())
        }
        Purpose::Comment => {
            let text = outer_text(alloc, &made)?;
            core.output.push(alloc, ResultEvent::Comment(text))?;
            Ok(())
        }
        Purpose::Message { terminate } => {
            let Ok(text) = fragment_text(alloc, &made) else {
                return Err(EvalStop::Memory);
            };
            core.messages.push(text)?;
            if terminate {
                return Err(EvalStop::Fault(FaultKind::Terminated));
            }
            Ok(())
        }
    }
}

/// The next of the globals (XSLT 1.0, section 11.4), at the root without locals: first its unit of the budget, without
/// which this is the fault Budget, and then its value. A place where no global is, is passed over. Where a row must be
/// shut first, the frame is on top again.
pub fn globals<'s, S: ItemStream, Q: Questions<'s, S>>(
    core: &mut Core<'s, S>,
    alloc: Global,
    v: &mut Q,
    left: &'s [u32],
    begun: bool,
) -> Result<(), EvalStop>
    requires { Ready S.walks S.follows (Q.asked v.old) (Q.sees v.old) (Q.fits v.old) (f.Globals left begun ∷ core.old.frames) core.old }
    ensures kept { Kept (Q.sees v.old) (Q.sees v.new) (Q.asked v.old) (Q.asked v.new) (Q.fits v.new) }
    ensures goes { Goes (scene_of S.walks S.follows (Q.asked v.old) (Q.sees v.old)) (Q.sees v.old).steps (Q.sees v.new).steps (left_with (f.Globals left.entry begun ∷ core.old.frames) core.old) (weight_of (f.Globals left.entry begun)) core.old core.new result }
{
    core.context = root_context();
    core.locals = List::new(alloc);
    let Some((at, more)) = left.split_first() else {
        return Ok(());
    };
    let sheet = core.sheet;
    let Some(global) = sheet.globals.get(*at as usize) else {
        core.frames.push(Frame::Globals {
            left: more,
            begun: false,
        })?;
        return Ok(());
    };
    if !begun {
        if core.budget == 0 {
            return Err(EvalStop::Fault(FaultKind::Budget));
        }
        core.budget -= 1;
        core.frames.push(Frame::Globals { left, begun: true })?;
        return Ok(());
    }
    match find_value(core, alloc, v, &global.value) {
        Ok(found) => give(
            core,
            alloc,
            found,
            Use::Global {
                at: *at,
                left: more,
            },
        ),
        Err(stop) => {
            core.frames.push(Frame::Globals { left, begun: true })?;
            Err(stop)
        }
    }
}

/// The next of the values that are handed on; and behind the last of them, what they are handed on to: the templates of
/// the items of a select, or one template of the sheet (XSLT 1.0, sections 5.4, 6 and 11.6). Where a row must be shut
/// first, the frame is on top again.
pub fn params<'s, S: ItemStream + Drop, Q: Questions<'s, S>>(
    core: &mut Core<'s, S>,
    alloc: Global,
    v: &mut Q,
    passing: Passing<'s>,
) -> Result<(), EvalStop>
    requires { Ready S.walks S.follows (Q.asked v.old) (Q.sees v.old) (Q.fits v.old) (f.Params passing ∷ core.old.frames) core.old }
    ensures kept { Kept (Q.sees v.old) (Q.sees v.new) (Q.asked v.old) (Q.asked v.new) (Q.fits v.new) }
    ensures goes { Goes (scene_of S.walks S.follows (Q.asked v.old) (Q.sees v.old)) (Q.sees v.old).steps (Q.sees v.new).steps (left_with (f.Params passing.entry ∷ core.old.frames) core.old) (weight_of (f.Params passing.entry)) core.old core.new result }
{
    let Passing { call, left, given } = passing;
    if let Some((first, more)) = left.split_first() {
        return match find_value(core, alloc, v, &first.value) {
            Ok(found) => {
                let passing = Passing {
                    call,
                    left: more,
                    given,
                };
                let name = &first.name;
                give(core, alloc, found, Use::Handed { name, passing })
            }
            Err(stop) => {
                core.frames
                    .push(Frame::Params(Passing { call, left, given }))?;
                Err(stop)
            }
        };
    }
    match call {
        Call::Apply {
            select,
            mode,
            sorts,
        } => match find_nodes(core, alloc, v, select, sorts) {
            Ok(found) => {
                let work = Work::ByMode { mode, given };
                lay(core, alloc, found, select, sorts, work)?;
                Ok(())
            }
            Err(stop) => {
                core.frames
                    .push(Frame::Params(Passing { call, left, given }))?;
                Err(stop)
            }
        },
        Call::Template(at) => open_template(core, alloc, at, given),
    }
}

// The root by itself, which is the current node.
fn root_context() -> Context
    ensures { result ≡ alone 0 }
{
    Context {
        node: 0,
        position: 1,
        size: Size::Known(1),
        current: 0,
    }
}

// The texts outside elements, one after the other.
fn outer_text(alloc: Global, events: &Events) -> Result<List<u8>, AllocError>
    ensures { IfOk result (λ text. text ≡ outer_text events.now) }
{
    let mut text = List::new(alloc);
    let mut depth = 0;
    for event in events.as_slice() {
        text.extend_from_slice(text_here(depth, event))?;
        depth = depth_behind(depth, event);
    }
    Ok(text)
}

fn text_here(depth: usize, event: &ResultEvent) -> &[u8]
    ensures { result.now ≡ text_here depth event.now }
{
    match event {
        ResultEvent::Text(text) => { if depth == 0 { text.as_slice() } else { &[] } }
        _ => &[],
    }
}

fn depth_behind(depth: usize, event: &ResultEvent) -> usize
    requires { depth < 18446744073709551615 }
    ensures { result ≡ depth_behind depth event.now }
{
    match event {
        ResultEvent::Start(_) => depth + 1,
        ResultEvent::End => depth.saturating_sub(1),
        _ => depth,
    }
}
