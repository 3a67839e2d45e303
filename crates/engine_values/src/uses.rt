//! What becomes of the value of a variable.

ghost use Rattle.std.specs.Prelude.{[], ◌∷◌, ◌+◌, List};
ghost use Rattle.doc_model.specs.declared.step.Step.{Step};
ghost use Rattle.doc_model.specs.declared.strip_rule.StripRule.{StripRule};
ghost use Rattle.engine_core.specs.Holding.{Sound, scene, there};
ghost use Rattle.engine_core.specs.Moving.{Does};
ghost use Rattle.engine_core.specs.Standing.{stand_of, state_in};
ghost use Rattle.engine_core.specs.Weight.{use_weight};
ghost use Rattle.engine_values.specs.Finding.{FoundThere, uses_so, with_found};
ghost use Rattle.frames.specs.declared.frame.Frame.TheVariants as f;
ghost use Rattle.frames.specs.declared.parts.Purpose.TheVariants as purpose;
ghost use Rattle.key_sources.specs.Going.{Lookups};
ghost use Rattle.xpath_laws.specs.Sound.{IsValue};

use crate::found::Found;
use engine_core::Core;
use engine_questions::ItemStream;
use frames::{Frame, Handed, Purpose, Use};
use result_events::Buffer;
use std::alloc::Global;
use std::mem;
use xpath_meaning::EvalStop;
use xpath_values::Value;

/// Uses a value: as a local, as a value that is handed on, as that of a parameter or as that of a global. Fails only for
/// want of memory.
pub fn use_value<'s, S: ItemStream>(
    core: &mut Core<'s, S>,
    alloc: Global,
    value: Value,
    how: Use<'s>,
) -> Result<(), EvalStop>
    ensures { (lookups : Lookups) (rules : List StripRule) (steps : List Step) → Sound (scene S.walks S.follows lookups rules) steps (f.Apart [] (purpose.Value how.entry) ∷ core.old.frames) core.old → IsValue (there (scene S.walks S.follows lookups rules) steps) value → Does (scene S.walks S.follows lookups rules) steps (λ u. uses_so core.old.sheet.now u core.old.frames (stand_of core.old) (state_in core.old) how.entry value) (use_weight how.entry + 1) core.old core.new result }
{
    match how {
        Use::Local => core.locals.push(value)?,
        Use::Handed { name, mut passing } => {
            passing.given.push(Handed { name, value })?;
            core.frames.push(Frame::Params(passing))?;
        }
        Use::Declared(mut declaring) => {
            core.locals.push(value)?;
            declaring.begun = false;
            core.frames.push(Frame::Declared(declaring))?;
        }
        Use::Global { at, left } => {
            let at = at as usize;
            if at < core.globals.len() {
                core.globals.set(at, value);
            }
            core.frames.push(Frame::Globals { left, begun: false })?;
        }
    }
    Ok(())
}

/// Uses what was found for a variable; a body is run apart first. Fails only for want of memory.
pub fn give<'s, S: ItemStream>(
    core: &mut Core<'s, S>,
    alloc: Global,
    found: Found<'s>,
    how: Use<'s>,
) -> Result<(), EvalStop>
    ensures { (lookups : Lookups) (rules : List StripRule) (steps : List Step) → Sound (scene S.walks S.follows lookups rules) steps (f.Apart [] (purpose.Value how.entry) ∷ core.old.frames) core.old → FoundThere (scene S.walks S.follows lookups rules) steps found.entry → Does (scene S.walks S.follows lookups rules) steps (λ u. with_found found.entry core.old.sheet.now u core.old.frames (stand_of core.old) (state_in core.old) how.entry) (use_weight how.entry + 3) core.old core.new result }
{
    match found {
        Found::Value(value) => use_value(core, alloc, value, how),
        Found::Content(body) => {
            let inner = Buffer::start(alloc)?;
            let outer = mem::replace(&mut core.output, inner);
            core.frames.push(Frame::Apart {
                outer,
                purpose: Purpose::Value(how),
            })?;
            core.frames.push(Frame::Body {
                rest: body,
                begun: false,
                locals: core.locals.len(),
            })?;
            Ok(())
        }
    }
}
