//! Bodies on top of the frames.

ghost use Rattle.std.specs.Prelude.{◌≡◌, false, [], ◌∷◌, length, OnOk};
ghost use Rattle.frames.specs.declared.frame.Frame.TheVariants as f;

use engine_core::Core;
use frames::{Frame, Purpose};
use result_events::Buffer;
use sheet_ast::Instruction;
use std::alloc::{AllocError, Global};
use std::mem;

/// Puts a body on top whose locals end with it. Fails only for want of memory.
pub fn push_body<'s, S: Drop>(
    core: &mut Core<'s, S>,
    body: &'s [Instruction],
) -> Result<(), AllocError>
    ensures { OnOk result (core.new ≡ record core.old { frames = f.Body body.entry false (length core.old.locals) ∷ core.old.frames }) }
{
    core.frames.push(Frame::Body {
        rest: body,
        begun: false,
        locals: core.locals.len(),
    })?;
    Ok(())
}

/// Puts the others of a body on top, and a body that is run apart before them: the events so far are kept until its end,
/// and it begins without any. Fails only for want of memory.
pub fn push_apart<'s, S: Drop>(
    core: &mut Core<'s, S>,
    alloc: Global,
    body: &'s [Instruction],
    purpose: Purpose<'s>,
    others: &'s [Instruction],
    kept: usize,
) -> Result<(), AllocError>
    ensures { OnOk result (core.new ≡ record core.old { frames = f.Body body.entry false (length core.old.locals) ∷ f.Apart core.old.output purpose.entry ∷ f.Body others.entry false kept ∷ core.old.frames; output = [] }) }
{
    let inner = Buffer::start(alloc)?;
    core.frames.push(Frame::Body {
        rest: others,
        begun: false,
        locals: kept,
    })?;
    let outer = mem::replace(&mut core.output, inner);
    core.frames.push(Frame::Apart { outer, purpose })?;
    push_body(core, body)
}
