//! Instructions of bodies, one after the other.

ghost use Rattle.std.specs.Prelude.{true, false, ◌∷◌, List};
ghost use Rattle.doc_model.specs.declared.step.Step.{Step};
ghost use Rattle.doc_model.specs.declared.strip_rule.StripRule.{StripRule};
ghost use Rattle.engine_core.specs.Holding.{Ready, Sound, scene, scene_of};
ghost use Rattle.engine_core.specs.Moving.{Does, Goes};
ghost use Rattle.engine_core.specs.Standing.{left_with};
ghost use Rattle.engine_core.specs.Weight.{weight_of};
ghost use Rattle.engine_questions.specs.Asking.{Kept};
ghost use Rattle.frames.specs.declared.frame.Frame.TheVariants as f;
ghost use Rattle.key_sources.specs.Going.{Lookups};

use engine_core::{Core, cut_back};
use engine_instructions::act;
use engine_questions::{ItemStream, Questions};
use fault_kinds::FaultKind;
use frames::Frame;
use sheet_ast::Instruction;
use std::alloc::Global;
use xpath_meaning::EvalStop;

/// The next instruction of a body takes its unit of the budget; at the end of the body its locals end.
pub fn begin<'s, S: ItemStream + Drop>(
    core: &mut Core<'s, S>,
    rest: &'s [Instruction],
    kept: usize,
) -> Result<(), EvalStop>
    ensures { (lookups : Lookups) (rules : List StripRule) (steps : List Step) → Sound (scene S.walks S.follows lookups rules) steps (f.Body rest.entry false kept ∷ core.old.frames) core.old → Does (scene S.walks S.follows lookups rules) steps (left_with (f.Body rest.entry false kept ∷ core.old.frames) core.old) (weight_of (f.Body rest.entry false kept)) core.old core.new result }
{
    let Some((_first, _others)) = rest.split_first() else {
        cut_back(&mut core.locals, kept);
        return Ok(());
    };
    if core.budget == 0 {
        return Err(EvalStop::Fault(FaultKind::Budget));
    }
    core.budget -= 1;
    core.frames.push(Frame::Body {
        rest,
        begun: true,
        locals: kept,
    })?;
    Ok(())
}

/// The next instruction of a body, which has its unit, is done. Where it must wait the body is put back.
pub fn go_on<'s, S: ItemStream + Drop, Q: Questions<'s, S>>(
    core: &mut Core<'s, S>,
    alloc: Global,
    v: &mut Q,
    rest: &'s [Instruction],
    kept: usize,
) -> Result<(), EvalStop>
    requires { Ready S.walks S.follows (Q.asked v.old) (Q.sees v.old) (Q.fits v.old) (f.Body rest true kept ∷ core.old.frames) core.old }
    ensures kept { Kept (Q.sees v.old) (Q.sees v.new) (Q.asked v.old) (Q.asked v.new) (Q.fits v.new) }
    ensures goes { Goes (scene_of S.walks S.follows (Q.asked v.old) (Q.sees v.old)) (Q.sees v.old).steps (Q.sees v.new).steps (left_with (f.Body rest.entry true kept ∷ core.old.frames) core.old) (weight_of (f.Body rest.entry true kept)) core.old core.new result }
{
    let Some((first, others)) = rest.split_first() else {
        cut_back(&mut core.locals, kept);
        return Ok(());
    };
    match act(core, alloc, v, first, others, kept) {
        Ok(()) => Ok(()),
        Err(stop) => {
            core.frames.push(Frame::Body {
                rest,
                begun: true,
                locals: kept,
            })?;
            Err(stop)
        }
    }
}
