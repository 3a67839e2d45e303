//! Instructions that choose.

ghost use Rattle.std.specs.Prelude.{false, ◌∷◌, List, map};
ghost use Rattle.doc_model.specs.declared.step.Step.{Step};
ghost use Rattle.doc_model.specs.declared.strip_rule.StripRule.{StripRule};
ghost use Rattle.engine_core.specs.Holding.{Ready, Sound, scene, scene_of};
ghost use Rattle.engine_core.specs.Moving.{Does, Tries};
ghost use Rattle.engine_core.specs.Standing.{stand_of, state_in};
ghost use Rattle.engine_meaning.specs.Execution.{case_of, does};
ghost use Rattle.engine_questions.specs.Asking.{Kept};
ghost use Rattle.frame_meaning.specs.Acted.{acted};
ghost use Rattle.frame_meaning.specs.Work.{bodies_of};
ghost use Rattle.frames.specs.declared.frame.Frame.TheVariants as f;
ghost use Rattle.key_sources.specs.Going.{Lookups};
ghost use Rattle.sheet_ast.specs.declared.instruction.Instruction.TheOpen.{Instruction-F};

use crate::bodies::push_body;
use engine_core::Core;
use engine_questions::{ItemStream, Questions};
use frames::Frame;
use sheet_ast::{Instruction, When};
use std::alloc::Global;
use xpath_meaning::{Env, EvalStop};
use xpath_syntax::Expr;

/// xsl:if (XSLT 1.0, section 9.1).
pub fn if_true<'s, S: ItemStream + Drop, Q: Questions<'s, S>>(
    core: &mut Core<'s, S>,
    alloc: Global,
    v: &mut Q,
    test: &Expr,
    body: &'s [Instruction],
    others: &'s [Instruction],
    kept: usize,
) -> Result<(), EvalStop>
    requires { Ready S.walks S.follows (Q.asked v.old) (Q.sees v.old) (Q.fits v.old) (f.Body others false kept ∷ core.old.frames) core.old }
    ensures kept { Kept (Q.sees v.old) (Q.sees v.new) (Q.asked v.old) (Q.asked v.new) (Q.fits v.new) }
    ensures tries { Tries (scene_of S.walks S.follows (Q.asked v.old) (Q.sees v.old)) (Q.sees v.old).steps (Q.sees v.new).steps (λ u. acted core.old.sheet.now u (Instruction-F.If test.now (map does body.now)) others.entry kept core.old.frames (stand_of core.old) (state_in core.old)) 73786976294838206464 core.old core.new result }
{
    let env = Env {
        globals: &core.globals,
        locals: &core.locals,
    };
    let holds = v.truth(alloc, test, &core.context, &env)?;
    core.frames.push(Frame::Body {
        rest: others,
        begun: false,
        locals: kept,
    })?;
    if holds {
        push_body(core, body)?;
    }
    Ok(())
}

/// xsl:choose (XSLT 1.0, section 9.2): its tests are left to a frame.
pub fn choose<'s, S: ItemStream + Drop>(
    core: &mut Core<'s, S>,
    whens: &'s [When],
    otherwise: Option<&'s [Instruction]>,
    others: &'s [Instruction],
    kept: usize,
) -> Result<(), EvalStop>
    ensures { (lookups : Lookups) (rules : List StripRule) (steps : List Step) → Sound (scene S.walks S.follows lookups rules) steps (f.Body others.entry false kept ∷ core.old.frames) core.old → Does (scene S.walks S.follows lookups rules) steps (λ u. acted core.old.sheet.now u (Instruction-F.Choose (map case_of whens.now) (bodies_of otherwise.entry)) others.entry kept core.old.frames (stand_of core.old) (state_in core.old)) 73786976294838206464 core.old core.new result }
{
    core.frames.push(Frame::Body {
        rest: others,
        begun: false,
        locals: kept,
    })?;
    core.frames.push(Frame::Whens { whens, otherwise })?;
    Ok(())
}
