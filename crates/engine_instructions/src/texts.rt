//! Texts and values.

ghost use Rattle.std.specs.Prelude.{false, ◌∷◌, List};
ghost use Rattle.doc_model.specs.declared.step.Step.{Step};
ghost use Rattle.doc_model.specs.declared.strip_rule.StripRule.{StripRule};
ghost use Rattle.engine_core.specs.Holding.{Ready, Sound, scene, scene_of};
ghost use Rattle.engine_core.specs.Moving.{Does, Tries};
ghost use Rattle.engine_core.specs.Standing.{stand_of, state_in};
ghost use Rattle.engine_questions.specs.Asking.{Kept};
ghost use Rattle.frame_meaning.specs.Acted.{acted};
ghost use Rattle.frames.specs.declared.frame.Frame.TheVariants as f;
ghost use Rattle.key_sources.specs.Going.{Lookups};
ghost use Rattle.sheet_ast.specs.declared.instruction.Instruction.TheOpen.{Instruction-F};

use engine_core::Core;
use engine_questions::{ItemStream, Questions};
use frames::Frame;
use lists::List;
use result_events::ResultEvent;
use sheet_ast::Instruction;
use std::alloc::Global;
use xpath_meaning::{Env, EvalStop};
use xpath_syntax::Expr;
use xpath_values::{Value, text_of};

/// Text, of a text node or of xsl:text (XSLT 1.0, section 7.2); an empty text makes no event.
pub fn literal_text<'s, S: ItemStream + Drop>(
    core: &mut Core<'s, S>,
    alloc: Global,
    bytes: &[u8],
    others: &'s [Instruction],
    kept: usize,
) -> Result<(), EvalStop>
    ensures { (lookups : Lookups) (rules : List StripRule) (steps : List Step) → Sound (scene S.walks S.follows lookups rules) steps (f.Body others.entry false kept ∷ core.old.frames) core.old → Does (scene S.walks S.follows lookups rules) steps (λ u. acted core.old.sheet.now u (Instruction-F.LiteralText bytes.now) others.entry kept core.old.frames (stand_of core.old) (state_in core.old)) 73786976294838206464 core.old core.new result }
{
    let text = List::from_slice(alloc, bytes)?;
    core.output.push(alloc, ResultEvent::Text(text))?;
    core.frames.push(Frame::Body {
        rest: others,
        begun: false,
        locals: kept,
    })?;
    Ok(())
}

/// xsl:value-of (XSLT 1.0, section 7.6.1).
pub fn value_of<'s, S: ItemStream + Drop, Q: Questions<'s, S>>(
    core: &mut Core<'s, S>,
    alloc: Global,
    v: &mut Q,
    select: &Expr,
    others: &'s [Instruction],
    kept: usize,
) -> Result<(), EvalStop>
    requires { Ready S.walks S.follows (Q.asked v.old) (Q.sees v.old) (Q.fits v.old) (f.Body others false kept ∷ core.old.frames) core.old }
    ensures kept { Kept (Q.sees v.old) (Q.sees v.new) (Q.asked v.old) (Q.asked v.new) (Q.fits v.new) }
    ensures tries { Tries (scene_of S.walks S.follows (Q.asked v.old) (Q.sees v.old)) (Q.sees v.old).steps (Q.sees v.new).steps (λ u. acted core.old.sheet.now u (Instruction-F.ValueOf select.now) others.entry kept core.old.frames (stand_of core.old) (state_in core.old)) 73786976294838206464 core.old core.new result }
{
    let env = Env {
        globals: &core.globals,
        locals: &core.locals,
    };
    let text = v.text(alloc, select, &core.context, &env)?;
    core.output.push(alloc, ResultEvent::Text(text))?;
    core.frames.push(Frame::Body {
        rest: others,
        begun: false,
        locals: kept,
    })?;
    Ok(())
}

/// xsl:copy-of (XSLT 1.0, section 11.3). The nodes of a node-set are left to a frame, as each must be shut first.
pub fn copy_of<'s, S: ItemStream + Drop, Q: Questions<'s, S>>(
    core: &mut Core<'s, S>,
    alloc: Global,
    v: &mut Q,
    select: &Expr,
    others: &'s [Instruction],
    kept: usize,
) -> Result<(), EvalStop>
    requires { Ready S.walks S.follows (Q.asked v.old) (Q.sees v.old) (Q.fits v.old) (f.Body others false kept ∷ core.old.frames) core.old }
    ensures kept { Kept (Q.sees v.old) (Q.sees v.new) (Q.asked v.old) (Q.asked v.new) (Q.fits v.new) }
    ensures tries { Tries (scene_of S.walks S.follows (Q.asked v.old) (Q.sees v.old)) (Q.sees v.old).steps (Q.sees v.new).steps (λ u. acted core.old.sheet.now u (Instruction-F.CopyOf select.now) others.entry kept core.old.frames (stand_of core.old) (state_in core.old)) 73786976294838206464 core.old core.new result }
{
    let env = Env {
        globals: &core.globals,
        locals: &core.locals,
    };
    let value = v.value(alloc, select, &core.context, &env)?;
    core.frames.push(Frame::Body {
        rest: others,
        begun: false,
        locals: kept,
    })?;
    match value {
        Value::Nodes(nodes) => {
            core.frames.push(Frame::Copies { nodes, next: 0 })?;
        }
        Value::Atom(atom) => {
            let Ok(text) = text_of(alloc, &atom) else {
                return Err(EvalStop::Memory);
            };
            core.output.push(alloc, ResultEvent::Text(text))?;
        }
        Value::Fragment(events) => {
            core.output.append(alloc, events)?;
        }
    }
    Ok(())
}
