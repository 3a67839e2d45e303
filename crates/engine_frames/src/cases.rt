//! Literal result elements and tests (XSLT 1.0, sections 7.1.1 and 9).

ghost use Rattle.std.specs.Prelude.{◌≡◌, ◌∷◌, List, IfOk};
ghost use Rattle.doc_model.specs.declared.step.Step.{Step};
ghost use Rattle.doc_model.specs.declared.strip_rule.StripRule.{StripRule};
ghost use Rattle.engine_core.specs.Holding.{Ready, Sound, scene, scene_of};
ghost use Rattle.engine_core.specs.Moving.{Does, Goes};
ghost use Rattle.engine_core.specs.Standing.{left_with};
ghost use Rattle.engine_core.specs.Weight.{weight_of};
ghost use Rattle.engine_meaning.specs.Events.{name_of};
ghost use Rattle.engine_questions.specs.Asking.{Kept};
ghost use Rattle.frames.specs.declared.frame.Frame.TheVariants as f;
ghost use Rattle.key_sources.specs.Going.{Lookups};

use engine_core::Core;
use engine_questions::{ItemStream, Questions};
use frames::Frame;
use lists::List;
use result_events::{Name, ResultEvent};
use sheet_ast::{Instruction, LiteralAttr, When};
use std::alloc::{AllocError, Global};
use value_templates::template_text;
use xpath_meaning::{Env, EvalStop};
use xpath_syntax::NameRef;

/// The end of an element. Fails only for want of memory.
pub fn close<'s, S: ItemStream>(core: &mut Core<'s, S>, alloc: Global) -> Result<(), EvalStop>
    ensures { (lookups : Lookups) (rules : List StripRule) (steps : List Step) → Sound (scene S.walks S.follows lookups rules) steps (f.Close ∷ core.old.frames) core.old → Does (scene S.walks S.follows lookups rules) steps (left_with (f.Close ∷ core.old.frames) core.old) (weight_of f.Close) core.old core.new result }
{
    core.output.push(alloc, ResultEvent::End)?;
    Ok(())
}

/// The next attribute of a literal result element, or, where none is left, its body and its end (XSLT 1.0, section
/// 7.1.1). Where it must wait for a row, what is left stays.
pub fn literal<'s, S: ItemStream, Q: Questions<'s, S>>(
    core: &mut Core<'s, S>,
    alloc: Global,
    v: &mut Q,
    attributes: &'s [LiteralAttr],
    body: &'s [Instruction],
) -> Result<(), EvalStop>
    requires { Ready S.walks S.follows (Q.asked v.old) (Q.sees v.old) (Q.fits v.old) (f.Literal attributes body ∷ core.old.frames) core.old }
    ensures kept { Kept (Q.sees v.old) (Q.sees v.new) (Q.asked v.old) (Q.asked v.new) (Q.fits v.new) }
    ensures goes { Goes (scene_of S.walks S.follows (Q.asked v.old) (Q.sees v.old)) (Q.sees v.old).steps (Q.sees v.new).steps (left_with (f.Literal attributes.entry body.entry ∷ core.old.frames) core.old) (weight_of (f.Literal attributes.entry body.entry)) core.old core.new result }
{
    let Some((first, more)) = attributes.split_first() else {
        core.frames.push(Frame::Close)?;
        core.frames.push(Frame::Body {
            rest: body,
            begun: false,
            locals: core.locals.len(),
        })?;
        return Ok(());
    };
    let env = Env {
        globals: &core.globals,
        locals: &core.locals,
    };
    let value = match template_text(alloc, v, first.value.as_slice(), &core.context, &env) {
        Ok(value) => value,
        Err(stop) => {
            core.frames.push(Frame::Literal { attributes, body })?;
            return Err(stop);
        }
    };
    let name = literal_name(alloc, &first.name)?;
    core.output.push(alloc, ResultEvent::Attr { name, value })?;
    core.frames.push(Frame::Literal {
        attributes: more,
        body,
    })?;
    Ok(())
}

// The name of a literal result element's attribute. Fails only for want of memory.
fn literal_name(alloc: Global, name: &NameRef) -> Result<Name, AllocError>
    ensures { IfOk result (λ made. made ≡ name_of name.now) }
{
    let uri = match &name.uri {
        Some(uri) => List::from_slice(alloc, uri.as_slice())?,
        None => List::new(alloc),
    };
    Ok(Name {
        prefix: List::from_slice(alloc, name.prefix.as_slice())?,
        uri,
        local: List::from_slice(alloc, name.local.as_slice())?,
    })
}

/// The next test of xsl:choose: its body, where it holds, or else the tests behind it; where none is left, what there is
/// otherwise (XSLT 1.0, section 9.2). Where it must wait for a row, what is left stays.
pub fn whens<'s, S: ItemStream, Q: Questions<'s, S>>(
    core: &mut Core<'s, S>,
    alloc: Global,
    v: &mut Q,
    whens: &'s [When],
    otherwise: Option<&'s [Instruction]>,
) -> Result<(), EvalStop>
    requires { Ready S.walks S.follows (Q.asked v.old) (Q.sees v.old) (Q.fits v.old) (f.Whens whens otherwise ∷ core.old.frames) core.old }
    ensures kept { Kept (Q.sees v.old) (Q.sees v.new) (Q.asked v.old) (Q.asked v.new) (Q.fits v.new) }
    ensures goes { Goes (scene_of S.walks S.follows (Q.asked v.old) (Q.sees v.old)) (Q.sees v.old).steps (Q.sees v.new).steps (left_with (f.Whens whens.entry otherwise.entry ∷ core.old.frames) core.old) (weight_of (f.Whens whens.entry otherwise.entry)) core.old core.new result }
{
    let Some((first, more)) = whens.split_first() else {
        if let Some(body) = otherwise {
            core.frames.push(Frame::Body {
                rest: body,
                begun: false,
                locals: core.locals.len(),
            })?;
        }
        return Ok(());
    };
    let env = Env {
        globals: &core.globals,
        locals: &core.locals,
    };
    let holds = match v.truth(alloc, &first.test, &core.context, &env) {
        Ok(holds) => holds,
        Err(stop) => {
            core.frames.push(Frame::Whens { whens, otherwise })?;
            return Err(stop);
        }
    };
    if holds {
        core.frames.push(Frame::Body {
            rest: first.body.as_slice(),
            begun: false,
            locals: core.locals.len(),
        })?;
    } else {
        core.frames.push(Frame::Whens {
            whens: more,
            otherwise,
        })?;
    }
    Ok(())
}
