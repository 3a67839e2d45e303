//! Elements, and copies of the current node.

ghost use Rattle.std.specs.Prelude.{◌≡◌, false, ◌∷◌, List, map, IfOk};
ghost use Rattle.doc_model.specs.declared.step.Step.{Step};
ghost use Rattle.doc_model.specs.declared.strip_rule.StripRule.{StripRule};
ghost use Rattle.engine_core.specs.Holding.{Ready, Sound, scene, scene_of};
ghost use Rattle.engine_core.specs.Moving.{Does, Tries};
ghost use Rattle.engine_core.specs.Standing.{stand_of, state_in};
ghost use Rattle.engine_meaning.specs.Events.{name_of};
ghost use Rattle.engine_meaning.specs.Execution.{does};
ghost use Rattle.engine_questions.specs.Asking.{Kept};
ghost use Rattle.frame_meaning.specs.Acted.{acted};
ghost use Rattle.frames.specs.declared.frame.Frame.TheVariants as f;
ghost use Rattle.key_sources.specs.Going.{Lookups};
ghost use Rattle.sheet_ast.specs.declared.instruction.Instruction.TheOpen.{Instruction-F};

use crate::bodies::push_body;
use engine_core::Core;
use engine_questions::{ItemStream, Questions, Shallow};
use frames::Frame;
use lists::List;
use result_events::{Name, ResultEvent};
use sheet_ast::{Instruction, LiteralAttr};
use std::alloc::{AllocError, Global};
use value_templates::computed_name;
use xpath_meaning::{Env, EvalStop};
use xpath_syntax::{NameRef, Part};

/// A literal result element (XSLT 1.0, section 7.1.1): its start; its attributes, its body and its end are left to a frame.
pub fn literal_element<'s, S: ItemStream + Drop>(
    core: &mut Core<'s, S>,
    alloc: Global,
    name: &NameRef,
    attributes: &'s [LiteralAttr],
    body: &'s [Instruction],
    others: &'s [Instruction],
    kept: usize,
) -> Result<(), EvalStop>
    ensures { (lookups : Lookups) (rules : List StripRule) (steps : List Step) → Sound (scene S.walks S.follows lookups rules) steps (f.Body others.entry false kept ∷ core.old.frames) core.old → Does (scene S.walks S.follows lookups rules) steps (λ u. acted core.old.sheet.now u (Instruction-F.LiteralElement name.now attributes.now (map does body.now)) others.entry kept core.old.frames (stand_of core.old) (state_in core.old)) 73786976294838206464 core.old core.new result }
{
    let name = name_of(alloc, name)?;
    core.output.push(alloc, ResultEvent::Start(name))?;
    core.frames.push(Frame::Body {
        rest: others,
        begun: false,
        locals: kept,
    })?;
    core.frames.push(Frame::Literal { attributes, body })?;
    Ok(())
}

/// xsl:copy (XSLT 1.0, section 7.5).
pub fn copy<'s, S: ItemStream + Drop, Q: Questions<'s, S>>(
    core: &mut Core<'s, S>,
    alloc: Global,
    v: &mut Q,
    body: &'s [Instruction],
    others: &'s [Instruction],
    kept: usize,
) -> Result<(), EvalStop>
    requires { Ready S.walks S.follows (Q.asked v.old) (Q.sees v.old) (Q.fits v.old) (f.Body others false kept ∷ core.old.frames) core.old }
    ensures kept { Kept (Q.sees v.old) (Q.sees v.new) (Q.asked v.old) (Q.asked v.new) (Q.fits v.new) }
    ensures tries { Tries (scene_of S.walks S.follows (Q.asked v.old) (Q.sees v.old)) (Q.sees v.old).steps (Q.sees v.new).steps (λ u. acted core.old.sheet.now u (Instruction-F.Copy (map does body.now)) others.entry kept core.old.frames (stand_of core.old) (state_in core.old)) 73786976294838206464 core.old core.new result }
{
    let copy = v.shallow(alloc, core.context.node)?;
    core.frames.push(Frame::Body {
        rest: others,
        begun: false,
        locals: kept,
    })?;
    match copy {
        Shallow::Content => {
            push_body(core, body)?;
        }
        Shallow::Around(name) => {
            core.output.push(alloc, ResultEvent::Start(name))?;
            core.frames.push(Frame::Close)?;
            push_body(core, body)?;
        }
        Shallow::Alone(events) => {
            core.output.append(alloc, events)?;
        }
    }
    Ok(())
}

/// xsl:element (XSLT 1.0, section 7.1.2). A name that is none is the fault BadName, a prefix that isn't bound UnboundPrefix.
pub fn element<'s, S: ItemStream + Drop, Q: Questions<'s, S>>(
    core: &mut Core<'s, S>,
    alloc: Global,
    v: &mut Q,
    name: &[Part],
    namespace: &Option<List<Part>>,
    scopes: u32,
    body: &'s [Instruction],
    others: &'s [Instruction],
    kept: usize,
) -> Result<(), EvalStop>
    requires { Ready S.walks S.follows (Q.asked v.old) (Q.sees v.old) (Q.fits v.old) (f.Body others false kept ∷ core.old.frames) core.old }
    ensures kept { Kept (Q.sees v.old) (Q.sees v.new) (Q.asked v.old) (Q.asked v.new) (Q.fits v.new) }
    ensures tries { Tries (scene_of S.walks S.follows (Q.asked v.old) (Q.sees v.old)) (Q.sees v.old).steps (Q.sees v.new).steps (λ u. acted core.old.sheet.now u (Instruction-F.Element name.now namespace.now scopes (map does body.now)) others.entry kept core.old.frames (stand_of core.old) (state_in core.old)) 73786976294838206464 core.old core.new result }
{
    let env = Env {
        globals: &core.globals,
        locals: &core.locals,
    };
    let name = computed_name(
        alloc,
        v,
        core.sheet,
        false,
        name,
        namespace,
        scopes,
        &core.context,
        &env,
    )?;
    core.output.push(alloc, ResultEvent::Start(name))?;
    core.frames.push(Frame::Body {
        rest: others,
        begun: false,
        locals: kept,
    })?;
    core.frames.push(Frame::Close)?;
    push_body(core, body)?;
    Ok(())
}

// The name of a literal result element; without a namespace its URI is empty.
fn name_of(alloc: Global, name: &NameRef) -> Result<Name, AllocError>
    ensures { IfOk result (λ copy. copy ≡ name_of name.now) }
{
    let uri = match &name.uri {
        Some(uri) => List::from_slice(alloc, uri.as_slice())?,
        None => List::new(alloc),
    };
    Ok(Name {
        prefix: List::from_slice(alloc, name.prefix.as_slice())?,
        uri,
        local: List::from_slice(alloc, name.local.as_slice())?,
    })
}
