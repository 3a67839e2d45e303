//! Any instruction.

ghost use Rattle.std.specs.Prelude.{◌≡◌, false, ◌∷◌, option_map};
ghost use Rattle.engine_core.specs.Holding.{Ready, scene_of};
ghost use Rattle.engine_core.specs.Moving.{Tries};
ghost use Rattle.engine_core.specs.Standing.{stand_of, state_in};
ghost use Rattle.engine_questions.specs.Asking.{Kept};
ghost use Rattle.frame_meaning.specs.Acted.{acted};
ghost use Rattle.frame_meaning.specs.Work.{layer};
ghost use Rattle.frames.specs.declared.frame.Frame.TheVariants as f;

use crate::apart::{attribute, comment, message, processing};
use crate::choices::{choose, if_true};
use crate::elements::{copy, element, literal_element};
use crate::selects::{apply, call_template, for_each, local};
use crate::texts::{copy_of, literal_text, value_of};
use engine_core::Core;
use engine_questions::{ItemStream, Questions};
use lists::List;
use sheet_ast::Instruction;
use std::alloc::Global;
use xpath_meaning::EvalStop;

/// Does an instruction that has its unit of the budget; the others of its body, behind which so many locals stay, come
/// after it. Where it must wait for a row nothing was done yet.
pub fn act<'s, S: ItemStream + Drop, Q: Questions<'s, S>>(
    core: &mut Core<'s, S>,
    alloc: Global,
    v: &mut Q,
    first: &'s Instruction,
    others: &'s [Instruction],
    kept: usize,
) -> Result<(), EvalStop>
    requires { Ready S.walks S.follows (Q.asked v.old) (Q.sees v.old) (Q.fits v.old) (f.Body others false kept ∷ core.old.frames) core.old }
    ensures kept { Kept (Q.sees v.old) (Q.sees v.new) (Q.asked v.old) (Q.asked v.new) (Q.fits v.new) }
    ensures tries { Tries (scene_of S.walks S.follows (Q.asked v.old) (Q.sees v.old)) (Q.sees v.old).steps (Q.sees v.new).steps (λ u. acted core.old.sheet.now u (layer first.now) others.entry kept core.old.frames (stand_of core.old) (state_in core.old)) 73786976294838206464 core.old core.new result }
{
    match first {
        Instruction::LiteralText(bytes) => {
            literal_text(core, alloc, bytes.as_slice(), others, kept)
        }
        Instruction::LiteralElement {
            name,
            attributes,
            body,
        } => literal_element(
            core,
            alloc,
            name,
            attributes.as_slice(),
            body.as_slice(),
            others,
            kept,
        ),
        Instruction::ValueOf(select) => value_of(core, alloc, v, select, others, kept),
        Instruction::CopyOf(select) => copy_of(core, alloc, v, select, others, kept),
        Instruction::Copy(body) => copy(core, alloc, v, body.as_slice(), others, kept),
        Instruction::Element {
            name,
            namespace,
            scopes,
            body,
        } => element(
            core,
            alloc,
            v,
            name.as_slice(),
            namespace,
            *scopes,
            body.as_slice(),
            others,
            kept,
        ),
        Instruction::Attribute {
            name,
            namespace,
            scopes,
            body,
        } => attribute(
            core,
            alloc,
            v,
            name.as_slice(),
            namespace,
            *scopes,
            body.as_slice(),
            others,
            kept,
        ),
        Instruction::Processing { name, body } => processing(
            core,
            alloc,
            v,
            name.as_slice(),
            body.as_slice(),
            others,
            kept,
        ),
        Instruction::Comment(body) => comment(core, alloc, body.as_slice(), others, kept),
        Instruction::Message { terminate, body } => {
            message(core, alloc, *terminate, body.as_slice(), others, kept)
        }
        Instruction::If { test, body } => {
            if_true(core, alloc, v, test, body.as_slice(), others, kept)
        }
        Instruction::Choose { whens, otherwise } => {
            choose(core, whens.as_slice(), body_in(otherwise), others, kept)
        }
        Instruction::Local(variable) => local(core, alloc, v, variable, others, kept),
        Instruction::Apply {
            select,
            mode,
            sorts,
            params,
        } => apply(
            core,
            alloc,
            select,
            *mode,
            sorts.as_slice(),
            params.as_slice(),
            others,
            kept,
        ),
        Instruction::ForEach {
            select,
            sorts,
            body,
        } => for_each(
            core,
            alloc,
            v,
            select,
            sorts.as_slice(),
            body.as_slice(),
            others,
            kept,
        ),
        Instruction::CallTemplate { template, params } => {
            call_template(core, alloc, *template, params.as_slice(), others, kept)
        }
    }
}

// The body of what there is otherwise.
fn body_in<'s>(otherwise: &'s Option<List<Instruction>>) -> Option<&'s [Instruction]>
    ensures { option_map (λ body. body.now) result ≡ otherwise.now }
{
    match otherwise {
        Some(body) => Some(body.as_slice()),
        None => None,
    }
}
