//! Instructions whose body is run apart.

ghost use Rattle.std.specs.Prelude.{false, ◌∷◌, List, map};
ghost use Rattle.doc_model.specs.declared.step.Step.{Step};
ghost use Rattle.doc_model.specs.declared.strip_rule.StripRule.{StripRule};
ghost use Rattle.engine_core.specs.Holding.{Ready, Sound, scene, scene_of};
ghost use Rattle.engine_core.specs.Moving.{Does, Tries};
ghost use Rattle.engine_core.specs.Standing.{stand_of, state_in};
ghost use Rattle.engine_meaning.specs.Execution.{does};
ghost use Rattle.engine_questions.specs.Asking.{Kept};
ghost use Rattle.frame_meaning.specs.Acted.{acted};
ghost use Rattle.frames.specs.declared.frame.Frame.TheVariants as f;
ghost use Rattle.key_sources.specs.Going.{Lookups};
ghost use Rattle.sheet_ast.specs.declared.instruction.Instruction.TheOpen.{Instruction-F};

use crate::bodies::push_apart;
use engine_core::Core;
use engine_questions::{ItemStream, Questions};
use frames::Purpose;
use lists::List;
use sheet_ast::Instruction;
use std::alloc::Global;
use value_templates::{computed_name, computed_target};
use xpath_meaning::{Env, EvalStop};
use xpath_syntax::Part;

/// xsl:attribute (XSLT 1.0, section 7.1.3). A name that is none is the fault BadName, a prefix that isn't bound UnboundPrefix.
pub fn attribute<'s, S: ItemStream + Drop, Q: Questions<'s, S>>(
    core: &mut Core<'s, S>,
    alloc: Global,
    v: &mut Q,
    name: &[Part],
    namespace: &Option<List<Part>>,
    scopes: u32,
    body: &'s [Instruction],
    others: &'s [Instruction],
    kept: usize,
) -> Result<(), EvalStop>
    requires { Ready S.walks S.follows (Q.asked v.old) (Q.sees v.old) (Q.fits v.old) (f.Body others false kept ∷ core.old.frames) core.old }
    ensures kept { Kept (Q.sees v.old) (Q.sees v.new) (Q.asked v.old) (Q.asked v.new) (Q.fits v.new) }
    ensures tries { Tries (scene_of S.walks S.follows (Q.asked v.old) (Q.sees v.old)) (Q.sees v.old).steps (Q.sees v.new).steps (λ u. acted core.old.sheet.now u (Instruction-F.Attribute name.now namespace.now scopes (map does body.now)) others.entry kept core.old.frames (stand_of core.old) (state_in core.old)) 73786976294838206464 core.old core.new result }
{
    let env = Env {
        globals: &core.globals,
        locals: &core.locals,
    };
    let name = computed_name(
        alloc,
        v,
        core.sheet,
        true,
        name,
        namespace,
        scopes,
        &core.context,
        &env,
    )?;
    push_apart(core, alloc, body, Purpose::Attribute(name), others, kept)?;
    Ok(())
}

/// xsl:processing-instruction (XSLT 1.0, section 7.3). A text that no target may have is the fault BadName.
pub fn processing<'s, S: ItemStream + Drop, Q: Questions<'s, S>>(
    core: &mut Core<'s, S>,
    alloc: Global,
    v: &mut Q,
    name: &[Part],
    body: &'s [Instruction],
    others: &'s [Instruction],
    kept: usize,
) -> Result<(), EvalStop>
    requires { Ready S.walks S.follows (Q.asked v.old) (Q.sees v.old) (Q.fits v.old) (f.Body others false kept ∷ core.old.frames) core.old }
    ensures kept { Kept (Q.sees v.old) (Q.sees v.new) (Q.asked v.old) (Q.asked v.new) (Q.fits v.new) }
    ensures tries { Tries (scene_of S.walks S.follows (Q.asked v.old) (Q.sees v.old)) (Q.sees v.old).steps (Q.sees v.new).steps (λ u. acted core.old.sheet.now u (Instruction-F.Processing name.now (map does body.now)) others.entry kept core.old.frames (stand_of core.old) (state_in core.old)) 73786976294838206464 core.old core.new result }
{
    let env = Env {
        globals: &core.globals,
        locals: &core.locals,
    };
    let target = computed_target(alloc, v, name, &core.context, &env)?;
    push_apart(core, alloc, body, Purpose::Processing(target), others, kept)?;
    Ok(())
}

/// xsl:comment (XSLT 1.0, section 7.4).
pub fn comment<'s, S: ItemStream + Drop>(
    core: &mut Core<'s, S>,
    alloc: Global,
    body: &'s [Instruction],
    others: &'s [Instruction],
    kept: usize,
) -> Result<(), EvalStop>
    ensures { (lookups : Lookups) (rules : List StripRule) (steps : List Step) → Sound (scene S.walks S.follows lookups rules) steps (f.Body others.entry false kept ∷ core.old.frames) core.old → Does (scene S.walks S.follows lookups rules) steps (λ u. acted core.old.sheet.now u (Instruction-F.Comment (map does body.now)) others.entry kept core.old.frames (stand_of core.old) (state_in core.old)) 73786976294838206464 core.old core.new result }
{
    push_apart(core, alloc, body, Purpose::Comment, others, kept)?;
    Ok(())
}

/// xsl:message (XSLT 1.0, section 13).
pub fn message<'s, S: ItemStream + Drop>(
    core: &mut Core<'s, S>,
    alloc: Global,
    terminate: bool,
    body: &'s [Instruction],
    others: &'s [Instruction],
    kept: usize,
) -> Result<(), EvalStop>
    ensures { (lookups : Lookups) (rules : List StripRule) (steps : List Step) → Sound (scene S.walks S.follows lookups rules) steps (f.Body others.entry false kept ∷ core.old.frames) core.old → Does (scene S.walks S.follows lookups rules) steps (λ u. acted core.old.sheet.now u (Instruction-F.Message terminate (map does body.now)) others.entry kept core.old.frames (stand_of core.old) (state_in core.old)) 73786976294838206464 core.old core.new result }
{
    push_apart(
        core,
        alloc,
        body,
        Purpose::Message { terminate },
        others,
        kept,
    )?;
    Ok(())
}
