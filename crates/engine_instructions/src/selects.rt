//! Variables, selects and calls.

ghost use Rattle.std.specs.Prelude.{◌≡◌, ◌<◌, false, [], ◌∷◌, List, length, map, OnOk};
ghost use Rattle.doc_model.specs.declared.step.Step.{Step};
ghost use Rattle.doc_model.specs.declared.strip_rule.StripRule.{StripRule};
ghost use Rattle.engine_core.specs.Holding.{Ready, Sound, scene, scene_of};
ghost use Rattle.engine_core.specs.Moving.{Does, Tries};
ghost use Rattle.engine_core.specs.Standing.{stand_of, state_in};
ghost use Rattle.engine_meaning.specs.Execution.{binding_of, does};
ghost use Rattle.engine_questions.specs.Asking.{Kept};
ghost use Rattle.frame_meaning.specs.Acted.{acted};
ghost use Rattle.frames.specs.declared.frame.Frame.TheVariants as f;
ghost use Rattle.key_sources.specs.Going.{Lookups};
ghost use Rattle.sheet_ast.specs.declared.instruction.Instruction.TheOpen.{Instruction-F};

use engine_core::Core;
use engine_questions::{ItemStream, Questions};
use engine_values::{find_nodes, find_value, give, lay};
use frames::{Call, Frame, Passing, Use, Work};
use lists::List;
use sheet_ast::{Instruction, SortDecl, Variable};
use std::alloc::{AllocError, Global};
use xpath_meaning::EvalStop;
use xpath_syntax::Expr;

/// xsl:variable (XSLT 1.0, section 11.1): a local from then on.
pub fn local<'s, S: ItemStream + Drop, Q: Questions<'s, S>>(
    core: &mut Core<'s, S>,
    alloc: Global,
    v: &mut Q,
    variable: &'s Variable,
    others: &'s [Instruction],
    kept: usize,
) -> Result<(), EvalStop>
    requires { Ready S.walks S.follows (Q.asked v.old) (Q.sees v.old) (Q.fits v.old) (f.Body others false kept ∷ core.old.frames) core.old }
    ensures kept { Kept (Q.sees v.old) (Q.sees v.new) (Q.asked v.old) (Q.asked v.new) (Q.fits v.new) }
    ensures tries { Tries (scene_of S.walks S.follows (Q.asked v.old) (Q.sees v.old)) (Q.sees v.old).steps (Q.sees v.new).steps (λ u. acted core.old.sheet.now u (Instruction-F.Local (binding_of variable.now)) others.entry kept core.old.frames (stand_of core.old) (state_in core.old)) 73786976294838206464 core.old core.new result }
{
    let found = find_value(core, alloc, v, &variable.value)?;
    core.frames.push(Frame::Body {
        rest: others,
        begun: false,
        locals: kept,
    })?;
    give(core, alloc, found, Use::Local)
}

/// xsl:apply-templates (XSLT 1.0, section 5.4): the values that are handed on and the select are left to a frame.
pub fn apply<'s, S: ItemStream + Drop>(
    core: &mut Core<'s, S>,
    alloc: Global,
    select: &'s Expr,
    mode: u32,
    sorts: &'s [SortDecl],
    params: &'s [Variable],
    others: &'s [Instruction],
    kept: usize,
) -> Result<(), EvalStop>
    ensures { (lookups : Lookups) (rules : List StripRule) (steps : List Step) → Sound (scene S.walks S.follows lookups rules) steps (f.Body others.entry false kept ∷ core.old.frames) core.old → Does (scene S.walks S.follows lookups rules) steps (λ u. acted core.old.sheet.now u (Instruction-F.Apply select.now mode sorts.now (map binding_of params.now)) others.entry kept core.old.frames (stand_of core.old) (state_in core.old)) 73786976294838206464 core.old core.new result }
{
    core.frames.push(Frame::Body {
        rest: others,
        begun: false,
        locals: kept,
    })?;
    let call = Call::Apply {
        select,
        mode,
        sorts,
    };
    push_params(core, alloc, call, params)?;
    Ok(())
}

/// xsl:for-each (XSLT 1.0, section 8).
pub fn for_each<'s, S: ItemStream + Drop, Q: Questions<'s, S>>(
    core: &mut Core<'s, S>,
    alloc: Global,
    v: &mut Q,
    select: &'s Expr,
    sorts: &'s [SortDecl],
    body: &'s [Instruction],
    others: &'s [Instruction],
    kept: usize,
) -> Result<(), EvalStop>
    requires { Ready S.walks S.follows (Q.asked v.old) (Q.sees v.old) (Q.fits v.old) (f.Body others false kept ∷ core.old.frames) core.old }
    ensures kept { Kept (Q.sees v.old) (Q.sees v.new) (Q.asked v.old) (Q.asked v.new) (Q.fits v.new) }
    ensures tries { Tries (scene_of S.walks S.follows (Q.asked v.old) (Q.sees v.old)) (Q.sees v.old).steps (Q.sees v.new).steps (λ u. acted core.old.sheet.now u (Instruction-F.ForEach select.now sorts.now (map does body.now)) others.entry kept core.old.frames (stand_of core.old) (state_in core.old)) 73786976294838206464 core.old core.new result }
{
    let found = find_nodes(core, alloc, v, select, sorts)?;
    core.frames.push(Frame::Body {
        rest: others,
        begun: false,
        locals: kept,
    })?;
    lay(core, alloc, found, select, sorts, Work::ByBody(body))?;
    Ok(())
}

/// xsl:call-template (XSLT 1.0, section 6): the values that are handed on and the template are left to a frame.
pub fn call_template<'s, S: ItemStream + Drop>(
    core: &mut Core<'s, S>,
    alloc: Global,
    template: u32,
    params: &'s [Variable],
    others: &'s [Instruction],
    kept: usize,
) -> Result<(), EvalStop>
    ensures { (lookups : Lookups) (rules : List StripRule) (steps : List Step) → Sound (scene S.walks S.follows lookups rules) steps (f.Body others.entry false kept ∷ core.old.frames) core.old → Does (scene S.walks S.follows lookups rules) steps (λ u. acted core.old.sheet.now u (Instruction-F.CallTemplate template (map binding_of params.now)) others.entry kept core.old.frames (stand_of core.old) (state_in core.old)) 73786976294838206464 core.old core.new result }
{
    core.frames.push(Frame::Body {
        rest: others,
        begun: false,
        locals: kept,
    })?;
    push_params(core, alloc, Call::Template(template), params)?;
    Ok(())
}

// Puts values that are handed on on top, of which none is evaluated yet.
fn push_params<'s, S: Drop>(
    core: &mut Core<'s, S>,
    alloc: Global,
    call: Call<'s>,
    params: &'s [Variable],
) -> Result<(), AllocError>
    ensures { OnOk result (core.new ≡ record core.old { frames = f.Params (record { call = call.entry; left = params.entry; given = [] }) ∷ core.old.frames }) }
{
    core.frames.push(Frame::Params(Passing {
        call,
        left: params,
        given: List::new(alloc),
    }))?;
    Ok(())
}
