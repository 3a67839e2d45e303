//! Templates: which one a node has, its parameters, and the built-in rules (XSLT 1.0, sections 5.4, 5.8, 6 and 11.6).

ghost use Rattle.std.specs.Prelude.{◌≡◌, ℕ, ◌∷◌, ◌<◌, false, List, option_copied};
ghost use Rattle.doc_model.specs.Document.{is_parent};
ghost use Rattle.doc_model.specs.Rows.{row_at, rows_of};
ghost use Rattle.doc_model.specs.declared.row.Kind.TheVariants as kind;
ghost use Rattle.doc_model.specs.declared.step.Step.{Step};
ghost use Rattle.doc_model.specs.declared.strip_rule.StripRule.{StripRule};
ghost use Rattle.engine_core.specs.Holding.{Ready, Sound, scene, scene_of};
ghost use Rattle.engine_core.specs.Moving.{Does, Goes};
ghost use Rattle.engine_core.specs.Standing.{left_with, stand_of, state_in};
ghost use Rattle.engine_core.specs.Weight.{weight_of};
ghost use Rattle.engine_frames.specs.Opening.{built_in_so, opening_so};
ghost use Rattle.engine_meaning.specs.Execution.{Called, InMode, template_of};
ghost use Rattle.engine_meaning.specs.Places.{Given, given_as};
ghost use Rattle.engine_questions.specs.Asking.{Kept};
ghost use Rattle.frame_meaning.specs.Uses.{givens};
ghost use Rattle.frames.specs.Depth.{depth};
ghost use Rattle.frames.specs.declared.frame.Frame.TheVariants as f;
ghost use Rattle.key_sources.specs.Going.{Lookups};
ghost use Rattle.xpath_meaning.specs.Keys.{same_name};
ghost use Rattle.xpath_meaning.specs.Tests.{bound_uri};

use doc_model::Kind;
use engine_core::Core;
use engine_questions::{ItemStream, Questions};
use engine_values::{find_value, give, use_value};
use fault_kinds::FaultKind;
use frames::{Declaring, Frame, Handed, Use, Work};
use lists::List;
use result_events::ResultEvent;
use sheet_ast::Sheet;
use std::alloc::Global;
use std::mem;
use xpath_meaning::{Env, EvalStop};
use xpath_syntax::NameRef;
use xpath_values::{Value, copy_value};

/// The children of the context node, once they are all known. Where it must wait for a row, what is left stays.
pub fn children<'s, S: ItemStream, Q: Questions<'s, S>>(
    core: &mut Core<'s, S>,
    alloc: Global,
    v: &mut Q,
    mode: u32,
) -> Result<(), EvalStop>
    requires { Ready S.walks S.follows (Q.asked v.old) (Q.sees v.old) (Q.fits v.old) (f.Children mode ∷ core.old.frames) core.old }
    ensures kept { Kept (Q.sees v.old) (Q.sees v.new) (Q.asked v.old) (Q.asked v.new) (Q.fits v.new) }
    ensures goes { Goes (scene_of S.walks S.follows (Q.asked v.old) (Q.sees v.old)) (Q.sees v.old).steps (Q.sees v.new).steps (left_with (f.Children mode ∷ core.old.frames) core.old) (weight_of (f.Children mode)) core.old core.new result }
{
    let nodes = match v.all_children(alloc, core.context.node) {
        Ok(nodes) => nodes,
        Err(stop) => {
            core.frames.push(Frame::Children { mode })?;
            return Err(stop);
        }
    };
    core.frames.push(Frame::Items {
        nodes,
        next: 0,
        work: Work::ByMode {
            mode,
            given: List::new(alloc),
        },
        context: core.context,
    })?;
    Ok(())
}

/// Opens the template at a place in the sheet, with the values that are handed on: its parameters and its body, above
/// its end. A place without a template does nothing more. Errors: `TooDeep` where 500 templates are open, and `Budget`.
pub fn open_template<'s, S: ItemStream>(
    core: &mut Core<'s, S>,
    alloc: Global,
    template: u32,
    given: List<Handed<'s>>,
) -> Result<(), EvalStop>
    ensures { (lookups : Lookups) (rules : List StripRule) (steps : List Step) (called : Called) → Sound (scene S.walks S.follows lookups rules) steps (f.Choose 0 given.entry ∷ core.old.frames) core.old → Does (scene S.walks S.follows lookups rules) steps (λ u. opening_so core.old.sheet.now u core.old.frames (stand_of core.old) called (givens given.entry) (Some template) (state_in core.old)) 1 core.old core.new result }
{
    if core.frames.depth() >= 500 {
        return Err(EvalStop::Fault(FaultKind::TooDeep));
    }
    if core.budget == 0 {
        return Err(EvalStop::Fault(FaultKind::Budget));
    }
    core.budget -= 1;
    let Some(found) = core.sheet.templates.get(template as usize) else {
        return Ok(());
    };
    // A list has fewer than 2^64 items, so what is left of them weighs less than the unit.
    let _ = found.params.len();
    let locals = mem::replace(&mut core.locals, List::new(alloc));
    core.frames.push(Frame::Template {
        locals,
        context: core.context,
    })?;
    core.frames.push(Frame::Declared(Declaring {
        left: found.params.as_slice(),
        begun: false,
        given,
        body: found.body.as_slice(),
    }))?;
    Ok(())
}

/// The next parameter of a template: a unit, and then the value that was handed on under its name, or else its own;
/// where none is left, the body (XSLT 1.0, section 11.6). Where it must wait for a row, what is left stays.
pub fn declared<'s, S: ItemStream, Q: Questions<'s, S>>(
    core: &mut Core<'s, S>,
    alloc: Global,
    v: &mut Q,
    declaring: Declaring<'s>,
) -> Result<(), EvalStop>
    requires { Ready S.walks S.follows (Q.asked v.old) (Q.sees v.old) (Q.fits v.old) (f.Declared declaring ∷ core.old.frames) core.old }
    ensures kept { Kept (Q.sees v.old) (Q.sees v.new) (Q.asked v.old) (Q.asked v.new) (Q.fits v.new) }
    ensures goes { Goes (scene_of S.walks S.follows (Q.asked v.old) (Q.sees v.old)) (Q.sees v.old).steps (Q.sees v.new).steps (left_with (f.Declared declaring.entry ∷ core.old.frames) core.old) (weight_of (f.Declared declaring.entry)) core.old core.new result }
{
    let Declaring {
        left,
        begun,
        given,
        body,
    } = declaring;
    let Some((first, more)) = left.split_first() else {
        core.frames.push(Frame::Body {
            rest: body,
            begun: false,
            locals: 0,
        })?;
        return Ok(());
    };
    if !begun {
        if core.budget == 0 {
            return Err(EvalStop::Fault(FaultKind::Budget));
        }
        core.budget -= 1;
        core.frames.push(Frame::Declared(Declaring {
            left,
            begun: true,
            given,
            body,
        }))?;
        return Ok(());
    }
    if let Some(value) = given_under(given.as_slice(), &first.name) {
        let Ok(value) = copy_value(alloc, value) else {
            return Err(EvalStop::Memory);
        };
        return use_value(
            core,
            alloc,
            value,
            Use::Declared(Declaring {
                left: more,
                begun: false,
                given,
                body,
            }),
        );
    }
    match find_value(core, alloc, v, &first.value) {
        Ok(found) => give(
            core,
            alloc,
            found,
            Use::Declared(Declaring {
                left: more,
                begun: false,
                given,
                body,
            }),
        ),
        Err(stop) => {
            core.frames.push(Frame::Declared(Declaring {
                left,
                begun,
                given,
                body,
            }))?;
            Err(stop)
        }
    }
}

// The value that is handed on under a name: of several the last.
fn given_under<'v, 's>(given: &'v [Handed<'s>], name: &NameRef) -> Option<&'v Value>
    ensures { option_copied result ≡ given_as name.now (givens given.now) }
{
    let mut at = given.len();
    while at > 0 {
        at -= 1;
        let handed = &given[at];
        if is_same_name(handed.name, name) {
            return Some(&handed.value);
        }
    }
    None
}

fn is_same_name(a: &NameRef, b: &NameRef) -> bool
    ensures { result ≡ same_name a.now b.now }
{
    uri_of(a) == uri_of(b) && a.local.as_slice() == b.local.as_slice()
}

// The URI that a name is bound to; empty where it is not bound.
fn uri_of(name: &NameRef) -> &[u8]
    ensures { result.now ≡ bound_uri name.now.uri }
{
    match &name.uri {
        Some(uri) => uri.as_slice(),
        None => &[],
    }
}

/// Chooses the template of the context node in a mode, and opens it with the values that are handed on; without one it
/// is the built-in rule (XSLT 1.0, sections 5.4 and 5.8). Where it must wait for a row, what is left stays.
pub fn choose<'s, S: ItemStream + Drop, Q: Questions<'s, S>>(
    core: &mut Core<'s, S>,
    alloc: Global,
    v: &mut Q,
    mode: u32,
    given: List<Handed<'s>>,
) -> Result<(), EvalStop>
    requires ready { Ready S.walks S.follows (Q.asked v.old) (Q.sees v.old) (Q.fits v.old) (f.Choose mode given ∷ core.old.frames) core.old }
    requires rules { (Q.asked v.old).rules ≡ core.old.sheet.now.rules }
    ensures kept { Kept (Q.sees v.old) (Q.sees v.new) (Q.asked v.old) (Q.asked v.new) (Q.fits v.new) }
    ensures goes { Goes (scene_of S.walks S.follows (Q.asked v.old) (Q.sees v.old)) (Q.sees v.old).steps (Q.sees v.new).steps (left_with (f.Choose mode given.entry ∷ core.old.frames) core.old) (weight_of (f.Choose mode given.entry)) core.old core.new result }
{
    let rule = match v.choose(alloc, mode, core.context.node) {
        Ok(rule) => rule,
        Err(stop) => {
            core.frames.push(Frame::Choose { mode, given })?;
            return Err(stop);
        }
    };
    match template_by(core.sheet, rule) {
        Some(template) => open_template(core, alloc, template, given),
        None => open_built_in(core, alloc, v, mode),
    }
}

// The place of a rule's template in the sheet.
fn template_by(sheet: &Sheet, rule: Option<u32>) -> Option<u32>
    ensures { result ≡ template_of sheet.now.rules rule }
{
    match rule {
        Some(rule) => match sheet.rules.get(rule as usize) {
            Some(rule) => Some(rule.template),
            None => None,
        },
        None => None,
    }
}

// Opens the built-in rule of the context node in a mode.
fn open_built_in<'s, S: ItemStream + Drop, Q: Questions<'s, S>>(
    core: &mut Core<'s, S>,
    alloc: Global,
    v: &mut Q,
    mode: u32,
) -> Result<(), EvalStop>
    requires { Ready S.walks S.follows (Q.asked v.old) (Q.sees v.old) (Q.fits v.old) core.old.frames core.old }
    ensures kept { Kept (Q.sees v.old) (Q.sees v.new) (Q.asked v.old) (Q.asked v.new) (Q.fits v.new) }
    ensures does { (given : List Given) → Does (scene_of S.walks S.follows (Q.asked v.old) (Q.sees v.old)) (Q.sees v.new).steps (λ u. opening_so core.old.sheet.now u core.old.frames (stand_of core.old) (InMode mode) given None (state_in core.old)) 1 core.old core.new result }
{
    if core.frames.depth() >= 500 {
        return Err(EvalStop::Fault(FaultKind::TooDeep));
    }
    if core.budget == 0 {
        return Err(EvalStop::Fault(FaultKind::Budget));
    }
    core.budget -= 1;
    match v.kind(core.context.node) {
        Kind::Root => apply_to_children(core, alloc, v, mode),
        Kind::Element => apply_to_children(core, alloc, v, mode),
        Kind::Attribute => copy_text(core, alloc, v),
        Kind::Text => copy_text(core, alloc, v),
        Kind::Instruction => Ok(()),
        Kind::Comment => Ok(()),
    }
}

// The built-in rule of the root and of elements, which is open: templates of the children in the same mode.
fn apply_to_children<'s, S: ItemStream + Drop, Q: Questions<'s, S>>(
    core: &mut Core<'s, S>,
    alloc: Global,
    v: &Q,
    mode: u32,
) -> Result<(), EvalStop>
    requires ready { Ready S.walks S.follows (Q.asked v.now) (Q.sees v.now) (Q.fits v.now) core.old.frames core.old }
    requires room { depth core.old.frames < 500 }
    ensures { Does (scene_of S.walks S.follows (Q.asked v.now) (Q.sees v.now)) (Q.sees v.now).steps (λ u. built_in_so core.old.sheet.now u core.old.frames (stand_of core.old) kind.Element mode (state_in core.old)) 1 core.old core.new result }
{
    if core.budget == 0 {
        return Err(EvalStop::Fault(FaultKind::Budget));
    }
    core.budget -= 1;
    let locals = mem::replace(&mut core.locals, List::new(alloc));
    core.frames.push(Frame::Template {
        locals,
        context: core.context,
    })?;
    if core.sizes {
        core.frames.push(Frame::Children { mode })?;
        return Ok(());
    }
    let env = Env {
        globals: &core.globals,
        locals: &core.locals,
    };
    let stream = v.children(&core.context, &env);
    core.streams.push(stream)?;
    core.frames.push(Frame::Stream {
        select: None,
        taken: 0,
        work: Work::ByMode {
            mode,
            given: List::new(alloc),
        },
        context: core.context,
    })?;
    Ok(())
}

// The built-in rule of attributes and texts, which is open: their string-value.
fn copy_text<'s, S: ItemStream, Q: Questions<'s, S>>(
    core: &mut Core<'s, S>,
    alloc: Global,
    v: &mut Q,
) -> Result<(), EvalStop>
    requires ready { Ready S.walks S.follows (Q.asked v.old) (Q.sees v.old) (Q.fits v.old) core.old.frames core.old }
    requires kind { is_parent (row_at (rows_of (Q.sees v.old).steps) core.old.context.node).kind ≡ false }
    ensures kept { Kept (Q.sees v.old) (Q.sees v.new) (Q.asked v.old) (Q.asked v.new) (Q.fits v.new) }
    ensures does { (mode : ℕ) → Does (scene_of S.walks S.follows (Q.asked v.old) (Q.sees v.old)) (Q.sees v.new).steps (λ u. built_in_so core.old.sheet.now u core.old.frames (stand_of core.old) kind.Text mode (state_in core.old)) 1 core.old core.new result }
{
    if core.budget == 0 {
        return Err(EvalStop::Fault(FaultKind::Budget));
    }
    core.budget -= 1;
    let value = v.own_value(alloc, core.context.node)?;
    core.output.push(alloc, ResultEvent::Text(value))?;
    Ok(())
}
