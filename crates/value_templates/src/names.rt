//! The names that instructions compute (XSLT 1.0, sections 7.1.2, 7.1.3 and 7.3).

ghost use Rattle.std.specs.Prelude.{◌≡◌, option_map, Result};
ghost use Rattle.computed_names.specs.Computed.{Answers};
ghost use Rattle.computed_names.specs.declared.stop.NameStop.{NameStop};
ghost use Rattle.engine_meaning.specs.Places.{place, setting};
ghost use Rattle.engine_meaning.specs.Questions as means;
ghost use Rattle.engine_questions.specs.Asking.{IsReady, Kept, Shows};
ghost use Rattle.key_sources.specs.Going.{Gives};
ghost use Rattle.result_events.specs.declared.event.Name.{Name};
ghost use Rattle.sheet_ast.specs.declared.sheet.Sheet.{Sheet};
ghost use Rattle.xpath_meaning.specs.Readings.{values_of};

use crate::texts::{namespace_text, template_text};
use computed_names::{NameStop, is_target};
use engine_questions::{ItemStream, Questions};
use fault_kinds::FaultKind;
use lists::List;
use result_events::Name;
use sheet_ast::Sheet;
use std::alloc::Global;
use xpath_meaning::{Context, Env, EvalStop};
use xpath_syntax::Part;

/// The name of xsl:element, or of xsl:attribute where `attribute` is set (XSLT 1.0, sections 7.1.2 and 7.1.3): the text
/// of the name is asked for, then that of the namespace where one is given, and then the name is judged in the scope
/// `scopes` of the sheet. `Fault(BadName)`: it is no name, or none of an attribute; `Fault(UnboundPrefix)`: no namespace
/// is given, and the scope does not bind its prefix.
///
/// A name and a fault are those at the end of the call, and so at every growth; `NotYet` names a row that must be shut
/// first and at a step of the call was open. After want of memory nothing is said.
pub fn computed_name<'s, S: ItemStream, Q: Questions<'s, S>>(
    alloc: Global,
    v: &mut Q,
    sheet: &Sheet,
    attribute: bool,
    name: &[Part],
    namespace: &Option<List<Part>>,
    scopes: u32,
    context: &Context,
    env: &Env,
) -> Result<Name, EvalStop>
    requires { IsReady (Q.sees v.old) (Q.fits v.old) (values_of env.now) context.now }
    ensures kept { Kept (Q.sees v.old) (Q.sees v.new) (Q.asked v.old) (Q.asked v.new) (Q.fits v.new) }
    ensures answers { Shows (Q.asked v.old).lookups (λ w. means.name_at (setting sheet.now w env.now.globals.now) (place context.now env.now.locals.now) attribute name.now namespace.now scopes) (Q.sees v.old) (Q.sees v.new) result }
{
    let text = template_text(alloc, v, name, context, env)?;
    let uri = namespace_text(alloc, v, namespace, context, env)?;
    judged(computed_names::computed_name(
        alloc,
        text.as_slice(),
        slice_of(&uri),
        sheet.scopes.as_slice(),
        scopes,
        attribute,
    ))
}

fn slice_of(uri: &Option<List<u8>>) -> Option<&[u8]>
    ensures { option_map (λ uri. uri.now) result ≡ uri.now }
{
    match uri {
        Some(uri) => Some(uri.as_slice()),
        None => None,
    }
}

// A name that was computed, or the fault of an expression that it is none.
fn judged(name: Result<Name, NameStop>) -> Result<Name, EvalStop>
    ensures { (wanted : Result Name NameStop) → Answers wanted name → Gives (means.judged wanted) result }
{
    match name {
        Ok(name) => Ok(name),
        Err(NameStop::BadName) => Err(EvalStop::Fault(FaultKind::BadName)),
        Err(NameStop::UnboundPrefix) => Err(EvalStop::Fault(FaultKind::UnboundPrefix)),
        Err(NameStop::Memory) => Err(EvalStop::Memory),
    }
}

/// The target of xsl:processing-instruction (XSLT 1.0, section 7.3): the text of its name. `Fault(BadName)`: it is no
/// NCName (Namespaces in XML 1.0, section 3), or is `xml` in any case.
///
/// A target and a fault are those at the end of the call, and so at every growth; `NotYet` names a row that must be shut
/// first and at a step of the call was open. After want of memory nothing is said.
pub fn computed_target<'s, S: ItemStream, Q: Questions<'s, S>>(
    alloc: Global,
    v: &mut Q,
    name: &[Part],
    context: &Context,
    env: &Env,
) -> Result<List<u8>, EvalStop>
    requires { IsReady (Q.sees v.old) (Q.fits v.old) (values_of env.now) context.now }
    ensures kept { Kept (Q.sees v.old) (Q.sees v.new) (Q.asked v.old) (Q.asked v.new) (Q.fits v.new) }
    ensures answers { (sheet : Sheet) → Shows (Q.asked v.old).lookups (λ w. means.target_at (setting sheet w env.now.globals.now) (place context.now env.now.locals.now) name.now) (Q.sees v.old) (Q.sees v.new) result }
{
    let target = template_text(alloc, v, name, context, env)?;
    if is_target(target.as_slice()) {
        Ok(target)
    } else {
        Err(EvalStop::Fault(FaultKind::BadName))
    }
}
