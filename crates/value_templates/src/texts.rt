//! The texts of attribute value templates (XSLT 1.0, section 7.6.2).

ghost use Rattle.std.specs.Prelude.{◌++◌};
ghost use Rattle.std.specs.Result.{result_map_both};
ghost use Rattle.doc_model.specs.Answers.{Known};
ghost use Rattle.engine_meaning.specs.Places.{place, setting};
ghost use Rattle.engine_meaning.specs.Questions as means;
ghost use Rattle.engine_questions.specs.Asking.{IsReady, Kept, Shows};
ghost use Rattle.sheet_ast.specs.declared.sheet.Sheet.{Sheet};
ghost use Rattle.xpath_meaning.specs.Outcome.{◌>>=◌ as ◌>>>◌};
ghost use Rattle.xpath_meaning.specs.Readings.{values_of};

use engine_questions::{ItemStream, Questions};
use lists::List;
use std::alloc::Global;
use xpath_meaning::{Context, Env, EvalStop};
use xpath_syntax::Part;

/// The text of an attribute value template (XSLT 1.0, section 7.6.2): the texts of its parts, which are asked for from
/// the left. The first part that has a fault, or that waits for a row to be shut, decides.
///
/// A text and a fault are those at the end of the call, and so at every growth; `NotYet` names a row that must be shut
/// first and at a step of the call was open. After want of memory nothing is said.
pub fn template_text<'s, S: ItemStream, Q: Questions<'s, S>>(
    alloc: Global,
    v: &mut Q,
    parts: &[Part],
    context: &Context,
    env: &Env,
) -> Result<List<u8>, EvalStop>
    requires { IsReady (Q.sees v.old) (Q.fits v.old) (values_of env.now) context.now }
    ensures kept { Kept (Q.sees v.old) (Q.sees v.new) (Q.asked v.old) (Q.asked v.new) (Q.fits v.new) }
    ensures answers { (sheet : Sheet) → Shows (Q.asked v.old).lookups (λ w. means.template_text (setting sheet w env.now.globals.now) (place context.now env.now.locals.now) parts.now) (Q.sees v.old) (Q.sees v.new) result }
{
    let mut text = List::new(alloc);
    for part in parts {
        add_part(alloc, v, &mut text, part, context, env)?;
    }
    Ok(text)
}

// Adds the text of a part at the end of those before it.
fn add_part<'s, S: ItemStream, Q: Questions<'s, S>>(
    alloc: Global,
    v: &mut Q,
    text: &mut List<u8>,
    part: &Part,
    context: &Context,
    env: &Env,
) -> Result<(), EvalStop>
    requires { IsReady (Q.sees v.old) (Q.fits v.old) (values_of env.now) context.now }
    ensures kept { Kept (Q.sees v.old) (Q.sees v.new) (Q.asked v.old) (Q.asked v.new) (Q.fits v.new) }
    ensures answers { (sheet : Sheet) → Shows (Q.asked v.old).lookups (λ w. means.part_text (setting sheet w env.now.globals.now) (place context.now env.now.locals.now) part.now >>> λ more. Known (text.old ++ more)) (Q.sees v.old) (Q.sees v.new) (result_map_both (λ _. text.new) (λ stop. stop) result) }
{
    match part {
        Part::Plain(plain) => text.extend_from_slice(plain.as_slice())?,
        Part::Value(e) => {
            let more = v.text(alloc, e, context, env)?;
            text.append(more)?;
        }
    }
    Ok(())
}

/// The namespace that an instruction gives a name, where it gives one (XSLT 1.0, sections 7.1.2 and 7.1.3).
pub(crate) fn namespace_text<'s, S: ItemStream, Q: Questions<'s, S>>(
    alloc: Global,
    v: &mut Q,
    namespace: &Option<List<Part>>,
    context: &Context,
    env: &Env,
) -> Result<Option<List<u8>>, EvalStop>
    requires { IsReady (Q.sees v.old) (Q.fits v.old) (values_of env.now) context.now }
    ensures kept { Kept (Q.sees v.old) (Q.sees v.new) (Q.asked v.old) (Q.asked v.new) (Q.fits v.new) }
    ensures answers { (sheet : Sheet) → Shows (Q.asked v.old).lookups (λ w. means.namespace_text (setting sheet w env.now.globals.now) (place context.now env.now.locals.now) namespace.now) (Q.sees v.old) (Q.sees v.new) result }
{
    match namespace {
        Some(parts) => {
            let uri = template_text(alloc, v, parts.as_slice(), context, env)?;
            Ok(Some(uri))
        }
        None => Ok(None),
    }
}
