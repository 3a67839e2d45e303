//! What gives a variable its value.

ghost use Rattle.std.specs.Prelude.{◌++◌};
ghost use Rattle.engine_core.specs.Holding.{scene_of};
ghost use Rattle.engine_questions.specs.Asking.{IsReady, Kept};
ghost use Rattle.engine_values.specs.Finding.{FindsValue};

use engine_core::Core;
use engine_questions::{ItemStream, Questions};
use lists::List;
use sheet_ast::{Instruction, VarValue};
use std::alloc::Global;
use xpath_meaning::{Env, EvalStop};
use xpath_values::{Atom, Value};

/// What was found for a variable (XSLT 1.0, section 11.2).
#[derive(Drop)]
pub enum Found<'s> {
    Value(Value),
    /// The body whose events are the value; it is run apart.
    Content(&'s [Instruction]),
}

/// The value of a variable, or the body that makes it. A select is evaluated at the current context.
pub fn find_value<'s, S: ItemStream, Q: Questions<'s, S>>(
    core: &Core<'s, S>,
    alloc: Global,
    v: &mut Q,
    value: &'s VarValue,
) -> Result<Found<'s>, EvalStop>
    requires { IsReady (Q.sees v.old) (Q.fits v.old) (core.now.globals ++ core.now.locals) core.now.context }
    ensures kept { Kept (Q.sees v.old) (Q.sees v.new) (Q.asked v.old) (Q.asked v.new) (Q.fits v.new) }
    ensures found { FindsValue (scene_of S.walks S.follows (Q.asked v.old) (Q.sees v.old)) (Q.sees v.old).steps (Q.sees v.new).steps core.now value.now result }
{
    match value {
        VarValue::Select(e) => {
            let env = Env {
                globals: &core.globals,
                locals: &core.locals,
            };
            Ok(Found::Value(v.value(alloc, e, &core.context, &env)?))
        }
        VarValue::Content(body) => Ok(Found::Content(body.as_slice())),
        VarValue::Empty => Ok(Found::Value(Value::Atom(Atom::Text(List::new(alloc))))),
    }
}
