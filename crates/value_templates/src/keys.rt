//! The sort keys of an item (XSLT 1.0, section 10).

ghost use Rattle.engine_meaning.specs.Places.{place, setting};
ghost use Rattle.engine_meaning.specs.Sorts as means;
ghost use Rattle.engine_questions.specs.Asking.{IsReady, Kept, Shows};
ghost use Rattle.key_sources.specs.Going.{Gives};
ghost use Rattle.sheet_ast.specs.declared.sheet.Sheet.{Sheet};
ghost use Rattle.whole_num.specs.Text as numbers;
ghost use Rattle.xpath_meaning.specs.Outcome.{calculated};
ghost use Rattle.xpath_meaning.specs.Readings.{values_of};
ghost use Rattle.xpath_meaning.specs.declared.context.Context.{Context};

use engine_questions::{ItemStream, Questions};
use fault_kinds::FaultKind;
use lists::List;
use sheet_ast::SortDecl;
use sort_keys::{KeyPart, KeyRow};
use std::alloc::Global;
use whole_num::{Num, NumFault, parse};
use xpath_meaning::{Context, Env, EvalStop};

/// The sort keys of an item, in order (XSLT 1.0, section 10). Each is asked for as a string, with the item as the current
/// node, and for the data type number is then the number of that string (XPath 1.0, section 4.4). `Fault(NumberRange)`:
/// the magnitude of a number is above 9,007,199,254,740,991; `Fault(Fraction)`: a number is not whole.
///
/// The keys and a fault are those at the end of the call, and so at every growth; `NotYet` names a row that must be shut
/// first and at a step of the call was open. After want of memory nothing is said.
pub fn key_row<'s, S: ItemStream, Q: Questions<'s, S>>(
    alloc: Global,
    v: &mut Q,
    sorts: &[SortDecl],
    item: &Context,
    env: &Env,
) -> Result<KeyRow, EvalStop>
    requires { IsReady (Q.sees v.old) (Q.fits v.old) (values_of env.now) item.now }
    ensures kept { Kept (Q.sees v.old) (Q.sees v.new) (Q.asked v.old) (Q.asked v.new) (Q.fits v.new) }
    ensures answers { (sheet : Sheet) (c : Context) → Shows (Q.asked v.old).lookups (λ w. means.keys_at (setting sheet w env.now.globals.now) (place c env.now.locals.now) sorts.now item.now) (Q.sees v.old) (Q.sees v.new) result }
{
    let mut row = List::new(alloc);
    for sort in sorts {
        let key = key_at(alloc, v, sort, item, env)?;
        row.push(key)?;
    }
    Ok(row)
}

fn key_at<'s, S: ItemStream, Q: Questions<'s, S>>(
    alloc: Global,
    v: &mut Q,
    sort: &SortDecl,
    item: &Context,
    env: &Env,
) -> Result<KeyPart, EvalStop>
    requires { IsReady (Q.sees v.old) (Q.fits v.old) (values_of env.now) item.now }
    ensures kept { Kept (Q.sees v.old) (Q.sees v.new) (Q.asked v.old) (Q.asked v.new) (Q.fits v.new) }
    ensures answers { (sheet : Sheet) (c : Context) → Shows (Q.asked v.old).lookups (λ w. means.key_at (setting sheet w env.now.globals.now) (place c env.now.locals.now) item.now sort.now) (Q.sees v.old) (Q.sees v.new) result }
{
    let text = v.text(alloc, &sort.select, item, env)?;
    key_part(sort.number, text)
}

// A key by its text.
fn key_part(number: bool, text: List<u8>) -> Result<KeyPart, EvalStop>
    ensures { Gives (means.key_part number text) result }
{
    if number {
        let number = number_of(text.as_slice())?;
        Ok(KeyPart::Number(number))
    } else {
        Ok(KeyPart::Text(text))
    }
}

fn number_of(text: &[u8]) -> Result<Num, EvalStop>
    ensures { Gives (calculated (numbers.number_of text.now)) result }
{
    match parse(text) {
        Ok(number) => Ok(number),
        Err(NumFault::NumberRange) => Err(EvalStop::Fault(FaultKind::NumberRange)),
        Err(NumFault::Fraction) => Err(EvalStop::Fault(FaultKind::Fraction)),
    }
}
