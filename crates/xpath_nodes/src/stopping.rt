// Why an expression stops where a call below it stopped.
ghost use Rattle.std.specs.Prelude.{◌≡◌, List, Ok, Err, MatchResult};
ghost use Rattle.key_sources.specs.Going.{Gives};
ghost use Rattle.xpath_meaning.specs.declared.stop.EvalStop.TheVariants as stop;
ghost use Rattle.xpath_meaning.specs.Outcome as outcome;
ghost use Rattle.xpath_nodes.specs.Stopping.{stop_for};
ghost use Rattle.result_events.specs.declared.event.ResultEvent.{ResultEvent};
ghost use Rattle.whole_num.specs.Text.{number_of};
ghost use Rattle.xpath_values.specs.Fragments.{text_of, Converts};

use doc_model::Ask;
use fault_kinds::FaultKind;
use whole_num::{Memory, Num, NumFault};
use xpath_meaning::EvalStop;
use xpath_values::ConversionError;

pub(crate) fn stop_for(ask: Ask) -> EvalStop
    ensures { result ≡ stop_for ask }
{
    match ask {
        Ask::NotYet(row) => EvalStop::NotYet(row),
        Ask::Memory => EvalStop::Memory,
    }
}

fn fault_of(fault: NumFault) -> FaultKind
    ensures { result ≡ outcome.fault_of fault }
{
    match fault {
        NumFault::NumberRange => FaultKind::NumberRange,
        NumFault::Fraction => FaultKind::Fraction,
    }
}

/// What a calculation gives.
pub fn calculated<T>(result_of: Result<T, NumFault>) -> Result<T, EvalStop>
    ensures { Gives (outcome.calculated result_of) result }
{
    match result_of {
        Ok(value) => Ok(value),
        Err(fault) => Err(EvalStop::Fault(fault_of(fault))),
    }
}

/// What was made with the memory that there was.
pub fn made<T>(result_of: Result<T, Memory>) -> Result<T, EvalStop>
    ensures { MatchResult result_of (λ x. result ≡ Ok x) (λ e. result ≡ Err stop.Memory) }
{
    match result_of {
        Ok(value) => Ok(value),
        Err(Memory) => Err(EvalStop::Memory),
    }
}

/// The number of a fragment.
pub(crate) fn converted(result_of: Result<Num, ConversionError>) -> Result<Num, EvalStop>
    ensures { (events : List ResultEvent) → Converts events result_of → Gives (outcome.calculated (number_of (text_of events))) result }
{
    match result_of {
        Ok(number) => Ok(number),
        Err(ConversionError::Fault(fault)) => Err(EvalStop::Fault(fault_of(fault))),
        Err(ConversionError::Memory) => Err(EvalStop::Memory),
    }
}
