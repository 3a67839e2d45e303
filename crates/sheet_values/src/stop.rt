ghost use Rattle.std.specs.Prelude.{◌≡◌};
ghost use Rattle.sheet_values.specs.Refusals.{stop_unbound, stop_unparsed};
ghost use Rattle.sheet_values.specs.declared.stop.ValueStop.TheVariants as variant;

use sheet_elements::SheetKind;
use std::alloc::AllocError;
use thiserror::Error;
use xpath_binding::BindError;
use xpath_parse::ParseError;

/// Why an attribute has no value.
#[derive(Clone, Copy, Debug, PartialEq, Eq, Error)]
pub enum ValueStop {
    /// The value's first fault.
    #[error("the value is refused")]
    Refused(SheetKind),
    #[error("out of memory")]
    Memory,
}

impl From<AllocError> for ValueStop {
    ghost from_gives = { λ _ e. e ≡ variant.Memory };

    fn from(_error: AllocError) -> ValueStop {
        ValueStop::Memory
    }
}

/// The stop of a text that has no tree.
pub(crate) fn stop_unparsed(error: ParseError) -> ValueStop
    ensures { result ≡ stop_unparsed error }
{
    match error {
        ParseError::Lex(_) => ValueStop::Refused(SheetKind::Lex),
        ParseError::Syntax(_) => ValueStop::Refused(SheetKind::Syntax),
        ParseError::FractionLiteral(_) => ValueStop::Refused(SheetKind::FractionLiteral),
        ParseError::NumberLimit(_) => ValueStop::Refused(SheetKind::NumberLimit),
        ParseError::TooDeep(_) => ValueStop::Refused(SheetKind::ExprTooDeep),
        ParseError::Memory => ValueStop::Memory,
    }
}

/// The stop of a tree whose names aren't bound.
pub(crate) fn stop_unbound(error: BindError) -> ValueStop
    ensures { result ≡ stop_unbound error }
{
    match error {
        BindError::UnboundPrefix => ValueStop::Refused(SheetKind::UnboundPrefix),
        BindError::UnknownFunction => ValueStop::Refused(SheetKind::UnknownFunction),
        BindError::WrongArgs => ValueStop::Refused(SheetKind::WrongArgs),
        BindError::UnknownVariable => ValueStop::Refused(SheetKind::UnknownVariable),
        BindError::Unsupported => ValueStop::Refused(SheetKind::Unsupported),
        BindError::Memory => ValueStop::Memory,
    }
}
