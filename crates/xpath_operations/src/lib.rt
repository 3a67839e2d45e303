//! Operators on operands that were evaluated (XPath 1.0, sections 3.3 to 3.5), over any view of a document that may still
//! grow: how an operand is converted, where the left one decides, and what the two give. Functions take their arguments in
//! the same ways.
#![tactic(auto)]

mod combining;
mod laws;
mod operand;

pub use combining::{combined, decided, negated};
pub use laws::operations_are_made_of_operands;
pub use operand::{Operand, OperandKind, is_converted, kind_of, operand_of, operand_of_first};
