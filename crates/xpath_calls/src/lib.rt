//! Functions (XPath 1.0, section 4; XSLT 1.0, section 12) of arguments that were evaluated, over any view of a document that
//! may still grow: which function a call is of, how it takes each argument, and what it gives.
#![tactic(auto)]

mod calling;
mod laws;
mod nodes;
mod plain;
mod taken;
mod taking;
mod texts;

pub use calling::called;
pub use laws::calls_are_made_of_arguments;
pub use taking::{call_of, kind_at};
pub use xpath_binding::Function;
