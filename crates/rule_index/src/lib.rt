//! The template rule of a node in a mode (XSLT 1.0, sections 2.6.2, 5.5 and 5.7), over any view of a document that may still
//! grow: the rules of a sheet, put once in the order in which they are tried.
#![tactic(auto)]

mod choosing;
mod index;
mod naming;

pub use choosing::choose;
pub use index::RuleIndex;
pub use xpath_meaning::EvalStop;
