//! Evaluation of expressions (XPath 1.0; XSLT 1.0, section 12) over any view of a document that may still grow, with what
//! finds nodes by keys and IDs; and the items of location paths one by one.
#![tactic(auto)]

mod evaluation;
mod judged;
mod leaves;
mod levels;
mod node_tests;
mod operations;
mod path_stream;
mod places;
mod questions;

pub use evaluation::{eval, holds};
pub use fault_kinds::FaultKind;
pub use path_stream::{PathStream, items_behind_stay, streams_stand};
pub use questions::{text, truth};
pub use xpath_meaning::{Context, Env, EvalStop, Size};
