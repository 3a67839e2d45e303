//! What an expression, a pattern and a key mean on the part of a document that is there (XPath 1.0; XSLT 1.0,
//! sections 5.2, 12.2): a value, a fault, or the row that must be shut first. Definitions, and the types that they
//! speak of.
#![tactic(auto)]

mod context;
mod stop;

pub use context::{Context, Env, Size};
pub use stop::EvalStop;
