//! What each instruction of a template does, once it has its unit of the budget (XSLT 1.0, sections 5 to 11 and 13).
#![tactic(auto)]

mod apart;
mod bodies;
mod choices;
mod dispatch;
mod elements;
mod selects;
mod texts;

pub use dispatch::act;
