//! A transformation that stops where it must wait for its document, and resumes where it stood (XSLT 1.0, sections 5 to
//! 13). Its native stack doesn't grow with what templates and instructions nest.
#![tactic(auto)]

mod bodies;
mod laws;
mod machine;
mod moves;
mod turn;

pub use laws::machines_go_on;
pub use machine::{Machine, Raw};
pub use turn::{Spent, Turn};
