//! A stylesheet from the bytes of its source.
#![tactic(auto)]

mod compiling;
mod joining;
mod laws;
mod lines;
mod modules;
mod stop;

pub use compiling::compile;
pub use joining::join;
pub use laws::one_answer;
pub use modules::{Module, read_module};
pub use stop::CompileStop;
