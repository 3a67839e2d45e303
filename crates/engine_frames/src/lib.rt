//! What each frame of a transformation that stops and resumes does, once it is taken off the stack.
#![tactic(auto)]

mod cases;
mod passing;
mod selects;
mod templates;

pub use cases::{close, literal, whens};
pub use passing::{globals, params, receive};
pub use selects::{copies, items, keys, stream};
pub use templates::{children, choose, declared};
