//! Namespace scopes, and names split at their colon.
#![tactic(auto)]

mod index;
mod innermost;
mod qname;
mod scopes;

pub use innermost::innermost_scope_decides;
pub use qname::split_qname;
pub use scopes::{Binding, NumberedUri, Scopes, is_fixed};
