//! Why a transformation ends before its document does.
#![tactic(auto)]

mod fault;

pub use fault::FaultKind;
