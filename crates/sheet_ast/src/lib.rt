//! What a stylesheet is, once it is read.
#![tactic(auto)]

mod instruction;
mod sheet;

pub use instruction::{Body, Instruction, LiteralAttr, SortDecl, VarValue, Variable, When};
pub use sheet::{Global, KeyDecl, Rule, Sheet, StripRuleDecl, Template};
pub use sheet_scopes::{ScopeEntry, resolve};
pub use xpath_binding::{BindError, Function, VarNames, bind, bind_pattern, mark};
