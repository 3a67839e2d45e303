//! What elements are made into.

use lists::List;
use sheet_ast::{Instruction, SortDecl, Variable, When};

/// What an element makes of itself.
#[derive(Drop)]
pub enum Made {
    /// An instruction.
    Does(Instruction),
    /// A parameter, or a value that is handed on (XSLT 1.0, section 11).
    Binds(Variable),
    /// A sort key (10).
    Sorts(SortDecl),
    /// A case of a choice (9.2).
    Cases(When),
    /// What is done in no case.
    Else(List<Instruction>),
    Nothing,
}
