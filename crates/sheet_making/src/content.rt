//! What the nodes in an element make, by what it is.

ghost use Rattle.std.specs.Prelude.{◌≡◌, OnOk};
ghost use Rattle.sheet_making.specs.Contents.{no_content, with_made};

use crate::made::Made;
use lists::List;
use sheet_ast::{Instruction, SortDecl, Variable, When};
use std::alloc::{AllocError, Global};

/// What the nodes in an element make, in document order.
#[derive(Drop)]
pub struct Content {
    pub body: List<Instruction>,
    /// Parameters, or values that are handed on.
    pub variables: List<Variable>,
    pub sorts: List<SortDecl>,
    pub cases: List<When>,
    /// What is done in no case.
    pub otherwise: Option<List<Instruction>>,
}

pub fn no_content(alloc: Global) -> Content
    ensures { result ≡ no_content }
{
    Content {
        body: List::new(alloc),
        variables: List::new(alloc),
        sorts: List::new(alloc),
        cases: List::new(alloc),
        otherwise: None,
    }
}

/// Adds what one node makes.
pub fn add(content: &mut Content, made: Made) -> Result<(), AllocError>
    ensures { OnOk result (content.new ≡ with_made content.old made) }
{
    match made {
        Made::Does(instruction) => content.body.push(instruction),
        Made::Binds(variable) => content.variables.push(variable),
        Made::Sorts(sort) => content.sorts.push(sort),
        Made::Cases(when) => content.cases.push(when),
        Made::Else(body) => {
            if content.otherwise.is_none() {
                content.otherwise = Some(body);
            }
            Ok(())
        }
        Made::Nothing => Ok(()),
    }
}
