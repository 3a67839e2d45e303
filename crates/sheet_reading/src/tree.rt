//! The elements of a stylesheet that passed the first pass.

use lists::List;
use shared_texts::Shared;
use sheet_elements::{Tag, Word};
use sheet_values::Value;

/// A name as it is written, with its namespace.
#[derive(Debug, Drop)]
pub struct Name {
    /// Empty where it has none.
    pub prefix: List<u8>,
    /// Empty where it has no namespace.
    pub uri: Shared<u8>,
    pub local: List<u8>,
}

/// An attribute with its value.
#[derive(Drop)]
pub struct Given {
    pub name: Name,
    /// What its name is where it has no namespace and the element is one of the table.
    pub word: Word,
    pub value: Value,
}

/// What stands in an element.
#[cycle(tree)]
#[derive(Drop)]
pub enum Item {
    Text(List<u8>),
    Element(Judged),
}

/// An element, whose own checks and those of all in it have passed.
#[cycle(tree)]
#[derive(Drop)]
pub struct Judged {
    /// The number of its line, counted from 1.
    pub line: u64,
    pub tag: Tag,
    pub name: Name,
    /// The number of its scope among those of the stylesheet.
    pub scope: u32,
    /// In line order.
    pub given: List<Given>,
    pub children: List<Item>,
}
