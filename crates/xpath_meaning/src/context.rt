//! Where an expression is evaluated (XPath 1.0, section 1).

use lists::List;
use xpath_values::Value;

/// The context size, which `last()` gives.
#[derive(Clone, Copy, Debug, PartialEq, Eq)]
pub enum Size {
    /// From 1 to 9,007,199,254,740,991.
    Known(u64),
    /// The size of a list that is still found, which no expression asks for.
    Unasked,
}

/// The context of an expression.
#[derive(Clone, Copy, Debug, PartialEq, Eq)]
pub struct Context {
    /// The row of the context node.
    pub node: u32,
    /// Counted from 1.
    pub position: u64,
    pub size: Size,
    /// The row of the current node (XSLT 1.0, section 12.4).
    pub current: u32,
}

/// The values of variables. A variable's slot is its place among them, globals first.
#[derive(Clone, Copy)]
pub struct Env<'v> {
    pub globals: &'v List<Value>,
    pub locals: &'v List<Value>,
}
