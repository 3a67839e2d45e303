//! What frames hold.

use lists::List;
use result_events::Name;
use sheet_ast::{Instruction, SortDecl, Variable};
use xpath_syntax::{Expr, NameRef};
use xpath_values::Value;

/// A value that is handed on to a template (XSLT 1.0, section 11.6).
#[derive(Drop)]
pub struct Handed<'s> {
    pub name: &'s NameRef,
    pub value: Value,
}

/// To what templates values are handed on.
#[derive(Clone, Copy)]
pub enum Call<'s> {
    /// Those of the items of a select, in a mode (XSLT 1.0, section 5.4).
    Apply {
        select: &'s Expr,
        /// 0 is no mode.
        mode: u32,
        sorts: &'s [SortDecl],
    },
    /// The one at this place in the sheet (XSLT 1.0, section 6).
    Template(u32),
}

/// Values that are handed on.
#[derive(Drop)]
pub struct Passing<'s> {
    pub call: Call<'s>,
    /// Those that are not evaluated yet, in the order of the sheet.
    pub left: &'s [Variable],
    /// Those that are.
    pub given: List<Handed<'s>>,
}

/// The parameters of a template, and its body behind them.
#[derive(Drop)]
pub struct Declaring<'s> {
    /// Those that have no value yet, in the order of the sheet.
    pub left: &'s [Variable],
    /// Whether the first of them has its unit of the budget.
    pub begun: bool,
    /// The values that were handed on.
    pub given: List<Handed<'s>>,
    pub body: &'s [Instruction],
}

/// What is done at each item of a select.
#[derive(Drop)]
pub enum Work<'s> {
    /// Its template in a mode, with the values that are handed on.
    ByMode {
        /// 0 is no mode.
        mode: u32,
        given: List<Handed<'s>>,
    },
    /// A body (XSLT 1.0, section 8).
    ByBody(&'s [Instruction]),
}

/// What becomes of the value of a variable.
#[derive(Drop)]
pub enum Use<'s> {
    /// It is a local from then on (XSLT 1.0, section 11.1).
    Local,
    /// It is handed on under a name.
    Handed {
        name: &'s NameRef,
        passing: Passing<'s>,
    },
    /// It is the value of the parameter before those that are left.
    Declared(Declaring<'s>),
    /// It is that of the global at this place; the places of the globals behind it are left.
    Global {
        at: u32,
        left: &'s [u32],
    },
}

/// What becomes of the events of a body that is run apart.
#[derive(Drop)]
pub enum Purpose<'s> {
    /// They are a value, as a fragment of a result tree (XSLT 1.0, section 11.1).
    Value(Use<'s>),
    /// Their text is the value of the attribute of this name (XSLT 1.0, section 7.1.3).
    Attribute(Name),
    /// Their text is that of a processing instruction with this target (XSLT 1.0, section 7.3).
    Processing(List<u8>),
    /// Their text is that of a comment (XSLT 1.0, section 7.4).
    Comment,
    /// Their text is a message (XSLT 1.0, section 13).
    Message { terminate: bool },
}
