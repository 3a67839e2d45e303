//! What is left to do.

use crate::parts::{Declaring, Handed, Passing, Purpose, Work};
use lists::List;
use result_events::Buffer;
use sheet_ast::{Instruction, LiteralAttr, SortDecl, When};
use sort_keys::KeyRow;
use xpath_meaning::Context;
use xpath_syntax::Expr;
use xpath_values::Value;

/// What is left to do of one body, select, list of parameters or body that is run apart. `'s` is the borrow of the
/// stylesheet.
#[derive(Drop)]
pub enum Frame<'s> {
    /// An open template, built-in ones included: the locals and the context to which its end goes back.
    Template {
        locals: List<Value>,
        context: Context,
    },
    /// Instructions.
    Body {
        rest: &'s [Instruction],
        /// Whether the first of them has its unit of the budget.
        begun: bool,
        /// How many locals stand behind them.
        locals: usize,
    },
    /// The end of an element.
    Close,
    /// Attributes of a literal result element, and then its body and its end (XSLT 1.0, section 7.1.1).
    Literal {
        attributes: &'s [LiteralAttr],
        body: &'s [Instruction],
    },
    /// Tests of xsl:choose, of which none held so far, and what there is otherwise (XSLT 1.0, section 9.2).
    Whens {
        whens: &'s [When],
        otherwise: Option<&'s [Instruction]>,
    },
    /// Values that are handed on, and then what they are handed on to.
    Params(Passing<'s>),
    /// The template of the current node in a mode, which is not chosen yet.
    Choose {
        /// 0 is no mode.
        mode: u32,
        given: List<Handed<'s>>,
    },
    /// Parameters of a template, and then its body.
    Declared(Declaring<'s>),
    /// The items of a select that are taken one by one, at the context to which their end goes back. The stream that
    /// gives them lies beside the frames.
    Stream {
        /// Without one, the children of the context node.
        select: Option<&'s Expr>,
        /// How many were taken.
        taken: u64,
        work: Work<'s>,
        context: Context,
    },
    /// The items of any other select, from a place on; in the order of their sort keys, where that is asked.
    Items {
        nodes: List<u32>,
        next: usize,
        work: Work<'s>,
        context: Context,
    },
    /// The children of the context node, which must be known whole first: the built-in rule of a stylesheet that asks for
    /// sizes (XSLT 1.0, section 5.8).
    Children {
        /// That of the templates that they have; 0 is no mode.
        mode: u32,
    },
    /// Items whose sort keys are evaluated, one row of keys for each from the first on (XSLT 1.0, section 10).
    Keys {
        nodes: List<u32>,
        rows: List<KeyRow>,
        sorts: &'s [SortDecl],
        work: Work<'s>,
        context: Context,
    },
    /// Nodes that are copied, from a place on (XSLT 1.0, section 11.3).
    Copies {
        nodes: List<u32>,
        next: usize,
    },
    /// The end of a body that is run apart: the events outside it, and what becomes of its own.
    Apart {
        outer: Buffer,
        purpose: Purpose<'s>,
    },
    /// The globals at these places (XSLT 1.0, section 11.4).
    Globals {
        left: &'s [u32],
        /// Whether the first of them has its unit of the budget.
        begun: bool,
    },
}
