//! The trees of expressions (XPath 1.0, 2 and 3). Abbreviations are written out in them.

ghost use Rattle.std.specs.Prelude.{◌≡◌};
ghost use Rattle.xpath_syntax.specs.declared.expression.Expr.{Expr, roll-Expr};
ghost use Rattle.xpath_syntax.specs.declared.expression.Expr.TheFolds.{fold-Expr};
ghost use Rattle.xpath_syntax.specs.declared.expression.Path.{Path, roll-Path};
ghost use Rattle.xpath_syntax.specs.declared.expression.StepExpr.{StepExpr, roll-StepExpr};
ghost use Rattle.xpath_syntax.specs.Layers.{of_layer};

use lists::{Boxed, List};

/// A name as it is written, and what it is bound to, which the parsers leave open.
#[derive(Clone, Debug, Drop, PartialEq, Eq)]
pub struct NameRef {
    /// Empty where the name has none.
    pub prefix: List<u8>,
    pub local: List<u8>,
    pub uri: Option<List<u8>>,
    /// The place of a variable, or that of a key's declaration.
    pub slot: Option<u32>,
}

/// What stands between two operands.
#[derive(Clone, Copy, Debug, PartialEq, Eq)]
pub enum Op {
    Or,
    And,
    Equal,
    NotEqual,
    Less,
    LessEqual,
    Greater,
    GreaterEqual,
    Add,
    Subtract,
    Multiply,
    Div,
    Mod,
    Union,
}

/// The axis of a step (XPath 1.0, 2.2), as it is written.
#[derive(Clone, Copy, Debug, PartialEq, Eq)]
pub enum AxisName {
    /// The axis self.
    Itself,
    Child,
    Parent,
    Descendant,
    DescendantOrSelf,
    Ancestor,
    AncestorOrSelf,
    Following,
    Preceding,
    FollowingSibling,
    PrecedingSibling,
    Attribute,
    Namespace,
}

/// The node test of a step (XPath 1.0, 2.3).
#[derive(Clone, Debug, Drop, PartialEq, Eq)]
pub enum TestExpr {
    /// `*`.
    AnyName,
    /// `prefix:*`.
    InPrefix(NameRef),
    Name(NameRef),
    /// `node()`.
    Node,
    /// `text()`.
    Text,
    /// `comment()`.
    Comment,
    /// `processing-instruction()`, which may name a target.
    Instruction(Option<List<u8>>),
}

/// An expression (XPath 1.0, 3). Only brackets, predicates, argument lists and unary minus nest by a limit; operators of
/// one precedence group to the left without one, so a chain of them is a tree as deep as it is long.
///
/// Trees have no derived `==` and `Debug`, which would take as much stack as a chain is long.
#[cycle(expression)]
pub enum Expr {
    Binary {
        op: Op,
        left: Boxed<Expr>,
        right: Boxed<Expr>,
    },
    /// The unary minus.
    Minus(Boxed<Expr>),
    Literal(List<u8>),
    /// A whole number of magnitude at most 2^53 - 1.
    Number(i64),
    Variable(NameRef),
    /// The call of a function.
    Call {
        name: NameRef,
        args: List<Expr>,
    },
    Path(Path),
    /// A primary with predicates, which a relative path may follow.
    Filter {
        primary: Boxed<Expr>,
        predicates: List<Expr>,
        tail: Option<Path>,
    },
}

// By a loop over left operands, so that a long chain of operators takes no stack.
impl Drop for Expr {
    #[cycle(expression)]
    fn drop(mut self) {
        loop {
            match self {
                Expr::Binary { op: _, left, right } => {
                    drop(right);
                    self = left.into_inner();
                }
                Expr::Minus(inner) => self = inner.into_inner(),
                Expr::Literal(_) => return,
                Expr::Number(_) => return,
                Expr::Variable(_) => return,
                Expr::Call { name: _, args } => return drop(args),
                Expr::Path(path) => return drop(path),
                Expr::Filter {
                    primary,
                    predicates,
                    tail,
                } => {
                    drop(predicates);
                    drop(tail);
                    self = primary.into_inner();
                }
            }
        }
    }
}

/// The outermost form of an expression, with the parts of an `Expr`. An `Expr` drops itself by a loop of its own, so its
/// parts can be moved out of it only through this.
#[derive(Drop)]
pub enum Layer {
    Binary {
        op: Op,
        left: Boxed<Expr>,
        right: Boxed<Expr>,
    },
    /// The unary minus.
    Minus(Boxed<Expr>),
    Literal(List<u8>),
    Number(i64),
    Variable(NameRef),
    /// The call of a function.
    Call {
        name: NameRef,
        args: List<Expr>,
    },
    Path(Path),
    /// A primary with predicates, which a relative path may follow.
    Filter {
        primary: Boxed<Expr>,
        predicates: List<Expr>,
        tail: Option<Path>,
    },
}

impl Expr {
    /// The outermost form, with the parts moved into it. Takes no memory.
    pub fn into_layer(self) -> Layer
        ensures { of_layer result ≡ self }
    {
        match self {
            Expr::Binary { op, left, right } => Layer::Binary { op, left, right },
            Expr::Minus(inner) => Layer::Minus(inner),
            Expr::Literal(text) => Layer::Literal(text),
            Expr::Number(whole) => Layer::Number(whole),
            Expr::Variable(name) => Layer::Variable(name),
            Expr::Call { name, args } => Layer::Call { name, args },
            Expr::Path(path) => Layer::Path(path),
            Expr::Filter {
                primary,
                predicates,
                tail,
            } => Layer::Filter {
                primary,
                predicates,
                tail,
            },
        }
    }
}

/// A location path (XPath 1.0, 2).
#[cycle(expression)]
#[derive(Drop)]
pub struct Path {
    /// Whether it begins at the root.
    pub absolute: bool,
    pub parts: List<StepExpr>,
    /// Whether its nodes may be read one by one; the parsers leave it false.
    pub streams: bool,
}

/// A step of a path (XPath 1.0, 2.1).
#[cycle(expression)]
#[derive(Drop)]
pub struct StepExpr {
    pub axis: AxisName,
    pub test: TestExpr,
    pub predicates: List<Expr>,
}

/// A tree is what the fold over expressions, paths and steps makes of its layers again.
pub fn trees_are_made_of_layers()
    ensures { (e : Expr) → fold-Expr Expr Path StepExpr roll-Expr roll-Path roll-StepExpr e ≡ e }
{}
