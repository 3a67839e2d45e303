//! The instructions of templates (XSLT 1.0, sections 7 to 11 and 13).

use lists::List;
use xpath_syntax::{Expr, NameRef, Part};

/// What stands in a template or an instruction, in order.
pub type Body = List<Instruction>;

/// An instruction, or a node of the result.
#[cycle(instruction)]
#[derive(Drop)]
pub enum Instruction {
    /// Text, of a text node or of xsl:text (7.2).
    LiteralText(List<u8>),
    /// A literal result element (7.1.1).
    LiteralElement {
        name: NameRef,
        attributes: List<LiteralAttr>,
        body: List<Instruction>,
    },
    /// xsl:value-of (7.6.1).
    ValueOf(Expr),
    /// xsl:copy-of (11.3).
    CopyOf(Expr),
    /// xsl:copy (7.5).
    Copy(List<Instruction>),
    /// xsl:element (7.1.2).
    Element {
        name: List<Part>,
        namespace: Option<List<Part>>,
        /// The scope that stands here, as the entries of the sheet number it.
        scopes: u32,
        body: List<Instruction>,
    },
    /// xsl:attribute (7.1.3).
    Attribute {
        name: List<Part>,
        namespace: Option<List<Part>>,
        /// The scope that stands here, as the entries of the sheet number it.
        scopes: u32,
        body: List<Instruction>,
    },
    /// xsl:processing-instruction (7.3).
    Processing {
        name: List<Part>,
        body: List<Instruction>,
    },
    /// xsl:comment (7.4).
    Comment(List<Instruction>),
    /// xsl:message (13).
    Message {
        terminate: bool,
        body: List<Instruction>,
    },
    /// xsl:if (9.1).
    If {
        test: Expr,
        body: List<Instruction>,
    },
    /// xsl:choose (9.2).
    Choose {
        whens: List<When>,
        otherwise: Option<List<Instruction>>,
    },
    /// xsl:variable (11.1).
    Local(Variable),
    /// xsl:apply-templates (5.4).
    Apply {
        select: Expr,
        /// 0 is no mode.
        mode: u32,
        sorts: List<SortDecl>,
        params: List<Variable>,
    },
    /// xsl:for-each (8).
    ForEach {
        select: Expr,
        sorts: List<SortDecl>,
        body: List<Instruction>,
    },
    /// xsl:call-template (6).
    CallTemplate {
        /// The place of the template in the sheet.
        template: u32,
        params: List<Variable>,
    },
}

/// A variable or a parameter with its value, or a value that is handed on (XSLT 1.0, section 11).
#[cycle(instruction)]
#[derive(Drop)]
pub struct Variable {
    pub name: NameRef,
    pub value: VarValue,
    /// Whether a value that is handed on stands before its own.
    pub param: bool,
}

/// What gives a variable its value (XSLT 1.0, section 11.2).
#[cycle(instruction)]
#[derive(Drop)]
pub enum VarValue {
    Select(Expr),
    Content(List<Instruction>),
    /// Neither of the two: the empty text.
    Empty,
}

/// An attribute of a literal result element.
#[derive(Drop)]
pub struct LiteralAttr {
    pub name: NameRef,
    pub value: List<Part>,
}

/// xsl:when (XSLT 1.0, section 9.2).
#[cycle(instruction)]
#[derive(Drop)]
pub struct When {
    pub test: Expr,
    pub body: List<Instruction>,
}

/// xsl:sort (XSLT 1.0, section 10).
#[derive(Drop)]
pub struct SortDecl {
    pub select: Expr,
    /// By number and not by text.
    pub number: bool,
    pub descending: bool,
}
