//! A stylesheet and its top-level elements (XSLT 1.0, section 2.2).

use crate::instruction::{Instruction, VarValue, Variable};
use lists::List;
use sheet_scopes::ScopeEntry;
use xpath_syntax::{Expr, NameRef, Pattern, PatternPath};

/// A stylesheet. The places in its lists are counted from 0.
#[derive(Drop)]
pub struct Sheet {
    /// In the order of the sheet.
    pub rules: List<Rule>,
    pub templates: List<Template>,
    pub globals: List<Global>,
    pub keys: List<KeyDecl>,
    pub strips: List<StripRuleDecl>,
    /// The declarations of namespaces, which number the scopes of the instructions that compute names.
    pub scopes: List<ScopeEntry>,
    /// Whether the output method is text, and not PYX.
    pub text_method: bool,
}

/// One alternative of a template's pattern (XSLT 1.0, sections 5.3 and 5.5).
#[derive(Drop)]
pub struct Rule {
    pub pattern: PatternPath,
    /// 0 is no mode.
    pub mode: u32,
    /// In hundredths.
    pub priority: i32,
    /// The import precedence; 0 where nothing is imported.
    pub precedence: u32,
    /// The place of the template in the sheet.
    pub template: u32,
}

/// xsl:template.
#[derive(Drop)]
pub struct Template {
    pub name: Option<NameRef>,
    pub params: List<Variable>,
    pub body: List<Instruction>,
    /// The line of the element's start, counted from 1.
    pub line: u64,
}

/// A top-level variable or parameter (XSLT 1.0, section 11.4).
#[derive(Drop)]
pub struct Global {
    pub name: NameRef,
    pub value: VarValue,
    pub param: bool,
}

/// xsl:key (XSLT 1.0, section 12.2).
#[derive(Drop)]
pub struct KeyDecl {
    pub name: NameRef,
    pub matches: Pattern,
    pub value: Expr,
}

/// One name test of xsl:strip-space or xsl:preserve-space (XSLT 1.0, section 3.4).
#[derive(Drop)]
pub struct StripRuleDecl {
    /// Strip, or preserve.
    pub strip: bool,
    /// The namespace of the names; without it, every name. A local name stands only beside a namespace.
    pub uri: Option<List<u8>>,
    /// The local name; without it, every name of the namespace.
    pub local: Option<List<u8>>,
    /// The import precedence; 0 where nothing is imported.
    pub precedence: u32,
}
