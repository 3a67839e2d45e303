//! Which template rule is a node's template on the part of a document that is there (XSLT 1.0, sections 2.6.2 and
//! 5.5). Definitions alone.
#![tactic(auto)]
