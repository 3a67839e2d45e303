//! What the globals of a stylesheet depend on, as a graph of globals, templates and modes (XSLT 1.0, section 11.4).
//! Definitions alone.
#![tactic(auto)]
