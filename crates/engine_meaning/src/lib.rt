//! What a stylesheet means on the part of a document that is there (XSLT 1.0, sections 5 to 13): its result events,
//! its messages and how it ends, or the row that must be shut first. Definitions alone.
#![tactic(auto)]
