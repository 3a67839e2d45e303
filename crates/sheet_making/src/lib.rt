//! A stylesheet, made of its elements once their names are known (XSLT 1.0, sections 2 to 13).
#![tactic(auto)]

mod attributes;
mod bodies;
mod content;
mod expressions;
mod instructions;
mod made;
mod names;
mod rules;
mod scope;
mod sheet;
mod tops;

pub use sheet::sheet_of;
