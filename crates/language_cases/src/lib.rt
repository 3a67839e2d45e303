//! Tests of the language: tokens and trees of texts, copies of trees and what is asked of them.
#![tactic(auto)]

#[cfg(test)]
mod bindings;
#[cfg(test)]
mod chains;
#[cfg(test)]
mod marks;
#[cfg(test)]
mod tokens;
#[cfg(test)]
mod trees;
