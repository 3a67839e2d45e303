//! The grammar of names, as tests on bytes that are UTF-8.
#![tactic(auto)]

mod names;

pub use names::{is_name, is_ncname, local, names_are_one_or_two_ncnames, prefix, split_name};

#[cfg(test)]
mod tests;
