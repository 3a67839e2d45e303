//! Tests of expressions over tables that are built from lines: their values over whole documents and over documents that
//! still grow, as booleans, as strings and as predicates, and the items of paths one by one.
#![tactic(auto)]

#[cfg(test)]
mod growing;
#[cfg(test)]
mod table;
#[cfg(test)]
mod values;
