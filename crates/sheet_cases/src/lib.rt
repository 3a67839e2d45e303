//! Tests of stylesheets: their elements, the values of attributes, the first faults of each pass and over all passes, and
//! the rules that they have.
#![tactic(auto)]

#[cfg(test)]
mod compiled;
#[cfg(test)]
mod names;
#[cfg(test)]
mod readings;
#[cfg(test)]
mod sources;
#[cfg(test)]
mod values;
