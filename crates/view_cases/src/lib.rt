//! Tests of tables that are built from lines and of views over them: rows and links, every axis and node test,
//! what they cost, growth, stripping, values and copies.
#![tactic(auto)]

#[cfg(test)]
mod copies;
#[cfg(test)]
mod counting;
#[cfg(test)]
mod names;
#[cfg(test)]
mod tables;
#[cfg(test)]
mod tests;
#[cfg(test)]
mod values;
