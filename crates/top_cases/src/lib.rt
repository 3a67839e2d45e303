//! Tests of what no contract says of the top call and of what stands below it: each answer once with ample memory, and failing calls.
#![tactic(auto)]

#[cfg(test)]
mod calls;
#[cfg(test)]
mod feeds;
