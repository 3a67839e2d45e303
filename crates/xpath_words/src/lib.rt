//! The words of an expression's tokens, and what is read of them without reading an expression.
#![tactic(auto)]

mod leaf;
mod lexical;
mod stop;
mod word;

pub use leaf::{
    Lookahead, after, any_node, atom, axis_of, binary, comes, expect, filtered, going_on,
    is_function, next_operator, no_predicates, node_test, path, precedence_of, push_step, slashed,
    tighter,
};
pub use lexical::{literal, name, quoted};
pub use stop::ParseStop;
pub use word::{Word, words};
