//! What expressions ask of nodes, over any view of a document that may still grow: strings, numbers and names of nodes,
//! their language, sums, comparisons, and look-ups by keys and IDs (XPath 1.0, sections 3.4, 4; XSLT 1.0, section 12).
//!
//! Each call says that the view went on, and answers what `xpath_meaning` defines: a value and a fault are those at the
//! end of the call, and so at every growth; `NotYet` names a row that was open at a step of the call and that must be
//! shut first; and `Memory` is want of memory.
#![tactic(auto)]

mod asking;
mod comparing;
mod lang;
mod lookups;
mod names;
mod stopping;
mod sums;
mod texts;
mod values;

pub use asking::axis_nodes;
pub use comparing::compare_values;
pub use lang::speaks;
pub use lookups::{found_by_key, named_by_ids};
pub use names::{full_name, generate_id, local_name, namespace_uri};
pub use stopping::{calculated, made};
pub use sums::{count, sum};
pub use texts::{
    first_number, first_text, node_number, node_text, texts_of, value_number, value_text,
};
pub use values::{value_holds, value_nodes};
