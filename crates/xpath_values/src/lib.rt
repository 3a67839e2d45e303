//! Values of expressions, their conversions and comparisons (XPath 1.0, sections 3.4, 4.2 to 4.4), which see no
//! document.
#![tactic(auto)]

mod atom;
mod comparing;
mod fragment;
mod value;

pub use atom::{Atom, number_of, text_of, truth_of};
pub use comparing::compare;
pub use fragment::{ConversionError, fragment_beside, fragment_number, fragment_text};
pub use value::{Value, copy_atom, copy_value, value_truth};
pub use whole_num::Memory;

#[cfg(test)]
mod tests;
