//! String-values of the rows of any view.
#![tactic(auto)]

mod laws;
mod value;

pub use doc_model::Ask;
pub use laws::known_values_stay;
pub use value::value_of;
