//! The elements of a stylesheet: their names, their attributes, and what may stand in each.
#![tactic(auto)]

mod attributes;
mod fault;
mod names;
mod places;
mod table;
mod tag;

pub use attributes::{is_left_out_attribute, is_literal, kind_of};
pub use fault::{SheetFault, SheetKind};
pub use names::{is_left_out, is_xsl, tag_of, word_of};
pub use places::{Place, behind, behind_text, content, tells_left_out};
pub use table::{Kind, Need, Row, rows};
pub use tag::{Tag, Word};
