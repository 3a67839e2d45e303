//! The string functions of XPath 1.0, section 4.2, and the test of languages of section 4.3, over bytes.
//!
//! A character is cut before each byte that doesn't go on with one (`10xxxxxx` in UTF-8), so each call is total, and
//! on UTF-8 counts as the standard does.
#![tactic(auto)]

mod characters;
mod language;
mod positions;
mod searching;
mod spacing;
mod translating;

pub use characters::string_length;
pub use language::lang_matches;
pub use positions::substring;
pub use searching::{contains, starts_with, substring_after, substring_before};
pub use spacing::normalize_space;
pub use translating::translate;

#[cfg(test)]
mod tests;
