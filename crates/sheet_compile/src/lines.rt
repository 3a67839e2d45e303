//! The lines of the variables and parameters of a stylesheet.

ghost use Rattle.std.specs.Prelude.{◌≡◌};
ghost use Rattle.sheet_compile.specs.Lines as spec;

use sheet_names::is_variable;
use sheet_reading::{Item, Judged};

fn line_of_element(element: &Judged) -> Option<u64>
    ensures { result ≡ spec.line_of_element element.now }
{
    if is_variable(element.tag) {
        Some(element.line)
    } else {
        None
    }
}

fn line_of_item(item: &Item) -> Option<u64>
    ensures { result ≡ spec.line_of_item item.now }
{
    match item {
        Item::Text(_) => None,
        Item::Element(element) => line_of_element(element),
    }
}

/// The line of a variable or parameter by its place among all, counted from 0.
pub fn line_of_global(items: &[Item], place: u32) -> u64
    ensures { result ≡ spec.line_of_global items.now place }
{
    let mut left = place;
    for item in items {
        if let Some(line) = line_of_item(item) {
            if left == 0 {
                return line;
            }
            left -= 1;
        }
    }
    0
}
