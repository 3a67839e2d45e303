// The bindings in force, in the order in which they came, with an index of the latest of each prefix.
ghost use Rattle.std.specs.Prelude.{◌≡◌, ◌++◌, ◌∷◌, [], ℕ, List, Option, Some, IsSome, IfOk, OnOk, OnErr, take, slice_get, if◌then◌else◌};
ghost use Rattle.std.specs.Str.{bytes_eq};
ghost use Rattle.xml_names.specs.Kept.{found, IsIndexed};
ghost use Rattle.shared_texts.specs.Numbers.{Keeps, with_text};
ghost use Rattle.xml_names.specs.declared.index.Declaration.{Declaration};

use crate::scopes::Binding;
use lists::List;
use shared_texts::{NumberedText, TextStore};
use std::alloc::{AllocError, Global};
use std::collections::BTreeMap;

/// A binding, the number of its URI, and the place of the binding of the same prefix that it hides.
#[derive(Clone, Debug, Drop)]
pub struct Declaration {
    pub binding: Binding,
    pub number: u32,
    pub hidden: Option<usize>,
}

/// Adds a binding at the end. A refusal leaves both as they were, but for room.
pub fn declare(
    alloc: Global,
    declarations: &mut Vec<Declaration>,
    latest: &mut BTreeMap<Vec<u8>, usize>,
    uris: &mut TextStore,
    prefix: &[u8],
    uri: &[u8],
) -> Result<(), AllocError>
    requires { IsIndexed declarations.old.items latest.old }
    ensures ok { OnOk result ((hidden : Option ℕ) × (number : ℕ) × (slice_get uris.new number ≡ Some uri.now) × (uris.new ≡ with_text uris.old uri.now) × (declarations.new.items ≡ declarations.old.items ++ record { binding = record { prefix = prefix.now; uri = uri.now }; number = number; hidden = hidden } ∷ [])) }
    ensures keeps { Keeps uris.old uris.new }
    ensures err { OnErr result (declarations.new.items ≡ declarations.old.items) }
    ensures indexed { IsIndexed declarations.new.items latest.new }
{
    declarations.reserve(1)?;
    let NumberedText { number, text } = uris.intern(alloc, uri)?;
    let binding = Binding {
        prefix: List::from_slice(alloc, prefix)?,
        uri: text,
    };
    let key = Vec::from_slice(alloc, prefix)?;
    let hidden = latest.insert(key, declarations.len())?;
    declarations.push_reserved(Declaration {
        binding,
        number,
        hidden,
    });
    Ok(())
}

/// Takes the bindings from `start` on back, the latest first.
pub fn withdraw(
    declarations: &mut Vec<Declaration>,
    latest: &mut BTreeMap<Vec<u8>, usize>,
    start: usize,
)
    requires { IsIndexed declarations.old.items latest.old }
    ensures kept { declarations.new.items ≡ take start declarations.old.items }
    ensures indexed { IsIndexed declarations.new.items latest.new }
{
    while declarations.len() > start {
        if let Some(declaration) = declarations.pop() {
            reveal(
                latest,
                declaration.binding.prefix.as_slice(),
                declaration.hidden,
            );
        }
    }
}

// Turns the index back to the binding of this prefix that the latest one hid.
fn reveal(latest: &mut BTreeMap<Vec<u8>, usize>, prefix: &[u8], hidden: Option<usize>)
    requires { IsSome (found prefix.now latest.old) }
    ensures { (other : List ℕ) → found other latest.new ≡ (if bytes_eq prefix.now other then hidden else found other latest.old) }
{
    match hidden {
        Some(place) => {
            if let Some(latest) = latest.get_mut(prefix) {
                *latest = place;
            }
        }
        None => {
            latest.remove(prefix);
        }
    }
}
