// The open elements of what is being written.
ghost use Rattle.std.specs.Prelude.{◌≡◌, [], ◌∷◌, ◌<◌, List, IfOk, OnOk, OnErr, MatchOption, length, option_map, false, reverse};
ghost use Rattle.xml_names.specs.Bindings.{is_fixed, uri_in, unless_empty};
ghost use Rattle.xml_names.specs.declared.scopes.Binding.{Binding};
ghost use Rattle.pyx_output.specs.Bytes.{Element, in_force};
ghost use Rattle.pyx_output.specs.Nesting.{with_declared, noted};
ghost use Rattle.pyx_output.specs.Numbered.{numbered, first_free};

use crate::free_numbers::FreeNumbers;
use crate::numbered::{number_of, numbered};
use lists::List;
use shared_texts::Shared;
use std::alloc::{AllocError, Global};
use std::marker::Model;
use xml_names::Scopes;

/// An open element: its name as written, and the numbers of the prefixes `ns0`, `ns1` and so on that it declares.
#[derive(Debug, Drop)]
pub struct Open {
    pub name: List<u8>,
    pub numbers: List<u64>,
}

/// The open elements, the innermost first, each with its name as written and the bindings in force in it.
#[derive(Debug, Drop)]
pub struct Nest {
    opened: Vec<Open>,
    scopes: Scopes,
    numbers: FreeNumbers,
}

impl Model for Nest {
    ghost use Rattle.std.specs.Prelude.{List, [], reverse};
    ghost use Rattle.xml_names.specs.Bindings.{all_bindings};
    ghost use Rattle.pyx_output.specs.Bytes.{Element};
    ghost use Rattle.pyx_output.specs.FreeNumbers.{Tells};
    ghost use Rattle.pyx_output.specs.Nesting.{elements_of, AreNested};

    ghost Value = { List Element };

    ghost view = { λ it. elements_of (reverse it.opened.items) it.scopes.scopes };

    ghost invariant = { λ it. AreNested (reverse it.opened.items) it.scopes.scopes × Tells it.numbers [] (all_bindings it.scopes.scopes) };
}

impl Nest {
    /// No open element.
    pub fn start(alloc: Global) -> Result<Nest, AllocError>
        ensures { IfOk result (λ nest. nest ≡ []) }
    {
        Ok(Nest {
            opened: Vec::new(alloc),
            scopes: Scopes::start(alloc)?,
            numbers: FreeNumbers::new(alloc),
        })
    }

    /// Opens an element that declares nothing yet.
    pub fn open(&mut self, alloc: Global, name: List<u8>) -> Result<(), AllocError>
        ensures { OnOk result (self.new ≡ record { name = name; bound = in_force self.old } ∷ self.old) }
    {
        self.opened.reserve(1)?;
        self.scopes.push(alloc)?;
        self.opened.push_reserved(Open {
            name,
            numbers: List::new(alloc),
        });
        Ok(())
    }

    /// Adds a declaration of the innermost element.
    pub fn declare(&mut self, alloc: Global, prefix: &[u8], uri: &[u8]) -> Result<(), AllocError>
        requires inside { 0 < length self.old }
        requires free { is_fixed prefix.now ≡ false }
        ensures { OnOk result (self.new ≡ with_declared (record { prefix = prefix.now; uri = uri.now }) self.old) }
    {
        let number = number_of(prefix);
        note(&mut self.opened, number)?;
        self.scopes.bind(alloc, prefix, uri)?;
        match number {
            Some(number) => self.numbers.look_again(alloc, &self.scopes, &[number]),
            None => Ok(()),
        }
    }

    /// What the prefix is bound to, if it is bound.
    pub fn resolve(&self, prefix: &[u8]) -> Option<&Shared<u8>>
        ensures { option_map (λ uri. uri.now) result ≡ unless_empty (uri_in prefix.now (in_force self.now)) }
    {
        self.scopes.resolve(prefix)
    }

    /// The first of `ns0`, `ns1` and so on that isn't bound in the innermost element.
    pub fn free_prefix(&mut self, alloc: Global) -> Result<List<u8>, AllocError>
        ensures prefix { IfOk result (λ prefix. prefix ≡ numbered (first_free (in_force self.old))) }
        ensures kept { self.new ≡ self.old }
    {
        let number = self.numbers.first(alloc, &self.scopes)?;
        let prefix = numbered(alloc, number)?;
        Ok(prefix)
    }

    /// Closes the innermost element, and gives its name.
    pub fn close(&mut self, alloc: Global) -> Result<Option<List<u8>>, AllocError>
        ensures { IfOk result (λ name. MatchOption name ((self.old ≡ []) × (self.new ≡ [])) (λ name. (bound : List Binding) × (self.old ≡ record { name = name; bound = bound } ∷ self.new))) }
    {
        let Some(inner) = self.opened.pop() else {
            return Ok(None);
        };
        self.scopes.pop();
        let Open { name, numbers } = inner;
        self.numbers
            .look_again(alloc, &self.scopes, numbers.as_slice())?;
        Ok(Some(name))
    }
}

// Notes a number at the innermost element.
fn note(opened: &mut Vec<Open>, number: Option<u64>) -> Result<(), AllocError>
    ensures ok { OnOk result (reverse opened.new.items ≡ noted number (reverse opened.old.items)) }
    ensures err { OnErr result (opened.new.items ≡ opened.old.items) }
{
    let Some(number) = number else {
        return Ok(());
    };
    let Some(mut inner) = opened.pop() else {
        return Ok(());
    };
    let added = inner.numbers.push(number);
    opened.push_reserved(inner);
    added
}
