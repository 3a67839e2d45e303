//! The namespaces that an element declares.

ghost use Rattle.std.specs.Prelude.{◌≡◌, ◌≤◌, ◌<◌, OnOk, length};
ghost use Rattle.sheet_reading.specs.Declaring.{all_declared, around, declared, inside};

use sheet_source::Element;
use std::alloc::{AllocError, Global};
use xml_names::{Binding, Scopes, is_fixed};

fn declare(alloc: Global, scopes: &mut Scopes, binding: &Binding) -> Result<(), AllocError>
    ensures { OnOk result (scopes.new.scopes ≡ declared scopes.old.scopes binding.now) }
{
    if !is_fixed(binding.prefix.as_slice()) {
        scopes.bind(alloc, binding.prefix.as_slice(), binding.uri.as_slice())?;
    }
    Ok(())
}

fn declare_all(alloc: Global, scopes: &mut Scopes, bindings: &[Binding]) -> Result<(), AllocError>
    ensures { OnOk result (scopes.new.scopes ≡ all_declared scopes.old.scopes bindings.now) }
{
    for binding in bindings {
        declare(alloc, scopes, binding)?;
    }
    Ok(())
}

/// Enters the scope of an element: its declarations hold for it and for all in it.
#[tactic(auto, using(crate::proofs::Scoping::around_inside, crate::proofs::Scoping::one_more))]
pub fn enter(alloc: Global, scopes: &mut Scopes, element: &Element) -> Result<(), AllocError>
    requires { 1 ≤ length scopes.old.scopes }
    ensures inside { OnOk result (scopes.new.scopes ≡ inside scopes.old.scopes element.now.start.declarations) }
    ensures back { OnOk result (around scopes.new.scopes ≡ scopes.old.scopes) }
    ensures longer { OnOk result (1 < length scopes.new.scopes) }
{
    scopes.push(alloc)?;
    declare_all(alloc, scopes, element.start.declarations.as_slice())?;
    Ok(())
}

/// Leaves the scope of an element.
pub fn leave(scopes: &mut Scopes)
    requires { 1 < length scopes.old.scopes }
    ensures { scopes.new.scopes ≡ around scopes.old.scopes }
{
    scopes.pop();
}
