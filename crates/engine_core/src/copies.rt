//! Copies of values that are handed on, and locals that end.

ghost use Rattle.std.specs.Prelude.{◌≡◌, take, IfOk};

use frames::Handed;
use lists::List;
use std::alloc::{AllocError, Global};
use xpath_values::{Value, copy_value};

/// Copies of values that are handed on, in their order. Linear in them; fails only for want of memory.
pub fn copy_given<'s>(alloc: Global, given: &[Handed<'s>]) -> Result<List<Handed<'s>>, AllocError>
    ensures { IfOk result (λ copy. copy ≡ given.now) }
{
    let mut copy = List::new(alloc);
    for handed in given {
        let Ok(value) = copy_value(alloc, &handed.value) else {
            return Err(AllocError);
        };
        copy.push(Handed {
            name: handed.name,
            value,
        })?;
    }
    Ok(copy)
}

/// Lets the innermost locals go, so that so many stay.
pub fn cut_back(locals: &mut List<Value>, kept: usize)
    ensures { locals.new ≡ take kept locals.old }
{
    while locals.len() > kept {
        let _ = locals.pop();
    }
}
