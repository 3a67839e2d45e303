// Which of the prefixes `ns0`, `ns1` and so on are free.
ghost use Rattle.std.specs.Prelude.{◌≡◌, ◌∷◌, [], ℕ, List, IfOk, OnOk, OnErr, true};
ghost use Rattle.std.specs.BTreeSet.{Updates};
ghost use Rattle.std.specs.Ordering.{nat_cmp};
ghost use Rattle.xml_names.specs.Bindings.{all_bindings};
ghost use Rattle.xml_names.specs.declared.scopes.Binding.{Binding};
ghost use Rattle.pyx_output.specs.Declaring.{is_bound};
ghost use Rattle.pyx_output.specs.FreeNumbers.{IsPast, Tells};
ghost use Rattle.pyx_output.specs.Numbered.{numbered, first_free};

use crate::numbered::numbered;
use std::alloc::{AllocError, Global};
use std::collections::BTreeSet;
use xml_names::Scopes;

/// The numbers below a mark whose prefixes aren't bound. The mark only grows, and passes a number once: so all
/// searches together look at no more prefixes than were ever declared, and at one more each.
#[derive(Debug, Drop)]
pub struct FreeNumbers {
    mark: u64,
    free: BTreeSet<u64>,
}

impl FreeNumbers {
    /// Nothing is known yet.
    pub fn new(alloc: Global) -> FreeNumbers
        ensures { (bound : List Binding) → Tells result [] bound }
    {
        FreeNumbers {
            mark: 0,
            free: BTreeSet::new(alloc),
        }
    }

    /// The first number whose prefix isn't bound.
    pub fn first(&mut self, alloc: Global, scopes: &Scopes) -> Result<u64, AllocError>
        requires { Tells self.old [] (all_bindings scopes.now.scopes) }
        ensures first { IfOk result (λ number. number ≡ first_free (all_bindings scopes.now.scopes)) }
        ensures tells { Tells self.new [] (all_bindings scopes.now.scopes) }
    {
        if let Some(first) = self.free.first() {
            return Ok(*first);
        }
        let mark = first_from(alloc, scopes, self.mark)?;
        self.mark = mark;
        Ok(mark)
    }

    /// Looks at these numbers again, whose prefixes may have been bound or freed.
    pub fn look_again(
        &mut self,
        alloc: Global,
        scopes: &Scopes,
        numbers: &[u64],
    ) -> Result<(), AllocError>
        requires { Tells self.old numbers.now (all_bindings scopes.now.scopes) }
        ensures { Tells self.new [] (all_bindings scopes.now.scopes) }
    {
        for number in numbers {
            self.look_at(alloc, scopes, *number)?;
        }
        Ok(())
    }

    fn look_at(&mut self, alloc: Global, scopes: &Scopes, number: u64) -> Result<(), AllocError>
        ensures tells { (rest : List ℕ) → Tells self.old (number ∷ rest) (all_bindings scopes.now.scopes) → Tells self.new rest (all_bindings scopes.now.scopes) }
        ensures err { (bound : List Binding) → OnErr result (Tells self.new [] bound) }
    {
        if number >= self.mark {
            return Ok(());
        }
        match is_taken(alloc, scopes, number) {
            Ok(true) => {
                self.free.remove(&number);
                Ok(())
            }
            Ok(false) => self.add(number),
            Err(refused) => {
                self.forget();
                Err(refused)
            }
        }
    }

    fn add(&mut self, number: u64) -> Result<(), AllocError>
        ensures ok { OnOk result (Updates nat_cmp self.old.free self.new.free number true) }
        ensures mark { OnOk result (self.new.mark ≡ self.old.mark) }
        ensures err { (bound : List Binding) → OnErr result (Tells self.new [] bound) }
    {
        match self.free.insert(number) {
            Ok(_) => Ok(()),
            Err(_) => {
                self.forget();
                Err(AllocError)
            }
        }
    }

    // After a refusal nothing is known.
    fn forget(&mut self)
        ensures { (bound : List Binding) → Tells self.new [] bound }
    {
        self.mark = 0;
        self.free.clear();
    }
}

// The first number from this one on whose prefix isn't bound, where all before it are.
fn first_from(alloc: Global, scopes: &Scopes, from: u64) -> Result<u64, AllocError>
    requires { IsPast (all_bindings scopes.now.scopes) from }
    ensures first { IfOk result (λ number. number ≡ first_free (all_bindings scopes.now.scopes)) }
    ensures past { IfOk result (λ number. IsPast (all_bindings scopes.now.scopes) number) }
{
    let mut number = from;
    while is_taken(alloc, scopes, number)? {
        number = match number.checked_add(1) {
            Some(next) => next,
            None => return Err(AllocError),
        };
    }
    Ok(number)
}

fn is_taken(alloc: Global, scopes: &Scopes, number: u64) -> Result<bool, AllocError>
    ensures { IfOk result (λ taken. taken ≡ is_bound (all_bindings scopes.now.scopes) (numbered number)) }
{
    let prefix = numbered(alloc, number)?;
    Ok(scopes.resolve(prefix.as_slice()).is_some())
}
