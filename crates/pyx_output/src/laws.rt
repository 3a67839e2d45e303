ghost use Rattle.std.specs.Prelude.{◌≡◌, ◌<◌, ℕ, List, true, false};
ghost use Rattle.xml_names.specs.declared.scopes.Binding.{Binding};
ghost use Rattle.pyx_output.specs.Declaring.{is_bound};
ghost use Rattle.pyx_output.specs.Numbered.{numbered, first_free};

/// The law of new prefixes: of `ns0`, `ns1` and so on one that isn't bound is found, and each before it is bound.
pub fn a_free_prefix_is_found()
    ensures free { (bound : List Binding) → is_bound bound (numbered (first_free bound)) ≡ false }
    ensures first { (bound : List Binding) (k : ℕ) → k < first_free bound → is_bound bound (numbered k) ≡ true }
{}
