ghost use Rattle.std.specs.Prelude.{◌≡◌, ◌∷◌, ℕ, List, Some, None};
ghost use Rattle.xml_names.specs.Bindings.{uri_in, unless_empty, resolved};
ghost use Rattle.xml_names.specs.declared.scopes.Binding.{Binding};

/// The law of scopes: where the innermost scope binds a prefix it decides, else the scopes around it do.
pub fn innermost_scope_decides()
    ensures binds { (inner : List Binding) (outer : List (List Binding)) (prefix uri : List ℕ) → uri_in prefix inner ≡ Some uri → resolved (inner ∷ outer) prefix ≡ unless_empty (Some uri) }
    ensures passes { (inner : List Binding) (outer : List (List Binding)) (prefix : List ℕ) → uri_in prefix inner ≡ None → resolved (inner ∷ outer) prefix ≡ resolved outer prefix }
{}
