ghost use Rattle.std.specs.Prelude.{◌≡◌, ◌≤◌, ◌+◌, ◌-◌, ◌==◌, nat_lt, ℕ, List, [], ◌∷◌, ◌++◌, Some, None, if◌then◌else◌, length, option_map, slice_get};
ghost use Rattle.sheet_scopes.specs.Scopes.{binding_of, in_force, resolved_at};
ghost use Rattle.sheet_scopes.specs.declared.scope.ScopeEntry.{ScopeEntry};
ghost use Rattle.xml_names.specs.Bindings.{xml_binding, uri_in, unless_empty};

use lists::List;
use xml_names::is_fixed;

/// The declaration of a namespace. The entries of a sheet number its scopes: 0 is the scope without declarations, and
/// k that of the entry at place k - 1 together with those of the scope `outer`. An entry stands behind those around it,
/// so `outer` is at most its own place; where it is more, nothing is around the entry.
#[derive(Clone, Debug, Drop, PartialEq, Eq)]
pub struct ScopeEntry {
    pub outer: u32,
    /// Empty for the default namespace.
    pub prefix: List<u8>,
    /// Empty where the declaration ends the binding that it hides (Namespaces in XML 1.0, section 6).
    pub uri: List<u8>,
}

/// What the innermost declaration of the prefix in a scope binds it to; None exactly where the scope has none, or that
/// one is empty. `xml` is bound in each scope and `xmlns` in none, whatever the entries say (Namespaces in XML 1.0,
/// section 3). Costs a comparison of the prefix for each declaration of the scope up to that one.
pub fn resolve<'a>(entries: &'a [ScopeEntry], at: u32, prefix: &[u8]) -> Option<&'a [u8]>
    ensures { option_map (λ uri. uri.now) result ≡ resolved_at entries.now at prefix.now }
{
    if is_fixed(prefix) {
        return fixed_uri(prefix);
    }
    match declared_uri(entries, at, prefix) {
        Some(uri) => unless_empty(uri),
        None => None,
    }
}

fn fixed_uri(prefix: &[u8]) -> Option<&'static [u8]>
    ensures { option_map (λ uri. uri.now) result ≡ uri_in prefix.now (xml_binding ∷ []) }
{
    if b"xml".as_slice() == prefix {
        Some(b"http://www.w3.org/XML/1998/namespace")
    } else {
        None
    }
}

fn unless_empty(uri: &[u8]) -> Option<&[u8]>
    ensures { option_map (λ uri. uri.now) result ≡ unless_empty (Some uri.now) }
{
    if uri.is_empty() { None } else { Some(uri) }
}

fn declared_uri<'a>(entries: &'a [ScopeEntry], at: u32, prefix: &[u8]) -> Option<&'a [u8]>
    ensures { option_map (λ uri. uri.now) result ≡ uri_in prefix.now (in_force entries.now at) }
{
    let mut scope = at;
    while let Some(entry) = entry_of(entries, scope) {
        if entry.prefix.as_slice() == prefix {
            return Some(entry.uri.as_slice());
        }
        scope = around(entry, scope);
    }
    None
}

// The entry that numbers a scope.
fn entry_of(entries: &[ScopeEntry], at: u32) -> Option<&ScopeEntry>
    ensures { option_map (λ entry. entry.now) result ≡ (if at == 0 then None else slice_get entries.now (at - 1)) }
{
    if at == 0 {
        return None;
    }
    entries.get(at as usize - 1)
}

// The scope around an entry, where an earlier entry numbers it.
fn around(entry: &ScopeEntry, at: u32) -> u32
    ensures { result ≡ (if nat_lt entry.now.outer at then entry.now.outer else 0) }
{
    if entry.outer < at { entry.outer } else { 0 }
}

/// The law of entries: one at the end adds the scope of its declaration, and leaves the other scopes as they were.
pub fn an_entry_at_the_end_adds_a_scope()
    ensures added { (entries : List ScopeEntry) (entry : ScopeEntry) → in_force (entries ++ entry ∷ []) (length entries + 1) ≡ binding_of entry ∷ in_force entries entry.outer }
    ensures kept { (entries : List ScopeEntry) (entry : ScopeEntry) (at : ℕ) → at ≤ length entries → in_force (entries ++ entry ∷ []) at ≡ in_force entries at }
{}
