// Names, told from other bytes and split.
ghost use Rattle.std.specs.Prelude.{◌≡◌, ◌==◌, ◌<◌, ◌↔◌, List, ℕ, IsTrue, length, IfSome};
ghost use Rattle.std.specs.List.{list_all};
ghost use Rattle.name_grammar.specs.Names.{is_name_start, is_name_byte, is_ncname, is_name, IsName, colon_in, prefix_of, local_of, split_of};

fn is_start_byte(b: u8) -> bool
    ensures { result ≡ is_name_start b }
{
    b.is_ascii_alphabetic() || b == b'_' || b >= 128
}

fn is_later_byte(b: u8) -> bool
    ensures { result ≡ is_name_byte b }
{
    is_start_byte(b) || b.is_ascii_digit() || b == b'-' || b == b'.'
}

fn all_later(bytes: &[u8]) -> bool
    ensures { result ≡ list_all is_name_byte bytes.now }
{
    bytes.iter().all(|b| is_later_byte(*b))
}

/// Whether the bytes, which are UTF-8, are an NCName (Namespaces in XML 1.0, section 4): an ASCII
/// letter, `_` or any character outside ASCII, then also digits, `-` and `.`. Linear in the bytes.
pub fn is_ncname(name: &[u8]) -> bool
    ensures { result ≡ is_ncname name.now }
{
    match name {
        [first, rest @ ..] => is_start_byte(*first) && all_later(rest),
        [] => false,
    }
}

fn colon(name: &[u8]) -> Option<usize>
    ensures place { result ≡ colon_in name.now }
    ensures within { IfSome result (λ k. k < length name.now) }
{
    name.iter().position(|b| *b == b':')
}

/// What stands before the first colon, or nothing.
pub fn prefix(name: &[u8]) -> &[u8]
    ensures { result.now ≡ prefix_of name.now }
{
    match colon(name) {
        Some(k) => &name[..k],
        None => &name[..0],
    }
}

/// What stands after the first colon, or the whole name.
pub fn local(name: &[u8]) -> &[u8]
    ensures { result.now ≡ local_of name.now }
{
    match colon(name) {
        Some(k) => &name[k + 1..],
        None => name,
    }
}

/// Whether the bytes, which are UTF-8, are a name (a QName of Namespaces in XML 1.0, section 4): one
/// NCName, or two joined by one colon. Linear in the bytes.
pub fn is_name(name: &[u8]) -> bool
    ensures { result ≡ is_name name.now }
{
    match colon(name) {
        Some(k) => is_ncname(&name[..k]) && is_ncname(&name[k + 1..]),
        None => is_ncname(name),
    }
}

/// The lengths in bytes of a name's prefix, which is 0 where it has none, and of its local name; None
/// where the bytes are no name.
pub fn split_name(name: &[u8]) -> Option<(usize, usize)>
    ensures { result ≡ split_of name.now }
{
    if is_name(name) {
        Some((prefix(name).len(), local(name).len()))
    } else {
        None
    }
}

/// The law of names: the test by the first colon holds exactly of one NCName and of two that a colon
/// joins.
pub fn names_are_one_or_two_ncnames()
    ensures { (name : List ℕ) → (IsTrue (is_name name) ↔ IsName name) }
{}
