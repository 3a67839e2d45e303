ghost use Rattle.std.specs.Prelude.{◌≡◌};
ghost use Rattle.xpath_funcs.specs.Languages as spec;

/// Whether a language is another or one of its kinds (XPath 1.0, section 4.3, `lang`): `a`, as `xml:lang` gives it,
/// equals `b`, or does so up to a `-`, ASCII case aside. Takes no memory.
pub fn lang_matches(a: &[u8], b: &[u8]) -> bool
    ensures { result ≡ spec.lang_matches a.now b.now }
{
    if a.len() < b.len() {
        return false;
    }
    let (front, rest) = a.split_at(b.len());
    is_ending(rest) && same_letters(front, b)
}

/// Whether a language may end before these bytes.
fn is_ending(bytes: &[u8]) -> bool
    ensures { result ≡ spec.is_ending bytes.now }
{
    match bytes {
        [] => true,
        [first, ..] => *first == b'-',
    }
}

fn same_letters(a: &[u8], b: &[u8]) -> bool
    ensures { result ≡ spec.same_letters a.now b.now }
{
    a.eq_ignore_ascii_case(b)
}
