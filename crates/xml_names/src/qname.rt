ghost use Rattle.std.specs.Prelude.{◌≡◌};
ghost use Rattle.name_grammar.specs.Names.{split_of};

use name_grammar::split_name;

/// The lengths in bytes of a name's prefix, which is 0 where it has none, and of its local name
/// (Namespaces in XML 1.0, section 4). None exactly where `name` is neither one NCName nor two that
/// one colon joins. Linear in the bytes.
pub fn split_qname(name: &str) -> Option<(usize, usize)>
    ensures { result ≡ split_of name.now }
{
    split_name(name.as_bytes())
}
