// Type numbers that are known of rows before their names are looked up.
ghost use Rattle.std.specs.Prelude.{◌≡◌};
ghost use Rattle.node_writer.specs.Known.{known_at};

/// What is known of the row at a place; nothing past the end.
pub(crate) fn known_at(known: &[Option<u32>], at: usize) -> Option<u32>
    ensures { result ≡ known_at known.now at }
{
    match known.get(at) {
        Some(number) => *number,
        None => None,
    }
}
