ghost use Rattle.std.specs.Prelude.{◌≡◌, ◌≤◌, ◌<◌, ◌+◌, ◌∷◌, [], length, MatchOption, IfSome};
ghost use Rattle.xpath_funcs.specs.Characters as spec;

/// Whether a byte goes on with the character before it.
pub(crate) fn continues(byte: u8) -> bool
    ensures { result ≡ spec.continues byte }
{
    128 <= byte && byte < 192
}

/// The first character and what follows it.
pub(crate) fn first_character(bytes: &[u8]) -> Option<(&[u8], &[u8])>
    ensures cut { MatchOption result (bytes.now ≡ []) (λ cut. spec.characters bytes.now ≡ cut.0.now ∷ spec.characters cut.1.now) }
    ensures shorter { IfSome result (λ cut. length cut.1.now < length bytes.now) }
{
    match first_byte(bytes) {
        Some((_, rest)) => Some(bytes.split_at(1 + continuing(rest))),
        None => None,
    }
}

fn first_byte(bytes: &[u8]) -> Option<(u8, &[u8])>
    ensures cut { MatchOption result (bytes.now ≡ []) (λ cut. bytes.now ≡ cut.0 ∷ cut.1.now) }
    ensures shorter { IfSome result (λ cut. length cut.1.now + 1 ≡ length bytes.now) }
{
    match bytes {
        [] => None,
        [first, rest @ ..] => Some((*first, rest)),
    }
}

/// How many bytes at the front go on with a character.
fn continuing(bytes: &[u8]) -> usize
    ensures value { result ≡ spec.continuing bytes.now }
    ensures within { result ≤ length bytes.now }
{
    bytes.iter().take_while(|byte| continues(**byte)).count()
}

/// How many characters a text has. Linear in the text; takes no memory.
pub fn string_length(a: &[u8]) -> u64
    ensures { result ≡ length (spec.characters a.now) }
{
    match first_byte(a) {
        Some((_, rest)) => 1 + beginning(rest),
        None => 0,
    }
}

/// How many bytes begin a character.
fn beginning(bytes: &[u8]) -> u64
    ensures value { result ≡ spec.beginning bytes.now }
    ensures within { result ≤ length bytes.now }
{
    bytes.iter().filter(|byte| !continues(**byte)).count() as u64
}
