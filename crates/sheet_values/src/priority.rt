//! Priorities of templates (XSLT 1.0, section 5.5).

ghost use Rattle.std.specs.Prelude.{◌≡◌, ◌≤◌, ◌<◌, IfSome, length};
ghost use Rattle.std.specs.List.{list_all};
ghost use Rattle.sheet_values.specs.Priorities as spec;

const MOST: u32 = 100_000_000;

// The number of digits behind those of another number, where it is at most 100,000,000.
fn number_behind(first: u32, digits: &[u8]) -> Option<u32>
    requires { first ≤ 100000000 }
    ensures number { result ≡ spec.within (spec.number_behind first digits.now) }
    ensures most { IfSome result (λ number. number ≤ 100000000) }
{
    let mut number = first;
    for digit in digits {
        number = 10 * number + u32::from(digit.saturating_sub(b'0'));
        if number > MOST {
            return None;
        }
    }
    Some(number)
}

fn are_digits(bytes: &[u8]) -> bool
    ensures { result ≡ list_all spec.is_digit bytes.now }
{
    bytes.iter().all(|b| b.is_ascii_digit())
}

fn is_magnitude(whole: &[u8], fraction: &[u8]) -> bool
    ensures { result ≡ spec.is_magnitude whole.now fraction.now }
{
    are_digits(whole)
        && are_digits(fraction)
        && fraction.len() <= 2
        && !(whole.is_empty() && fraction.is_empty())
}

// At most two digits behind a point, as two.
fn padded(fraction: &[u8]) -> [u8; 2]
    ensures { result ≡ spec.padded fraction.now }
{
    match fraction {
        [] => [b'0', b'0'],
        [tenths] => [*tenths, b'0'],
        [tenths, hundredths, ..] => [*tenths, *hundredths],
    }
}

fn hundredths(whole: &[u8], fraction: &[u8]) -> Option<u32>
    ensures number { result ≡ spec.hundredths whole.now fraction.now }
    ensures most { IfSome result (λ number. number ≤ 100000000) }
{
    if !is_magnitude(whole, fraction) {
        return None;
    }
    let number = number_behind(0, whole)?;
    number_behind(number, &padded(fraction))
}

fn point(text: &[u8]) -> Option<usize>
    ensures place { result ≡ spec.point_in text.now }
    ensures within { IfSome result (λ k. k < length text.now) }
{
    text.iter().position(|b| *b == b'.')
}

fn whole_part(text: &[u8]) -> &[u8]
    ensures { result.now ≡ spec.whole_part text.now }
{
    match point(text) {
        Some(k) => &text[..k],
        None => text,
    }
}

fn fraction_part(text: &[u8]) -> &[u8]
    ensures { result.now ≡ spec.fraction_part text.now }
{
    match point(text) {
        Some(k) => &text[k + 1..],
        None => &text[..0],
    }
}

fn magnitude(text: &[u8]) -> Option<u32>
    ensures number { result ≡ spec.magnitude text.now }
    ensures most { IfSome result (λ number. number ≤ 100000000) }
{
    hundredths(whole_part(text), fraction_part(text))
}

fn positive(text: &[u8]) -> Option<i32>
    ensures { result ≡ spec.positive text.now }
{
    match magnitude(text) {
        Some(hundredths) => Some(hundredths as i32),
        None => None,
    }
}

fn negative(text: &[u8]) -> Option<i32>
    ensures { result ≡ spec.negative text.now }
{
    match magnitude(text) {
        Some(hundredths) => Some(-(hundredths as i32)),
        None => None,
    }
}

/// The hundredths of a priority: perhaps a `-`, then digits that a point and at most two digits may follow, or a point
/// and one or two digits, of magnitude at most 1,000,000. None where the text is none. Linear in the text.
pub fn hundredths_of(text: &[u8]) -> Option<i32>
    ensures { result ≡ spec.hundredths_of text.now }
{
    match text {
        [b'-', rest @ ..] => negative(rest),
        _ => positive(text),
    }
}
