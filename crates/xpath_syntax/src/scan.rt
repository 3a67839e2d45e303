//! The longest token at the front of a text.

ghost use Rattle.std.specs.Prelude.{◌≡◌, ◌==◌, ◌+◌, ◌≤◌, ◌∷◌, [], length, not, MatchOption, IfSome};
ghost use Rattle.std.specs.Char.{is_ascii_digit};
ghost use Rattle.std.specs.List.{prefix_len};
ghost use Rattle.name_grammar.specs.Names as names;
ghost use Rattle.xpath_syntax.specs.Forms as forms;
ghost use Rattle.xpath_syntax.specs.Scan as scan;

use crate::form::{Class, Form, class_of, is_name_byte, is_name_start, is_space};

/// How many bytes at the front are whitespace.
pub fn spaces(bytes: &[u8]) -> usize
    ensures value { result ≡ prefix_len forms.is_space bytes.now }
    ensures within { result ≤ length bytes.now }
{
    bytes.iter().take_while(|b| is_space(**b)).count()
}

fn digits(bytes: &[u8]) -> usize
    ensures value { result ≡ prefix_len is_ascii_digit bytes.now }
    ensures within { result ≤ length bytes.now }
{
    bytes.iter().take_while(|b| b.is_ascii_digit()).count()
}

fn name_bytes(bytes: &[u8]) -> usize
    ensures value { result ≡ prefix_len names.is_name_byte bytes.now }
    ensures within { result ≤ length bytes.now }
{
    bytes.iter().take_while(|b| is_name_byte(**b)).count()
}

fn unquoted(quote: u8, bytes: &[u8]) -> usize
    ensures value { result ≡ prefix_len (λ b. not (b == quote)) bytes.now }
    ensures within { result ≤ length bytes.now }
{
    bytes.iter().take_while(|b| **b != quote).count()
}

/// The first byte and the others.
pub fn first(bytes: &[u8]) -> Option<(u8, &[u8])>
    ensures { MatchOption result (bytes.now ≡ []) (λ r. bytes.now ≡ r.0 ∷ r.1.now) }
{
    match bytes {
        [] => None,
        [b, rest @ ..] => Some((*b, rest)),
    }
}

fn begins_with(wanted: u8, bytes: &[u8]) -> bool
    ensures { result ≡ scan.begins (λ b. b == wanted) bytes.now }
{
    match first(bytes) {
        Some((b, _)) => b == wanted,
        None => false,
    }
}

fn begins_with_digit(bytes: &[u8]) -> bool
    ensures { result ≡ scan.begins is_ascii_digit bytes.now }
{
    match first(bytes) {
        Some((b, _)) => b.is_ascii_digit(),
        None => false,
    }
}

fn fraction_len(bytes: &[u8]) -> usize
    ensures value { result ≡ scan.fraction_len bytes.now }
    ensures within { result ≤ length bytes.now }
{
    match first(bytes) {
        Some((b'.', rest)) => 1 + digits(rest),
        Some(_) | None => 0,
    }
}

fn number_len(bytes: &[u8]) -> usize
    ensures value { result ≡ scan.number_len bytes.now }
    ensures within { result ≤ length bytes.now }
{
    let whole = digits(bytes);
    let (_, rest) = bytes.split_at(whole);
    whole + fraction_len(rest)
}

fn ncname_behind_colon(bytes: &[u8]) -> usize
    ensures value { result ≡ scan.ncname_behind_colon bytes.now }
    ensures within { result ≤ length bytes.now + 1 }
{
    match first(bytes) {
        Some((b, rest)) => {
            if is_name_start(b) {
                2 + name_bytes(rest)
            } else {
                0
            }
        }
        None => 0,
    }
}

fn local_len(bytes: &[u8]) -> usize
    ensures value { result ≡ scan.local_len bytes.now }
    ensures within { result ≤ length bytes.now }
{
    match first(bytes) {
        Some((b':', rest)) => ncname_behind_colon(rest),
        Some(_) | None => 0,
    }
}

fn name_len(bytes: &[u8]) -> usize
    ensures value { result ≡ scan.name_len bytes.now }
    ensures within { result ≤ length bytes.now }
{
    let front = name_bytes(bytes);
    let (_, rest) = bytes.split_at(front);
    front + local_len(rest)
}

fn has_star(bytes: &[u8]) -> bool
    ensures { result ≡ scan.has_star bytes.now }
{
    match first(bytes) {
        Some((b':', rest)) => begins_with(b'*', rest),
        Some(_) | None => false,
    }
}

fn one_or_two(form: Form, second: bool) -> Option<(Form, usize)>
    ensures { result ≡ scan.one_or_two form second }
{
    Some((form, if second { 2 } else { 1 }))
}

fn cut_quoted(quote: u8, bytes: &[u8]) -> Option<(Form, usize)>
    ensures { result ≡ scan.cut_quoted quote bytes.now }
{
    let text = unquoted(quote, bytes);
    if text < bytes.len() {
        Some((Form::Literal, text + 2))
    } else {
        None
    }
}

fn cut_point(bytes: &[u8]) -> Option<(Form, usize)>
    ensures { result ≡ scan.cut_point bytes.now }
{
    if begins_with_digit(bytes) {
        Some((Form::Number, 1 + digits(bytes)))
    } else {
        one_or_two(Form::Closing, begins_with(b'.', bytes))
    }
}

fn cut_name(bytes: &[u8]) -> Option<(Form, usize)>
    ensures { result ≡ scan.cut_name bytes.now }
{
    let front = name_bytes(bytes);
    let (_, rest) = bytes.split_at(front);
    if has_star(rest) {
        Some((Form::InPrefix, front + 3))
    } else {
        Some((Form::Name, 1 + (front + local_len(rest))))
    }
}

fn cut_variable(bytes: &[u8]) -> Option<(Form, usize)>
    ensures { result ≡ scan.cut_variable bytes.now }
{
    match first(bytes) {
        Some((b, rest)) => {
            if is_name_start(b) {
                Some((Form::Variable, 2 + name_len(rest)))
            } else {
                None
            }
        }
        None => None,
    }
}

fn cut_in(class: Class, b: u8, rest: &[u8]) -> Option<(Form, usize)>
    ensures { result ≡ scan.cut_in class b rest.now }
{
    match class {
        Class::Name => cut_name(rest),
        Class::Digit => Some((Form::Number, 1 + number_len(rest))),
        Class::Quote => cut_quoted(b, rest),
        Class::Point => cut_point(rest),
        Class::Star => Some((Form::Star, 1)),
        Class::Dollar => cut_variable(rest),
        Class::Slash => one_or_two(Form::Operator, begins_with(b'/', rest)),
        Class::Angle => one_or_two(Form::Operator, begins_with(b'=', rest)),
        Class::Bang => begins_with(b'=', rest).then_some((Form::Operator, 2)),
        Class::Colon => begins_with(b':', rest).then_some((Form::Opening, 2)),
        Class::Sign => Some((Form::Operator, 1)),
        Class::Opening => Some((Form::Opening, 1)),
        Class::Closing => Some((Form::Closing, 1)),
        Class::Other => None,
    }
}

/// The form and the length of the longest token at the front, or None where there is no token. Linear in that length.
pub fn cut(bytes: &[u8]) -> Option<(Form, usize)>
    ensures { result ≡ scan.cut bytes.now }
{
    let (b, rest) = first(bytes)?;
    cut_in(class_of(b), b, rest)
}
