//! The values of the attributes of an element. One of another namespace has no effect, and is passed over.

ghost use Rattle.std.specs.Prelude.{◌≡◌, option_map, unwrap_or, false};
ghost use Rattle.sheet_making.specs.Attributes as spec;
ghost use Rattle.sheet_names.specs.Values.{first_value, given_value};

use lists::List;
use sheet_elements::Word;
use sheet_reading::Given;
use sheet_values::{NameTest, Value};
use xpath_syntax::{Expr, Part, Pattern};

fn expression_in(value: &Value) -> Option<&Expr>
    ensures { option_map (λ e. e.now) result ≡ spec.expression_in value.now }
{
    match value {
        Value::Expression(e) => Some(e),
        _ => None,
    }
}

fn expression_given(word: Word, given: &Given) -> Option<&Expr>
    ensures { option_map (λ e. e.now) result ≡ given_value spec.expression_in word given.now }
{
    if given.word.is(word) {
        expression_in(&given.value)
    } else {
        None
    }
}

pub fn first_expression(word: Word, given: &[Given]) -> Option<&Expr>
    ensures { option_map (λ e. e.now) result ≡ first_value spec.expression_in word given.now }
{
    for one in given {
        if let Some(e) = expression_given(word, one) {
            return Some(e);
        }
    }
    None
}

fn template_in(value: &Value) -> Option<&List<Part>>
    ensures { option_map (λ parts. parts.now) result ≡ spec.template_in value.now }
{
    match value {
        Value::Template(parts) => Some(parts),
        _ => None,
    }
}

fn template_given(word: Word, given: &Given) -> Option<&List<Part>>
    ensures { option_map (λ parts. parts.now) result ≡ given_value spec.template_in word given.now }
{
    if given.word.is(word) {
        template_in(&given.value)
    } else {
        None
    }
}

pub fn first_template(word: Word, given: &[Given]) -> Option<&List<Part>>
    ensures { option_map (λ parts. parts.now) result ≡ first_value spec.template_in word given.now }
{
    for one in given {
        if let Some(parts) = template_given(word, one) {
            return Some(parts);
        }
    }
    None
}

fn pattern_in(value: &Value) -> Option<&Pattern>
    ensures { option_map (λ pattern. pattern.now) result ≡ spec.pattern_in value.now }
{
    match value {
        Value::Pattern(pattern) => Some(pattern),
        _ => None,
    }
}

fn pattern_given(word: Word, given: &Given) -> Option<&Pattern>
    ensures { option_map (λ pattern. pattern.now) result ≡ given_value spec.pattern_in word given.now }
{
    if given.word.is(word) {
        pattern_in(&given.value)
    } else {
        None
    }
}

pub fn first_pattern(word: Word, given: &[Given]) -> Option<&Pattern>
    ensures { option_map (λ pattern. pattern.now) result ≡ first_value spec.pattern_in word given.now }
{
    for one in given {
        if let Some(pattern) = pattern_given(word, one) {
            return Some(pattern);
        }
    }
    None
}

fn tests_in(value: &Value) -> Option<&List<NameTest>>
    ensures { option_map (λ tests. tests.now) result ≡ spec.tests_in value.now }
{
    match value {
        Value::NameTests(tests) => Some(tests),
        _ => None,
    }
}

fn tests_given(word: Word, given: &Given) -> Option<&List<NameTest>>
    ensures { option_map (λ tests. tests.now) result ≡ given_value spec.tests_in word given.now }
{
    if given.word.is(word) {
        tests_in(&given.value)
    } else {
        None
    }
}

pub fn first_tests(word: Word, given: &[Given]) -> Option<&List<NameTest>>
    ensures { option_map (λ tests. tests.now) result ≡ first_value spec.tests_in word given.now }
{
    for one in given {
        if let Some(tests) = tests_given(word, one) {
            return Some(tests);
        }
    }
    None
}

fn priority_in(value: &Value) -> Option<i32>
    ensures { result ≡ spec.priority_in value.now }
{
    match value {
        Value::Priority(priority) => Some(*priority),
        _ => None,
    }
}

fn priority_given(word: Word, given: &Given) -> Option<i32>
    ensures { result ≡ given_value spec.priority_in word given.now }
{
    if given.word.is(word) {
        priority_in(&given.value)
    } else {
        None
    }
}

pub fn first_priority(word: Word, given: &[Given]) -> Option<i32>
    ensures { result ≡ first_value spec.priority_in word given.now }
{
    for one in given {
        if let Some(priority) = priority_given(word, one) {
            return Some(priority);
        }
    }
    None
}

fn choice_in(value: &Value) -> Option<bool>
    ensures { result ≡ spec.choice_in value.now }
{
    match value {
        Value::IsText(choice) => Some(*choice),
        Value::IsNumber(choice) => Some(*choice),
        Value::IsDescending(choice) => Some(*choice),
        Value::IsYes(choice) => Some(*choice),
        _ => None,
    }
}

fn choice_given(word: Word, given: &Given) -> Option<bool>
    ensures { result ≡ given_value spec.choice_in word given.now }
{
    if given.word.is(word) {
        choice_in(&given.value)
    } else {
        None
    }
}

pub fn first_choice(word: Word, given: &[Given]) -> Option<bool>
    ensures { result ≡ first_value spec.choice_in word given.now }
{
    for one in given {
        if let Some(choice) = choice_given(word, one) {
            return Some(choice);
        }
    }
    None
}

/// Which of two values that are listed an attribute has; the first where there is none.
pub fn is_second(word: Word, given: &[Given]) -> bool
    ensures { result ≡ spec.is_second word given.now }
{
    first_choice(word, given).unwrap_or(false)
}
