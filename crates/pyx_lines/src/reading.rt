// The line that bytes spell.
ghost use Rattle.std.specs.Prelude.{◌≡◌, ◌≢◌, ◌<◌, Ok, Err, IfOk, IfErr, IfSome, length, if◌then◌else◌, [], IsTrue};
ghost use Rattle.std.specs.Str.{is_utf8};
ghost use Rattle.name_grammar.specs.Names.{is_name, is_ncname};
ghost use Rattle.pyx_lines.specs.Escapes.{unescape};
ghost use Rattle.pyx_lines.specs.Spelling.{Spells, IsRefused, line_of, spelled, attribute_of, instruction_of, space_in, named, Answers};
ghost use Rattle.pyx_lines.specs.declared.line.Line.TheVariants.{Start, End, Text, Instruction, Comment};
ghost use Rattle.pyx_lines.specs.declared.line_error.LineError.TheVariants.{Memory};

use crate::escapes::unescape;
use crate::{Line, LineError};
use lists::List;
use name_grammar::{is_name, is_ncname};
use std::alloc::Global;

/// The line that the bytes spell: those before a line feed, without one carriage return at their end. They
/// may be any bytes. Linear in them.
pub fn read_line(alloc: Global, bytes: &[u8]) -> Result<Line, LineError>
    ensures answer { Answers (line_of bytes.now) result }
    ensures line { IfOk result (λ line. IsTrue (is_utf8 bytes.now) × Spells bytes.now line) }
    ensures refused { IfErr result (λ error. error ≢ Memory → IsRefused error bytes.now) }
{
    read(alloc, bytes)
}

fn read(alloc: Global, bytes: &[u8]) -> Result<Line, LineError>
    ensures { Answers (line_of bytes.now) result }
{
    if !is_text(bytes) {
        return Err(LineError::NotUtf8);
    }
    match bytes {
        [first, rest @ ..] => spelled(alloc, *first, rest),
        [] => Ok(Line::Passed),
    }
}

#[tactic(auto, using(crate::proofs::Text::is_text, crate::proofs::Text::is_no_text))]
fn is_text(bytes: &[u8]) -> bool
    ensures { result ≡ is_utf8 bytes.now }
{
    match simdutf8::basic::from_utf8(bytes) {
        Ok(_) => true,
        Err(_) => false,
    }
}

fn spelled(alloc: Global, first: u8, rest: &[u8]) -> Result<Line, LineError>
    ensures { Answers (spelled first rest.now) result }
{
    match first {
        b'(' => named(alloc, rest, true),
        b')' => named(alloc, rest, false),
        b'A' => attribute(alloc, rest),
        b'-' => text(alloc, rest),
        b'?' => instruction(alloc, rest),
        b'C' => comment(alloc, rest),
        b'B' | b'D'..=b'Z' => Ok(Line::Passed),
        _ => Err(LineError::UnknownLine),
    }
}

// A start or an end.
fn named(alloc: Global, name: &[u8], start: bool) -> Result<Line, LineError>
    ensures { Answers (if start then named (is_name name.now) (Start name.now) else named (is_name name.now) (End name.now)) result }
{
    if !is_name(name) {
        return Err(LineError::BadName);
    }
    let name = copy(alloc, name)?;
    if start {
        Ok(Line::Start(name))
    } else {
        Ok(Line::End(name))
    }
}

fn attribute(alloc: Global, rest: &[u8]) -> Result<Line, LineError>
    ensures { Answers (attribute_of (space_in rest.now) rest.now) result }
{
    let Some(at) = space(rest) else {
        return Err(LineError::NoSpace);
    };
    if !is_name(&rest[..at]) {
        return Err(LineError::BadName);
    }
    let name = copy(alloc, &rest[..at])?;
    let value = value(alloc, &rest[at + 1..])?;
    Ok(Line::Attr { name, value })
}

fn text(alloc: Global, rest: &[u8]) -> Result<Line, LineError>
    ensures { Answers (Ok (Text (unescape rest.now))) result }
{
    match value(alloc, rest) {
        Ok(text) => Ok(Line::Text(text)),
        Err(error) => Err(error),
    }
}

fn comment(alloc: Global, rest: &[u8]) -> Result<Line, LineError>
    ensures { Answers (Ok (Comment (unescape rest.now))) result }
{
    match value(alloc, rest) {
        Ok(text) => Ok(Line::Comment(text)),
        Err(error) => Err(error),
    }
}

fn instruction(alloc: Global, rest: &[u8]) -> Result<Line, LineError>
    ensures { Answers (instruction_of (space_in rest.now) rest.now) result }
{
    let Some(at) = space(rest) else {
        return bare(alloc, rest);
    };
    if !is_ncname(&rest[..at]) {
        return Err(LineError::BadName);
    }
    let target = copy(alloc, &rest[..at])?;
    let value = value(alloc, &rest[at + 1..])?;
    Ok(Line::Instruction { target, value })
}

// An instruction without a space has empty data.
fn bare(alloc: Global, target: &[u8]) -> Result<Line, LineError>
    ensures { Answers (named (is_ncname target.now) (Instruction target.now [])) result }
{
    if !is_ncname(target) {
        return Err(LineError::BadName);
    }
    let target = copy(alloc, target)?;
    Ok(Line::Instruction {
        target,
        value: List::new(alloc),
    })
}

fn space(bytes: &[u8]) -> Option<usize>
    ensures place { result ≡ space_in bytes.now }
    ensures within { IfSome result (λ k. k < length bytes.now) }
{
    bytes.iter().position(|b| *b == b' ')
}

fn copy(alloc: Global, bytes: &[u8]) -> Result<List<u8>, LineError>
    ensures ok { IfOk result (λ copy. copy ≡ bytes.now) }
    ensures err { IfErr result (λ error. error ≡ Memory) }
{
    match List::from_slice(alloc, bytes) {
        Ok(copy) => Ok(copy),
        Err(_) => Err(LineError::Memory),
    }
}

fn value(alloc: Global, bytes: &[u8]) -> Result<List<u8>, LineError>
    ensures ok { IfOk result (λ value. value ≡ unescape bytes.now) }
    ensures err { IfErr result (λ error. error ≡ Memory) }
{
    match unescape(alloc, bytes) {
        Ok(value) => Ok(List::from_vec(value)),
        Err(_) => Err(LineError::Memory),
    }
}
