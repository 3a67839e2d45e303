// A line as it is written.
ghost use Rattle.std.specs.Prelude.{◌≡◌, ◌++◌, ◌∷◌, ◌≤◌, [], if◌then◌else◌, OnOk, OnErr, take, drop, vec_len};
ghost use Rattle.pyx_lines.specs.Escapes.{escape};
ghost use Rattle.pyx_lines.specs.Writing.{written, guarded, ends_in_return, CanBeWritten};
ghost use Rattle.pyx_lines.specs.declared.line.Line.TheVariants.{Start, End, Attr, Text, Instruction, Comment};

use crate::Line;
use crate::escapes::escape_onto;
use std::alloc::{AllocError, Global};

/// Appends the bytes that a line is written as, its line feed with them. Fails only for want of memory, and
/// then leaves `out`. Linear in the line.
pub fn write_line(_alloc: Global, line: &Line, out: &mut Vec<u8>) -> Result<(), AllocError>
    requires { CanBeWritten line.now }
    ensures ok { OnOk result (out.new.items ≡ out.old.items ++ written line.now) }
    ensures err { OnErr result (out.new.items ≡ out.old.items) }
{
    match line {
        Line::Start(name) => write_start(name.as_slice(), out),
        Line::End(name) => write_end(name.as_slice(), out),
        Line::Attr { name, value } => write_attribute(name.as_slice(), value.as_slice(), out),
        Line::Text(text) => write_text(text.as_slice(), out),
        Line::Instruction { target, value } => {
            write_instruction(target.as_slice(), value.as_slice(), out)
        }
        Line::Comment(text) => write_comment(text.as_slice(), out),
        Line::Passed => unreachable!(),
    }
}

/// Appends a start line of any name, as `write_line` writes it. Like each call below it takes any bytes, asks
/// nothing of them, fails only for want of memory, and then leaves `out`. Linear in what it is given.
pub fn write_start(name: &[u8], out: &mut Vec<u8>) -> Result<(), AllocError>
    ensures ok { OnOk result (out.new.items ≡ out.old.items ++ written (Start name.now)) }
    ensures err { OnErr result (out.new.items ≡ out.old.items) }
{
    let start = out.len();
    let written = tagged(out, b'(', name);
    or_undone(out, start, written)
}

/// Appends an end line.
pub fn write_end(name: &[u8], out: &mut Vec<u8>) -> Result<(), AllocError>
    ensures ok { OnOk result (out.new.items ≡ out.old.items ++ written (End name.now)) }
    ensures err { OnErr result (out.new.items ≡ out.old.items) }
{
    let start = out.len();
    let written = tagged(out, b')', name);
    or_undone(out, start, written)
}

/// Appends an attribute line.
pub fn write_attribute(name: &[u8], value: &[u8], out: &mut Vec<u8>) -> Result<(), AllocError>
    ensures ok { OnOk result (out.new.items ≡ out.old.items ++ written (Attr name.now value.now)) }
    ensures err { OnErr result (out.new.items ≡ out.old.items) }
{
    let start = out.len();
    let written = pair(out, b'A', name, value);
    or_undone(out, start, written)
}

/// Appends a line of character data.
pub fn write_text(text: &[u8], out: &mut Vec<u8>) -> Result<(), AllocError>
    ensures ok { OnOk result (out.new.items ≡ out.old.items ++ written (Text text.now)) }
    ensures err { OnErr result (out.new.items ≡ out.old.items) }
{
    let start = out.len();
    let written = escaped(out, b'-', text);
    or_undone(out, start, written)
}

/// Appends an instruction line.
pub fn write_instruction(target: &[u8], value: &[u8], out: &mut Vec<u8>) -> Result<(), AllocError>
    ensures ok { OnOk result (out.new.items ≡ out.old.items ++ written (Instruction target.now value.now)) }
    ensures err { OnErr result (out.new.items ≡ out.old.items) }
{
    let start = out.len();
    let written = pair(out, b'?', target, value);
    or_undone(out, start, written)
}

/// Appends a comment line.
pub fn write_comment(text: &[u8], out: &mut Vec<u8>) -> Result<(), AllocError>
    ensures ok { OnOk result (out.new.items ≡ out.old.items ++ written (Comment text.now)) }
    ensures err { OnErr result (out.new.items ≡ out.old.items) }
{
    let start = out.len();
    let written = escaped(out, b'C', text);
    or_undone(out, start, written)
}

// Takes back a line that wasn't written whole.
fn or_undone(
    out: &mut Vec<u8>,
    start: usize,
    written: Result<(), AllocError>,
) -> Result<(), AllocError>
    ensures same { result ≡ written }
    ensures ok { OnOk written (out.new.items ≡ out.old.items) }
    ensures err { OnErr written (out.new.items ≡ take start out.old.items) }
{
    if written.is_err() {
        out.truncate(start);
    }
    written
}

fn tagged(out: &mut Vec<u8>, first: u8, name: &[u8]) -> Result<(), AllocError>
    ensures ok { OnOk result (out.new.items ≡ out.old.items ++ (guarded (first ∷ name.now) ++ 10 ∷ [])) }
    ensures err { OnErr result (take (vec_len out.old) out.new.items ≡ out.old.items) }
{
    let start = out.len();
    tag(out, first, name)?;
    end_line(out, start)?;
    Ok(())
}

fn escaped(out: &mut Vec<u8>, first: u8, text: &[u8]) -> Result<(), AllocError>
    ensures ok { OnOk result (out.new.items ≡ out.old.items ++ (guarded (first ∷ escape text.now) ++ 10 ∷ [])) }
    ensures err { OnErr result (take (vec_len out.old) out.new.items ≡ out.old.items) }
{
    let start = out.len();
    out.push(first)?;
    escape_onto(out, text)?;
    end_line(out, start)?;
    Ok(())
}

fn pair(out: &mut Vec<u8>, first: u8, name: &[u8], value: &[u8]) -> Result<(), AllocError>
    ensures ok { OnOk result (out.new.items ≡ out.old.items ++ (guarded (first ∷ name.now ++ 32 ∷ escape value.now) ++ 10 ∷ [])) }
    ensures err { OnErr result (take (vec_len out.old) out.new.items ≡ out.old.items) }
{
    let start = out.len();
    tag(out, first, name)?;
    out.push(b' ')?;
    escape_onto(out, value)?;
    end_line(out, start)?;
    Ok(())
}

fn tag(out: &mut Vec<u8>, first: u8, name: &[u8]) -> Result<(), AllocError>
    ensures ok { OnOk result (out.new.items ≡ out.old.items ++ first ∷ name.now) }
    ensures err { OnErr result (take (vec_len out.old) out.new.items ≡ out.old.items) }
{
    out.push(first)?;
    out.extend_from_slice(name)
}

// Ends the line that begins at `start`.
fn end_line(out: &mut Vec<u8>, start: usize) -> Result<(), AllocError>
    requires { start ≤ vec_len out.old }
    ensures ok { OnOk result (out.new.items ≡ out.old.items ++ (if ends_in_return (drop start out.old.items) then 13 ∷ 10 ∷ [] else 10 ∷ [])) }
    ensures err { OnErr result (take start out.new.items ≡ take start out.old.items) }
{
    if ends_in_return(&out[start..]) {
        out.push(b'\r')?;
    }
    out.push(b'\n')?;
    Ok(())
}

fn ends_in_return(bytes: &[u8]) -> bool
    ensures { result ≡ ends_in_return bytes.now }
{
    match bytes {
        [.., last] => *last == b'\r',
        [] => false,
    }
}
