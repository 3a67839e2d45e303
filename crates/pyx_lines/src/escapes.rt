// Line feeds, tabs and backslashes, as a line spells them.
ghost use Rattle.std.specs.Prelude.{◌≡◌, ◌++◌, ◌≤◌, ◌<◌, IfOk, OnOk, OnErr, IfSome, length, position, ◌==◌, take, vec_len};
ghost use Rattle.memchr.specs.Find.{IsFirstByte, is_byte};
ghost use Rattle.pyx_lines.specs.Escapes.{unescape, escape, escaped, escape_byte};

use memchr::memchr;
use std::alloc::{AllocError, Global};

/// The value that the bytes spell. Linear in them.
pub fn unescape(alloc: Global, bytes: &[u8]) -> Result<Vec<u8>, AllocError>
    ensures { IfOk result (λ value. value.items ≡ unescape bytes.now) }
{
    let mut value = Vec::with_capacity(alloc, bytes.len())?;
    let mut rest = bytes;
    while let Some(at) = memchr(b'\\', rest) {
        value.extend_from_slice(&rest[..at])?;
        if at + 1 == rest.len() {
            value.push(b'\\')?;
            return Ok(value);
        }
        escaped_onto(&mut value, rest[at + 1])?;
        rest = &rest[at + 2..];
    }
    value.extend_from_slice(rest)?;
    Ok(value)
}

// What a backslash and this byte stand for.
fn escaped_onto(out: &mut Vec<u8>, b: u8) -> Result<(), AllocError>
    ensures { OnOk result (out.new.items ≡ out.old.items ++ escaped b) }
{
    match b {
        b'n' => out.extend_from_slice(b"\n"),
        b't' => out.extend_from_slice(b"\t"),
        b'\\' => out.extend_from_slice(b"\\"),
        _ => out.extend_from_slice(&[b'\\', b]),
    }
}

/// Appends a value as it is written. A refusal leaves what was there at the front. Linear in the value.
pub fn escape_onto(out: &mut Vec<u8>, value: &[u8]) -> Result<(), AllocError>
    ensures ok { OnOk result (out.new.items ≡ out.old.items ++ escape value.now) }
    ensures err { OnErr result (take (vec_len out.old) out.new.items ≡ out.old.items) }
{
    for b in value {
        escape_byte_onto(out, *b)?;
    }
    Ok(())
}

fn escape_byte_onto(out: &mut Vec<u8>, b: u8) -> Result<(), AllocError>
    ensures ok { OnOk result (out.new.items ≡ out.old.items ++ escape_byte b) }
    ensures err { OnErr result (out.new.items ≡ out.old.items) }
{
    match b {
        b'\n' => out.extend_from_slice(b"\\n"),
        b'\t' => out.extend_from_slice(b"\\t"),
        b'\\' => out.extend_from_slice(b"\\\\"),
        _ => out.extend_from_slice(&[b]),
    }
}
