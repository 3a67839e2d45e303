//! The whole way from bytes to a stylesheet.

ghost use Rattle.sheet_compile.specs.Compiling.{Compiles};

use crate::joining::join;
use crate::modules::read_module;
use crate::stop::CompileStop;
use sheet_ast::Sheet;
use std::alloc::Global;

/// The stylesheet of these bytes, or its first fault (XSLT 1.0, section 2): the first flaw of the lines, or else the first
/// fault of an element by itself in document order, or else the first fault of a name in document order, or else Circle
/// with the line of the first variable or parameter that never becomes ready. A fault has the line of its element's
/// start. Nearly linear in the bytes: a logarithm comes with what is in scope and with each global. It recurs as deep as
/// elements and expressions are nested, each at most 100 deep.
pub fn compile(alloc: Global, bytes: &[u8]) -> Result<Sheet, CompileStop>
    ensures { Compiles bytes.now result }
{
    let source = read_module(alloc, bytes)?;
    join(alloc, source)
}
