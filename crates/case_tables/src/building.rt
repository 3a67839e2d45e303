// Tables that are built from lines, with ample memory. The lines of a text have line feeds between them.
ghost use Rattle.std.specs.Prelude.{IfOk};
ghost use Rattle.doc_model.specs.Lawful.{Grows};
ghost use Rattle.dtm_builder.specs.Lines.{IsReadable};
ghost use Rattle.case_tables.specs.Building.{StandsAfter};

use doc_model::Limits;
use dtm_builder::{Builder, what_is_read_is_readable};
use name_pool::Memory;
use plain_columns::Plain;
use pyx_lines::{Line, read_line};
use std::alloc::Global;

const LIMITS: Limits = Limits {
    rows: 4_000,
    text: 1_000,
    names: 100,
};

fn read(alloc: Global, text: &[u8]) -> Result<Line, Memory>
    ensures { IfOk result (λ line. IsReadable line) }
{
    what_is_read_is_readable();
    match read_line(alloc, text) {
        Ok(line) => Ok(line),
        Err(_) => Err(Memory),
    }
}

/// An empty table and its builder.
pub fn begin(alloc: Global) -> Result<(Builder, Plain), Memory>
    ensures { IfOk result (λ begun. StandsAfter begun.0 begun.1 0) }
{
    let builder = Builder::start(alloc, LIMITS)?;
    match Plain::start(alloc, LIMITS) {
        Ok(table) => Ok((builder, table)),
        Err(_) => Err(Memory),
    }
}

/// Builds the lines after so many, and tells how many they are then.
pub fn feed(
    alloc: Global,
    builder: &mut Builder,
    table: &mut Plain,
    taken: u32,
    text: &[u8],
) -> Result<u32, Memory>
    requires { StandsAfter builder.old table.old taken }
    ensures taken { IfOk result (λ count. StandsAfter builder.new table.new count) }
    ensures grows { IfOk result (λ _. Grows table.old.cells.steps table.new.cells.steps) }
{
    let mut count = taken;
    for bytes in text.split(|b| *b == b'\n') {
        if count == u32::MAX {
            return Err(Memory);
        }
        count += 1;
        let line = read(alloc, bytes)?;
        match builder.line(alloc, table, line) {
            Ok(_) => {}
            Err(_) => return Err(Memory),
        }
    }
    Ok(count)
}

/// The table after these lines, which can go on.
pub fn begun(alloc: Global, text: &[u8]) -> Result<Plain, Memory> {
    let (mut builder, mut table) = begin(alloc)?;
    feed(alloc, &mut builder, &mut table, 0, text)?;
    Ok(table)
}

/// The table of a whole document.
pub fn whole(alloc: Global, text: &[u8]) -> Result<Plain, Memory> {
    let (mut builder, mut table) = begin(alloc)?;
    feed(alloc, &mut builder, &mut table, 0, text)?;
    match builder.close(alloc, &mut table) {
        Ok(_) => Ok(table),
        Err(_) => Err(Memory),
    }
}
