// Copies of nodes of a document of items.
ghost use Rattle.line_feeder.specs.Standing.{CanFeed};

use doc_model::Limits;
use edge::{Memory, MemorySource};
use engine_content::copy_node;
use line_feeder::Feeder;
use lists::List;
use plain_columns::Plain;
use result_events::Buffer;
use std::alloc::{AllocError, Global};

const ITEM: &[u8] = b"(item\nAkind short\n-text\n(name\n)name\n)item\n";

const ITEM_LINES: u32 = 6;

// The events of a copy of a whole document of so many items. It is copied eight times, so that most of the cost is that
// of copying.
pub fn copies(alloc: Global, size: u32) -> Result<usize, AllocError> {
    let table = document(alloc, size).map_err(|_| AllocError)?;
    let mut count = 0;
    for _ in 0..8 {
        count = copy_size(alloc, &table)?;
    }
    Ok(count)
}

// The events of a copy of all rows.
fn copy_size(alloc: Global, table: &Plain) -> Result<usize, AllocError> {
    let mut out = Buffer::start(alloc)?;
    let mut view = table.view();
    match copy_node(alloc, &mut view, 0, &mut out) {
        Ok(()) => Ok(out.events().len()),
        Err(_) => Err(AllocError),
    }
}

// A list of so many items, each with an attribute, a text and an element without content.
pub fn document(alloc: Global, size: u32) -> Result<Plain, Memory> {
    let mut lines = Vec::new(alloc);
    lines.extend_from_slice(b"(list\n").map_err(|_| Memory)?;
    for _ in 0..size {
        lines.extend_from_slice(ITEM).map_err(|_| Memory)?;
    }
    lines.extend_from_slice(b")list\n").map_err(|_| Memory)?;
    let mut source = MemorySource::make(alloc, lines.as_slice(), 65_536, &[])?;
    let limits = Limits {
        rows: size.saturating_mul(4).saturating_add(2),
        text: u64::from(size.saturating_mul(9).saturating_add(100)),
        names: 10,
    };
    let mut feeder = Feeder::start(alloc, limits)?;
    let Ok(mut table) = Plain::start(alloc, limits) else {
        return Err(Memory);
    };
    // Every line, and the end of the source behind the last one.
    let count = size.saturating_mul(ITEM_LINES).saturating_add(3);
    feed_lines(alloc, &mut feeder, &mut source, &mut table, count);
    Ok(table)
}

fn feed_lines(
    alloc: Global,
    feeder: &mut Feeder,
    source: &mut MemorySource,
    table: &mut Plain,
    count: u32,
)
    requires { CanFeed feeder.old table.old.limits table.old.cells }
    ensures { CanFeed feeder.new table.new.limits table.new.cells }
{
    'lines: for _ in 0..count {
        feeder.feed(alloc, source, table);
    }
}
