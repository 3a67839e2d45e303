ghost use Rattle.std.specs.Prelude.{◌≡◌, ◌≤◌, [], IfOk, replicate};
ghost use Rattle.link_cells.specs.Known.{knows};

use crate::discipline::Discipline;
use crate::layout::Layout;
use crate::pass::Pass;
use crate::plan::Plan;
use crate::table::Cells;
use crate::writer::Writer;
use atomic_table::Table;
use lists::List;
use std::alloc::{AllocError, Global};
use std::marker::PhantomData;

/// So many words, all 0, with their writer and a pass for each reader. Takes 8 bytes a word, and for a moment
/// the same again; no other call takes memory. Fails only for want of memory.
pub fn cells<D: Discipline>(
    alloc: Global,
    words: usize,
    readers: u32,
    layout: Layout,
) -> Result<(Cells<D>, Writer<D>, List<Pass<D>>), AllocError>
    requires words { 1 ≤ words }
    requires readers { 1 ≤ readers }
    ensures cells { IfOk result (λ c. (c.0.table.words ≡ words) × (c.0.layout ≡ layout)) }
    ensures writer { IfOk result (λ c. c.1 ≡ knows c.0 []) }
    ensures passes { IfOk result (λ c. c.2 ≡ replicate readers (knows c.0 [])) }
{
    let (cells, mut writer) = blank(alloc, words, layout)?;
    let passes = passes(alloc, &cells, &mut writer, readers)?;
    Ok((cells, writer, passes))
}

// the words and the writer, before there are passes
fn blank<D: Discipline>(
    alloc: Global,
    words: usize,
    layout: Layout,
) -> Result<(Cells<D>, Writer<D>), AllocError>
    requires { 1 ≤ words }
    ensures { IfOk result (λ c. (c.0.table.words ≡ words) × (c.0.layout ≡ layout) × (c.1 ≡ knows c.0 [])) }
{
    let zeros = vec![in alloc; 0u64; words]?;
    let plan = Plan { words, layout };
    let (table, seat) = Table::of_words(alloc, zeros.as_slice(), &plan)?;
    let writer = Writer {
        seat,
        of: PhantomData,
    };
    Ok((Cells { table }, writer))
}

// so many passes that have seen what the writer has set
fn passes<D: Discipline>(
    alloc: Global,
    cells: &Cells<D>,
    writer: &mut Writer<D>,
    readers: u32,
) -> Result<List<Pass<D>>, AllocError>
    requires { writer.old.mark ≡ cells.now }
    ensures writer { writer.new ≡ writer.old }
    ensures passes { IfOk result (λ passes. passes ≡ replicate readers writer.old) }
{
    let mut passes = List::new(alloc);
    for _ in 0..readers {
        passes.push(writer.new_pass(cells))?;
    }
    Ok(passes)
}
