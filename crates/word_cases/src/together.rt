ghost use Rattle.std.specs.Prelude.{◌≡◌, [], All};
ghost use Rattle.std.specs.Thread.{IsSync};
ghost use Rattle.word_cases.specs.Links.{IsLaidOutFor};

use crate::datum_first::DatumFirst;
use crate::links::add_all;
use crate::polling::{Done, poll};
use link_cells::{Cells, Pass, Writer, meet};
use lists::List;
use std::thread::{Threads, join};

/// Adds all rows while a reader polls for each pass, on threads of their own, and tells how many words they
/// missed. Each pass meets the writer at the end.
pub fn together<R: Threads + Sync>(
    rt: &R,
    cells: &Cells<DatumFirst>,
    rows: usize,
    writer: Writer<DatumFirst>,
    mut passes: List<Pass<DatumFirst>>,
) -> (Writer<DatumFirst>, u64)
    requires mark { (writer.mark ≡ cells.now) × All (λ pass. pass.mark ≡ cells.now) passes }
    requires words { IsLaidOutFor rows cells.now }
    requires none { writer.log ≡ [] }
    ensures mark { result.0.mark ≡ cells.now }
{
    let Some(pass) = passes.pop() else {
        return (add_all(cells, rows, writer), 0);
    };
    let (done, others) = join(
        rt,
        move || -> Done
            requires { (pass.mark ≡ cells.now) × IsLaidOutFor rows cells.now }
            ensures { result.pass.mark ≡ cells.entry.now }
        { poll(cells, rows, pass) },
        move || -> (Writer<DatumFirst>, u64)
            requires { IsSync R.row × (writer.mark ≡ cells.now) × All (λ pass. pass.mark ≡ cells.now) passes × IsLaidOutFor rows cells.now × (writer.log ≡ []) }
            ensures { result.0.mark ≡ cells.entry.now }
        { together(rt, cells, rows, writer, passes) },
    );
    let (mut writer, missed) = others;
    meet(cells, &mut writer, done.pass);
    (writer, missed.saturating_add(done.missed))
}
