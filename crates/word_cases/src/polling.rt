ghost use Rattle.std.specs.Prelude.{◌≡◌};
ghost use Rattle.word_cases.specs.Links.{IsLaidOutFor};

use crate::datum_first::DatumFirst;
use crate::links::linked_datum;
use link_cells::{Cells, Pass};

/// What a reader saw in one look at the rows: whether the last row was there, and how many words it missed,
/// unset or with another value, before a row that it had seen.
#[derive(Clone, Copy)]
pub struct Look {
    pub last: bool,
    pub missed: u64,
}

/// A reader that is done, with its pass.
#[derive(Drop)]
pub struct Done {
    pub pass: Pass<DatumFirst>,
    pub missed: u64,
}

/// Looks at the rows until the last one is there, at most a thousand times.
pub fn poll(cells: &Cells<DatumFirst>, rows: usize, mut pass: Pass<DatumFirst>) -> Done
    requires mark { pass.mark ≡ cells.now }
    requires words { IsLaidOutFor rows cells.now }
    ensures mark { result.pass.mark ≡ pass.mark }
{
    let mut missed = 0u64;
    for _ in 0..1000 {
        let look = look_at(cells, &mut pass, rows);
        missed = missed.saturating_add(look.missed);
        if look.last {
            break;
        }
    }
    Done { pass, missed }
}

// Looks at all rows, from the last to the first.
fn look_at(cells: &Cells<DatumFirst>, pass: &mut Pass<DatumFirst>, rows: usize) -> Look
    requires mark { pass.old.mark ≡ cells.now }
    requires words { IsLaidOutFor rows cells.now }
    ensures mark { pass.new.mark ≡ pass.old.mark }
{
    let mut last = false;
    let mut later_seen = false;
    let mut missed = 0u64;
    for row in (0..rows).rev() {
        let datum = linked_datum(cells, pass, rows, row);
        if datum == Some(row as u64 + 1) {
            last = last || row + 1 == rows;
            later_seen = true;
        } else if later_seen || datum.is_some() {
            missed = missed.saturating_add(1);
        }
    }
    Look { last, missed }
}
