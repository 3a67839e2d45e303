ghost use Rattle.std.specs.Prelude.{◌≡◌};

use crate::discipline::Discipline;
use crate::pass::Pass;
use crate::table::Cells;
use crate::writer::Writer;

/// Threads may share cells, and a writer and a pass may be moved from one to another: they come back as they
/// are. Without code.
pub fn cross_threads<D: Discipline>(
    cells: &Cells<D>,
    writer: Writer<D>,
    pass: Pass<D>,
) -> (Writer<D>, Pass<D>)
    ensures { (result.0 ≡ writer) × (result.1 ≡ pass) }
{
    shared(cells);
    (moved(writer), moved(pass))
}

// a value that threads may share
fn shared<T: Sync>(_value: &T) {}

// a value that may be moved to another thread
fn moved<T: Send>(value: T) -> T
    ensures { result ≡ value }
{
    value
}
