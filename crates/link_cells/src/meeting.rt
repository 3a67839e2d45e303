ghost use Rattle.std.specs.Prelude.{◌≡◌};
ghost use mathlib.Core.List.{IsPrefix};

use crate::discipline::Discipline;
use crate::pass::Pass;
use crate::past::Past;
use crate::table::Cells;
use crate::writer::Writer;
use std::snapshot::Snapshot;

/// Ends a pass: what it has seen is a beginning of the writer's log, which stays as it was. Two loads,
/// without memory, wait or loop.
pub fn meet<D: Discipline>(cells: &Cells<D>, writer: &mut Writer<D>, pass: Pass<D>) -> Past<D>
    requires writer { writer.old.mark ≡ cells.now }
    requires pass { pass.mark ≡ cells.now }
    ensures writer { writer.new ≡ writer.old }
    ensures past { result ≡ pass.log }
    ensures prefix { IsPrefix pass.log writer.old.log }
{
    let past = Past {
        was: Snapshot::of(&pass),
    };
    writer.hear(cells, pass);
    past
}

/// Brings a pass up to date, on the writer's thread: what it had seen is a beginning of the writer's log, and
/// afterwards it has seen just that log. The log stays as it was. Five loads, without memory, wait or loop.
pub fn show<D: Discipline>(cells: &Cells<D>, writer: &mut Writer<D>, pass: &mut Pass<D>)
    requires writer { writer.old.mark ≡ cells.now }
    requires pass { pass.old.mark ≡ cells.now }
    ensures writer { writer.new ≡ writer.old }
    ensures pass { pass.new ≡ writer.old }
    ensures grows { IsPrefix pass.old.log writer.old.log }
{
    let told = pass.twin(cells);
    writer.hear(cells, told);
    let news = writer.new_pass(cells);
    pass.take(cells, news);
}
