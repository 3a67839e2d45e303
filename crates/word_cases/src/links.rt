ghost use Rattle.std.specs.Prelude.{◌≡◌, ◌≢◌, ◌+◌, ◌<◌, [], IfSome, IfNone};
ghost use Rattle.link_cells.specs.Log.{value_at};
ghost use Rattle.word_cases.specs.Links.{HasNoneFrom, IsLaidOutFor};

use crate::datum_first::DatumFirst;
use link_cells::{Cells, Pass, Writer};

/// Adds a row: its datum, and then its link.
pub fn add(
    cells: &Cells<DatumFirst>,
    writer: &mut Writer<DatumFirst>,
    rows: usize,
    row: usize,
    datum: u64,
)
    requires mark { writer.old.mark ≡ cells.now }
    requires words { IsLaidOutFor rows cells.now }
    requires row { row < rows }
    requires datum { datum ≢ 0 }
    requires none { HasNoneFrom rows row writer.old.log }
    ensures mark { writer.new.mark ≡ writer.old.mark }
    ensures none { HasNoneFrom rows (row + 1) writer.new.log }
{
    writer.lawful();
    writer.set(cells, row, datum);
    writer.set(cells, rows + row, 1);
}

/// Adds all rows, with the numbers from 1 on.
pub fn add_all(
    cells: &Cells<DatumFirst>,
    rows: usize,
    mut writer: Writer<DatumFirst>,
) -> Writer<DatumFirst>
    requires mark { writer.mark ≡ cells.now }
    requires words { IsLaidOutFor rows cells.now }
    requires none { writer.log ≡ [] }
    ensures mark { result.mark ≡ writer.mark }
{
    for row in 0..rows {
        add(cells, &mut writer, rows, row, row as u64 + 1);
    }
    writer
}

/// The datum of a row whose link is set. It is there whenever the link is.
pub fn linked_datum(
    cells: &Cells<DatumFirst>,
    pass: &mut Pass<DatumFirst>,
    rows: usize,
    row: usize,
) -> Option<u64>
    requires mark { pass.old.mark ≡ cells.now }
    requires words { IsLaidOutFor rows cells.now }
    requires row { row < rows }
    ensures mark { pass.new.mark ≡ pass.old.mark }
    ensures datum { IfSome result (λ datum. datum ≢ 0) }
    ensures value { IfSome result (λ datum. datum ≡ value_at row pass.new.log) }
    ensures none { IfNone result (value_at (rows + row) pass.new.log ≡ 0) }
{
    let link = pass.get(cells, rows + row);
    if link == 0 {
        return None;
    }
    let datum = pass.get(cells, row);
    Some(datum)
}
