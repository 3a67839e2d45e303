ghost use Rattle.std.specs.Prelude.{◌≡◌, ◌++◌, ◌-◌, OnOk};
ghost use Rattle.doc_model.specs.Lawful.{IsJoined};
ghost use Rattle.doc_model.specs.Rows.{rows_of};
ghost use Rattle.doc_model.specs.View.{Moves};
ghost use Rattle.copy_meaning.specs.Passes.{depth_at, ends};
ghost use Rattle.engine_content.specs.Climbing.{IsAround};

use doc_model::NodeView;
use result_events::{Buffer, ResultEvent};
use std::alloc::{AllocError, Global};

/// Ends row `at` and the rows around it up to row `to`, which is one of them and stays open.
pub(crate) fn climb<V: NodeView>(
    alloc: Global,
    view: &mut V,
    at: u32,
    to: u32,
    made: &mut Buffer,
) -> Result<(), AllocError>
    requires joined { IsJoined (V.sees view.old).steps at }
    requires around { IsAround (rows_of (V.sees view.old).steps) at to }
    ensures moves { Moves (V.sees view.old) (V.sees view.new) }
    ensures value { OnOk result (made.new ≡ made.old ++ ends (depth_at (rows_of (V.sees view.new).steps) at - depth_at (rows_of (V.sees view.new).steps) to)) }
{
    view.told();
    let mut open = at;
    'climb: while open != to {
        // The root alone has no parent, and no row is around it.
        let up = view.parent(open).unwrap();
        made.push(alloc, ResultEvent::End)?;
        open = up;
    }
    Ok(())
}
