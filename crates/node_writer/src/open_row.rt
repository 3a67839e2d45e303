ghost use Rattle.std.specs.Prelude.{◌≡◌, ◌<◌, length, OnOk};
ghost use Rattle.doc_model.specs.Legal.{how_of};
ghost use Rattle.node_writer.specs.Stack.{innermost, with_joined};

use doc_model::{Join, Kind};
use lists::List;
use name_pool::Memory;

/// A row that is open, and its last child so far.
#[derive(Clone, Copy)]
pub(crate) struct OpenRow {
    pub(crate) row: u32,
    pub(crate) last: Option<u32>,
}

impl OpenRow {
    /// The link by which its next child is joined.
    pub(crate) fn join(self) -> Join
        ensures { result ≡ how_of self.row self.last }
    {
        match self.last {
            None => Join::FirstOf(self.row),
            Some(last) => Join::NextOf(last),
        }
    }
}

/// The last of the open rows.
pub(crate) fn innermost(stack: &List<OpenRow>) -> OpenRow
    requires { 0 < length stack.now }
    ensures { result ≡ innermost stack.now }
{
    match stack.get(stack.len() - 1) {
        Some(open) => *open,
        None => unreachable!(),
    }
}

/// Counts row `n` as the last child of the innermost open row, and opens it if it may have children. Fails
/// only for want of memory.
pub(crate) fn count_joined(stack: &mut List<OpenRow>, n: u32, kind: Kind) -> Result<(), Memory>
    requires { 0 < length stack.old }
    ensures { OnOk result (stack.new ≡ with_joined stack.old n kind) }
{
    let around = innermost(stack);
    let at = stack.len() - 1;
    let child = OpenRow {
        row: around.row,
        last: Some(n),
    };
    stack.set(at, child);
    if !kind.may_have_children() {
        return Ok(());
    }
    match stack.push(OpenRow { row: n, last: None }) {
        Ok(_) => Ok(()),
        Err(_) => Err(Memory),
    }
}
