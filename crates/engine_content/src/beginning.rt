ghost use Rattle.std.specs.Prelude.{◌≡◌, ◌++◌, IfOk, OnOk};
ghost use Rattle.doc_model.specs.Lawful.{IsJoined};
ghost use Rattle.doc_model.specs.Rows.{rows_of, row_at};
ghost use Rattle.doc_model.specs.View.{Moves};
ghost use Rattle.copy_meaning.specs.Copies.{result_name};
ghost use Rattle.copy_meaning.specs.Passes.{beginning, beginning_shown};

use doc_model::{Kind, NameText, NodeView};
use lists::List;
use result_events::{Buffer, Name, ResultEvent};
use std::alloc::{AllocError, Global};

/// Appends what comes before the attributes and the children of row `k`, which has this kind, if it is visible.
pub(crate) fn begin_shown<V: NodeView>(
    alloc: Global,
    view: &mut V,
    k: u32,
    kind: Kind,
    made: &mut Buffer,
) -> Result<(), AllocError>
    requires joined { IsJoined (V.sees view.old).steps k }
    requires kind { kind ≡ (row_at (rows_of (V.sees view.old).steps) k).kind }
    ensures moves { Moves (V.sees view.old) (V.sees view.new) }
    ensures value { OnOk result (made.new ≡ made.old ++ beginning_shown (V.sees view.new).rules (rows_of (V.sees view.new).steps) k) }
{
    // No other row is ever hidden.
    if !kind.is_text() {
        return begin(alloc, view, k, kind, made);
    }
    if !view.shown(k) {
        return Ok(());
    }
    begin(alloc, view, k, kind, made)
}

/// Appends what comes before the attributes and the children of row `k`, which has this kind: the start of an element,
/// nothing of the root, and all of another row. Fails only for want of memory.
pub fn begin<V: NodeView>(
    alloc: Global,
    view: &mut V,
    k: u32,
    kind: Kind,
    made: &mut Buffer,
) -> Result<(), AllocError>
    requires joined { IsJoined (V.sees view.old).steps k }
    requires kind { kind ≡ (row_at (rows_of (V.sees view.old).steps) k).kind }
    ensures moves { Moves (V.sees view.old) (V.sees view.new) }
    ensures value { OnOk result (made.new ≡ made.old ++ beginning (row_at (rows_of (V.sees view.new).steps) k)) }
{
    match kind {
        Kind::Root => {
            view.told();
            Ok(())
        }
        Kind::Element => {
            let name = name_of(alloc, view, k)?;
            made.push(alloc, ResultEvent::Start(name))
        }
        Kind::Attribute => {
            let name = name_of(alloc, view, k)?;
            let value = own_value(alloc, view, k)?;
            made.push(alloc, ResultEvent::Attr { name, value })
        }
        Kind::Text => {
            let text = own_value(alloc, view, k)?;
            made.push(alloc, ResultEvent::Text(text))
        }
        Kind::Instruction => {
            let target = name_of(alloc, view, k)?.local;
            let value = own_value(alloc, view, k)?;
            made.push(alloc, ResultEvent::Instruction { target, value })
        }
        Kind::Comment => {
            let text = own_value(alloc, view, k)?;
            made.push(alloc, ResultEvent::Comment(text))
        }
    }
}

/// The expanded name and the prefix of row `k`; an instruction's target is its local name (XPath 1.0, section 5). Fails
/// only for want of memory.
pub fn name_of<V: NodeView>(alloc: Global, view: &mut V, k: u32) -> Result<Name, AllocError>
    requires { IsJoined (V.sees view.old).steps k }
    ensures moves { Moves (V.sees view.old) (V.sees view.new) }
    ensures value { IfOk result (λ name. name ≡ result_name (row_at (rows_of (V.sees view.new).steps) k)) }
{
    let mut name = NameText {
        prefix: List::new(alloc),
        uri: List::new(alloc),
        local: List::new(alloc),
    };
    view.name(alloc, k, &mut name)?;
    let NameText { prefix, uri, local } = name;
    Ok(Name { prefix, uri, local })
}

/// The value of row `k` itself, in UTF-8: that of an attribute, a text, a comment or an instruction. Fails only for want
/// of memory.
pub fn own_value<V: NodeView>(alloc: Global, view: &mut V, k: u32) -> Result<List<u8>, AllocError>
    requires { IsJoined (V.sees view.old).steps k }
    ensures moves { Moves (V.sees view.old) (V.sees view.new) }
    ensures value { IfOk result (λ text. text ≡ (row_at (rows_of (V.sees view.new).steps) k).value) }
{
    let mut text = Vec::new(alloc);
    view.text(alloc, k, &mut text)?;
    Ok(List::from_vec(text))
}
