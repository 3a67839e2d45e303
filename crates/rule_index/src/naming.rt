//! The name of a node, and the name that the last step of a pattern asks for.

ghost use Rattle.std.specs.Prelude.{◌≡◌, ◌-◌, IfOk, length, option_map, slice_get};
ghost use Rattle.doc_model.specs.Lawful.{IsJoined};
ghost use Rattle.doc_model.specs.Rows.{row_at, rows_of};
ghost use Rattle.doc_model.specs.Strip.{has_part};
ghost use Rattle.doc_model.specs.View.{Moves};
ghost use Rattle.pattern_names.specs.Wanted.{wanted_by, wanted_of};
ghost use Rattle.xpath_meaning.specs.Tests.{test_of};

use doc_model::{NameText, NodeView};
use lists::List;
use std::alloc::{AllocError, Global};
use xpath_syntax::{PatternPath, PatternStep, TestExpr};

// The local part of a node's name; of an instruction its target.
pub(crate) fn local_of<V: NodeView>(
    alloc: Global,
    view: &mut V,
    n: u32,
) -> Result<List<u8>, AllocError>
    requires { IsJoined (V.sees view.old).steps n }
    ensures moves { Moves (V.sees view.old) (V.sees view.new) }
    ensures value { IfOk result (λ local. local ≡ (row_at (rows_of (V.sees view.new).steps) n).local) }
{
    let mut text = NameText {
        prefix: List::new(alloc),
        uri: List::new(alloc),
        local: List::new(alloc),
    };
    view.name(alloc, n, &mut text)?;
    let NameText {
        prefix: _,
        uri: _,
        local,
    } = text;
    Ok(local)
}

// Whether the last step of a pattern asks for this local name, or for none. Asks no view.
pub(crate) fn may_be_named(path: &PatternPath, local: &[u8]) -> bool
    ensures { result ≡ has_part (wanted_by path.now) local.now }
{
    match last_step(path) {
        Some(step) => name_fits(&step.part.test, local),
        None => true,
    }
}

fn last_step(path: &PatternPath) -> Option<&PatternStep>
    ensures { option_map (λ step. step.now) result ≡ slice_get path.now.parts (length path.now.parts - 1) }
{
    path.parts.as_slice().last()
}

fn name_fits(test: &TestExpr, local: &[u8]) -> bool
    ensures { result ≡ has_part (wanted_of (test_of test.now)) local.now }
{
    match test {
        TestExpr::Name(name) => local == name.local.as_slice(),
        TestExpr::Instruction(Some(target)) => local == target.as_slice(),
        _ => true,
    }
}
