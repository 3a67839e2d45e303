//! A mode names the templates that its rules have.

ghost use Rattle.std.specs.Prelude.{◌≡◌, ◌<◌, ℕ, List, IfOk, map, take, length};
ghost use Rattle.std.specs.List.{range_with_len};
ghost use Rattle.sheet_graph.specs.Graph.{mode_node, mode_count};
ghost use Rattle.sheet_circles.specs.Modes.{empty_node, node_by};

use crate::numbers::number_of_template;
use global_order::Node;
use lists::List;
use sheet_ast::Sheet;
use std::alloc::{AllocError, Global};

// One above the greatest mode of the rules.
fn count_modes(sheet: &Sheet) -> usize
    ensures { result ≡ mode_count sheet.now }
{
    let mut count = 0;
    for rule in sheet.rules.as_slice() {
        let mode = rule.mode as usize;
        if count <= mode {
            count = mode + 1;
        }
    }
    count
}

// So many nodes that name nothing.
fn empty_nodes(alloc: Global, count: usize) -> Result<List<Node>, AllocError>
    ensures { IfOk result (λ nodes. nodes ≡ map empty_node (range_with_len 0 count)) }
{
    let mut nodes = List::new(alloc);
    for _ in 0..count {
        nodes.push(Node {
            is_global: false,
            names: List::new(alloc),
        })?;
    }
    Ok(nodes)
}

// The node at a place names one more.
fn add_name(nodes: &mut List<Node>, at: usize, name: u32) -> Result<(), AllocError>
    requires { at < length nodes.old }
    ensures { IfOk result (λ _. nodes.new ≡ node_by at name nodes.old) }
{
    nodes.item_mut(at).names.push(name)
}

// The nodes of the modes. Each rule is looked at once.
pub fn mode_nodes(alloc: Global, sheet: &Sheet) -> Result<List<Node>, AllocError>
    ensures { IfOk result (λ nodes. nodes ≡ map (mode_node sheet.now) (range_with_len 0 (mode_count sheet.now))) }
{
    let mut nodes = empty_nodes(alloc, count_modes(sheet))?;
    for rule in sheet.rules.as_slice() {
        let name = number_of_template(sheet, rule.template)?;
        add_name(&mut nodes, rule.mode as usize, name)?;
    }
    Ok(nodes)
}
