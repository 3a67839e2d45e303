//! The graph: a node for each global, then for each template, then for each mode.

ghost use Rattle.std.specs.Prelude.{◌≡◌, ℕ, List, ◌++◌, IfOk, map};
ghost use Rattle.std.specs.List.{range_with_len};
ghost use Rattle.sheet_ast.specs.declared.sheet.Rule.{Rule};
ghost use Rattle.sheet_graph.specs.Graph.{global_node, template_node, mode_node, mode_count, graph_of};

use crate::bodies::{name_body, name_value, name_variables};
use crate::modes::mode_nodes;
use global_order::Node;
use lists::List;
use sheet_ast::{Global, Sheet, Template};
use std::alloc::{self, AllocError};

// A global names what its value mentions.
fn node_of_global(alloc: alloc::Global, sheet: &Sheet, global: &Global) -> Result<Node, AllocError>
    ensures { IfOk result (λ node. node ≡ global_node sheet.now global.now) }
{
    let mut names = List::new(alloc);
    name_value(sheet, &global.value, &mut names)?;
    Ok(Node {
        is_global: true,
        names,
    })
}

// A template names what its parameters and its body mention.
fn node_of_template(
    alloc: alloc::Global,
    sheet: &Sheet,
    template: &Template,
) -> Result<Node, AllocError>
    ensures { IfOk result (λ node. node ≡ template_node sheet.now template.now) }
{
    let mut names = List::new(alloc);
    name_variables(sheet, &template.params, &mut names)?;
    name_body(sheet, &template.body, &mut names)?;
    Ok(Node {
        is_global: false,
        names,
    })
}

fn add_globals(
    alloc: alloc::Global,
    sheet: &Sheet,
    nodes: &mut List<Node>,
) -> Result<(), AllocError>
    ensures { IfOk result (λ _. nodes.new ≡ nodes.old ++ map (global_node sheet.now) sheet.now.globals) }
{
    for global in sheet.globals.as_slice() {
        nodes.push(node_of_global(alloc, sheet, global)?)?;
    }
    Ok(())
}

fn add_templates(
    alloc: alloc::Global,
    sheet: &Sheet,
    nodes: &mut List<Node>,
) -> Result<(), AllocError>
    ensures { IfOk result (λ _. nodes.new ≡ nodes.old ++ map (template_node sheet.now) sheet.now.templates) }
{
    for template in sheet.templates.as_slice() {
        nodes.push(node_of_template(alloc, sheet, template)?)?;
    }
    Ok(())
}

// What the globals of a stylesheet depend on. Costs O(what the sheet mentions).
pub fn graph(alloc: alloc::Global, sheet: &Sheet) -> Result<List<Node>, AllocError>
    ensures { IfOk result (λ nodes. nodes ≡ graph_of sheet.now) }
{
    let mut nodes = List::new(alloc);
    add_globals(alloc, sheet, &mut nodes)?;
    add_templates(alloc, sheet, &mut nodes)?;
    nodes.append(mode_nodes(alloc, sheet)?)?;
    Ok(nodes)
}
