// A type that leads back to itself through both containers, and a list of it in use.
ghost use Rattle.std.specs.Prelude.{◌≡◌, Bool, eqb, not, IfOk};
ghost use Rattle.std.specs.List.{list_any};
ghost use Rattle.lists.specs.declared.tests.Tree.TheOpen.{Tree-F};
ghost use Rattle.lists.specs.declared.tests.Tree.TheFolds.{fold-Tree};

use crate::{Boxed, List};
use std::alloc::AllocError;
use std::test::Fail;

#[derive(Clone, Debug, Drop, PartialEq, Eq)]
enum Tree {
    Leaf(u8),
    Not(Boxed<Tree>),
    Any(List<Tree>),
}

// Whether the tree holds where the leaves are compared with `byte`.
fn holds(tree: &Tree, byte: u8) -> bool
    ensures { result ≡ fold-Tree Bool (λ layer. elim layer [ Tree-F.Leaf x ↦ eqb x byte | Tree-F.Not inner ↦ not inner | Tree-F.Any parts ↦ list_any (λ part. part) parts ]) tree.now }
{
    match tree {
        Tree::Leaf(x) => *x == byte,
        Tree::Not(inner) => !holds(inner.get(), byte),
        Tree::Any(parts) => {
            let mut any = false;
            for part in parts.as_slice() {
                any = any || holds(part, byte);
            }
            any
        }
    }
}

// A node with a list in it, as the crates above have them.
#[derive(Clone, Debug, Drop, PartialEq, Eq)]
struct Node {
    name: List<u8>,
    parent: Option<u32>,
}

fn copy_of(nodes: &List<Node>) -> Result<List<Node>, AllocError>
    ensures { IfOk result (λ copy. copy ≡ nodes.now) }
{
    nodes.clone()
}

fn boxed_copy_of(node: &Boxed<Node>) -> Result<Boxed<Node>, AllocError>
    ensures { IfOk result (λ copy. copy ≡ node.now) }
{
    node.clone()
}

#[test]
fn a_list_grows_and_shrinks_at_its_end(rt: HostRuntime) -> Result<(), Fail> {
    let alloc = rt.alloc();
    let mut list = List::new(alloc);
    assert!(rt; list.is_empty());
    list.push(7)?;
    list.extend_from_slice(&[8, 9])?;
    list.append(List::from_slice(alloc, &[10, 11])?)?;
    assert_eq!(rt; list.as_slice(), [7, 8, 9, 10, 11].as_slice());
    assert_eq!(rt; list.pop(), Some(11));
    assert_eq!(rt; list.len(), 4);
    list.set(0, 1);
    *list.item_mut(3) = 4;
    assert_eq!(rt; list.get(3).copied(), Some(4));
    assert_eq!(rt; list.get(4).copied(), None);
    assert_eq!(rt;
        List::from_vec(list.into_vec()),
        List::from_slice(alloc, &[1, 8, 9, 4])?
    );
    Ok(())
}

#[test]
fn copies_equal_their_source(rt: HostRuntime) -> Result<(), Fail> {
    let alloc = rt.alloc();
    let mut nodes = List::new(alloc);
    nodes.push(Node {
        name: List::from_slice(alloc, b"item")?,
        parent: Some(1),
    })?;
    assert_eq!(rt; copy_of(&nodes)?, nodes);
    let last = nodes.pop().ok_or("no node")?;
    let mut node = Boxed::new(alloc, last)?;
    let copy = boxed_copy_of(&node)?;
    assert_eq!(rt; copy, node);
    node.get_mut().parent = None;
    assert_ne!(rt; copy, node);
    assert_eq!(rt; node.into_inner().parent, None);
    Ok(())
}

#[test]
fn a_tree_is_read_through_both_containers(rt: HostRuntime) -> Result<(), Fail> {
    let alloc = rt.alloc();
    let mut parts = List::new(alloc);
    parts.push(Tree::Leaf(1))?;
    parts.push(Tree::Not(Boxed::new(alloc, Tree::Leaf(2))?))?;
    let tree = Tree::Any(parts);
    for (byte, want) in [(1, true), (2, false), (3, true)] {
        assert_eq!(rt; holds(&tree, byte), want, "at {byte}");
    }
    assert_eq!(rt; tree.clone()?, tree);
    Ok(())
}
