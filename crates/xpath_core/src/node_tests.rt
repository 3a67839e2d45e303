//! Axes and node tests of steps (XPath 1.0, sections 2.2 and 2.3).

ghost use Rattle.std.specs.Prelude.{◌≡◌, ◌&&◌, IfOk};
ghost use Rattle.doc_model.specs.declared.row.Kind.TheVariants.{Element};
ghost use Rattle.doc_model.specs.Lawful.{IsJoined};
ghost use Rattle.doc_model.specs.NodeTests.{is_kind, meets};
ghost use Rattle.doc_model.specs.Rows.{rows_of, row_at};
ghost use Rattle.doc_model.specs.Strip.{is_named};
ghost use Rattle.doc_model.specs.View.{IsSeen, Moves, part_of};
ghost use Rattle.key_sources.specs.Going.{SaysAlways};
ghost use Rattle.xpath_meaning.specs.Tests as tests;
ghost use Rattle.xpath_syntax.specs.declared.expression.StepExpr.{out-StepExpr};
ghost use Rattle.xpath_syntax.specs.declared.expression.TestExpr.TheVariants as written;

use doc_model::{Axis, Kind, NodeView, Test};
use lists::List;
use std::alloc::{AllocError, Global};
use xpath_meaning::EvalStop;
use xpath_nodes::axis_nodes;
use xpath_syntax::{AxisName, NameRef, StepExpr, TestExpr};

/// The node test of a step. Copies its names; fails only for want of memory.
pub(crate) fn test_of(alloc: Global, test: &TestExpr) -> Result<Test, AllocError>
    ensures { IfOk result (λ made. made ≡ tests.test_of test.now) }
{
    match test {
        TestExpr::AnyName => Ok(Test::AnyName),
        TestExpr::InPrefix(name) => Ok(Test::InUri(bound_uri(alloc, name)?)),
        TestExpr::Name(name) => named(alloc, name),
        TestExpr::Node => Ok(Test::Any),
        TestExpr::Text => Ok(Test::Kind(Kind::Text)),
        TestExpr::Comment => Ok(Test::Kind(Kind::Comment)),
        TestExpr::Instruction(None) => Ok(Test::Kind(Kind::Instruction)),
        TestExpr::Instruction(Some(target)) => {
            Ok(Test::Target(List::from_slice(alloc, target.as_slice())?))
        }
    }
}

fn named(alloc: Global, name: &NameRef) -> Result<Test, AllocError>
    ensures { IfOk result (λ made. made ≡ tests.test_of (written.Name name.now)) }
{
    let uri = bound_uri(alloc, name)?;
    let local = List::from_slice(alloc, name.local.as_slice())?;
    Ok(Test::Name { uri, local })
}

// The URI that a name is bound to; empty where it is not bound.
fn bound_uri(alloc: Global, name: &NameRef) -> Result<List<u8>, AllocError>
    ensures { IfOk result (λ uri. uri ≡ tests.bound_uri name.now.uri) }
{
    match &name.uri {
        Some(uri) => List::from_slice(alloc, uri.as_slice()),
        None => Ok(List::new(alloc)),
    }
}

fn axis_of(part: &StepExpr) -> Option<Axis>
    ensures { result ≡ tests.axis_of (out-StepExpr part.now).axis }
{
    match part.axis {
        AxisName::Itself => Some(Axis::Itself),
        AxisName::Child => Some(Axis::Child),
        AxisName::Parent => Some(Axis::Parent),
        AxisName::Descendant => Some(Axis::Descendant),
        AxisName::DescendantOrSelf => Some(Axis::DescendantOrSelf),
        AxisName::Ancestor => Some(Axis::Ancestor),
        AxisName::AncestorOrSelf => Some(Axis::AncestorOrSelf),
        AxisName::Following => Some(Axis::Following),
        AxisName::Preceding => Some(Axis::Preceding),
        AxisName::FollowingSibling => Some(Axis::FollowingSibling),
        AxisName::PrecedingSibling => Some(Axis::PrecedingSibling),
        AxisName::Attribute => Some(Axis::Attribute),
        AxisName::Namespace => None,
    }
}

/// The nodes on the axis of a step from node `n` that meet a test, in the order of the axis.
pub(crate) fn nodes_on<V: NodeView>(
    alloc: Global,
    view: &mut V,
    part: &StepExpr,
    test: &Test,
    n: u32,
) -> Result<List<u32>, EvalStop>
    requires { IsJoined (V.sees view.old).steps n }
    ensures moves { Moves (V.sees view.old) (V.sees view.new) }
    ensures answers { SaysAlways (λ R. tests.on_axis R (tests.axis_of (out-StepExpr part.now).axis) test.now n) (V.sees view.old) (V.sees view.new) result }
{
    match axis_of(part) {
        Some(axis) => axis_nodes(alloc, view, n, axis, test),
        None => {
            view.told();
            Ok(List::new(alloc))
        }
    }
}

/// Whether a child meets the node test of its step. Compares names by their bytes, and takes no memory.
pub(crate) fn meets<V: NodeView>(view: &mut V, k: u32, test: &Test) -> bool
    requires { IsJoined (V.sees view.old).steps k }
    ensures moves { Moves (V.sees view.old) (V.sees view.new) }
    ensures value { result ≡ meets Element test.now (row_at (rows_of (V.sees view.new).steps) k) }
{
    match test {
        Test::Any => {
            view.told();
            true
        }
        Test::Kind(kind) => is_kind(*kind, view.kind(k)),
        Test::AnyName => is_kind(Kind::Element, view.kind(k)),
        Test::Name { uri, local } => {
            has_name(
                view,
                k,
                Kind::Element,
                uri.as_slice(),
                Some(local.as_slice()),
            )
        }
        Test::InUri(uri) => has_name(view, k, Kind::Element, uri.as_slice(), None),
        Test::Target(target) => {
            has_name(view, k, Kind::Instruction, &[], Some(target.as_slice()))
        }
    }
}

// Whether the row is of this kind and has this name.
fn has_name<V: NodeView>(view: &mut V, k: u32, kind: Kind, uri: &[u8], local: Option<&[u8]>) -> bool
    requires { IsJoined (V.sees view.old).steps k }
    ensures moves { Moves (V.sees view.old) (V.sees view.new) }
    ensures value { result ≡ (is_named (row_at (rows_of (V.sees view.new).steps) k) uri.now (part_of local.entry) && is_kind kind (row_at (rows_of (V.sees view.new).steps) k).kind) }
{
    if !is_kind(kind, view.kind(k)) {
        return false;
    }
    view.name_is(k, uri, local)
}

fn is_kind(wanted: Kind, kind: Kind) -> bool
    ensures { result ≡ is_kind wanted kind }
{
    match wanted {
        Kind::Root => matches!(kind, Kind::Root),
        Kind::Element => matches!(kind, Kind::Element),
        Kind::Attribute => matches!(kind, Kind::Attribute),
        Kind::Text => matches!(kind, Kind::Text),
        Kind::Instruction => matches!(kind, Kind::Instruction),
        Kind::Comment => matches!(kind, Kind::Comment),
    }
}
