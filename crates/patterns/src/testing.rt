//! Node tests as they are written (XPath 1.0, section 2.3), at a node.

ghost use Rattle.std.specs.Prelude.{◌≡◌, ◌&&◌, IfOk};
ghost use Rattle.doc_model.specs.Lawful.{IsJoined};
ghost use Rattle.doc_model.specs.NodeTests.{is_kind, meets};
ghost use Rattle.doc_model.specs.Rows.{rows_of, row_at};
ghost use Rattle.doc_model.specs.Strip.{is_named};
ghost use Rattle.doc_model.specs.View.{Moves, part_of};
ghost use Rattle.xpath_meaning.specs.Match as meaning;
ghost use Rattle.xpath_meaning.specs.Tests.{bound_uri, test_of};

use doc_model::{Kind, NodeView, Test};
use lists::List;
use std::alloc::{AllocError, Global};
use xpath_syntax::{AxisName, NameRef, TestExpr};

pub(crate) fn is_attribute_axis(axis: AxisName) -> bool
    ensures { result ≡ meaning.is_attribute_axis axis }
{
    matches!(axis, AxisName::Attribute)
}

// Whether node n is of the kind that the axis leads to, and meets the test. Takes no memory.
pub(crate) fn fits<V: NodeView>(view: &mut V, axis: AxisName, test: &TestExpr, n: u32) -> bool
    requires { IsJoined (V.sees view.old).steps n }
    ensures moves { Moves (V.sees view.old) (V.sees view.new) }
    ensures value { result ≡ meaning.fits (meaning.is_attribute_axis axis) (test_of test.now) (row_at (rows_of (V.sees view.new).steps) n) }
{
    let kind = view.kind(n);
    if is_attribute_axis(axis) {
        if !kind.is_attribute() {
            return false;
        }
        return meets(view, Kind::Attribute, test, n);
    }
    if kind.is_attribute() {
        return false;
    }
    meets(view, Kind::Element, test, n)
}

// Whether node n meets the test, where this is the principal kind of the axis.
fn meets<V: NodeView>(view: &mut V, principal: Kind, test: &TestExpr, n: u32) -> bool
    requires { IsJoined (V.sees view.old).steps n }
    ensures moves { Moves (V.sees view.old) (V.sees view.new) }
    ensures value { result ≡ meets principal (test_of test.now) (row_at (rows_of (V.sees view.new).steps) n) }
{
    match test {
        TestExpr::AnyName => is_kind(principal, view.kind(n)),
        TestExpr::InPrefix(name) => is_named(view, n, principal, uri_of(name), None),
        TestExpr::Name(name) => {
            is_named(
                view,
                n,
                principal,
                uri_of(name),
                Some(name.local.as_slice()),
            )
        }
        TestExpr::Node => {
            view.told();
            true
        }
        TestExpr::Text => is_kind(Kind::Text, view.kind(n)),
        TestExpr::Comment => is_kind(Kind::Comment, view.kind(n)),
        TestExpr::Instruction(None) => is_kind(Kind::Instruction, view.kind(n)),
        TestExpr::Instruction(Some(target)) => {
            is_named(view, n, Kind::Instruction, &[], Some(target.as_slice()))
        }
    }
}

// Whether the row is of this kind and has this name.
fn is_named<V: NodeView>(view: &mut V, n: u32, kind: Kind, uri: &[u8], local: Option<&[u8]>) -> bool
    requires joined { IsJoined (V.sees view.old).steps n }
    ensures moves { Moves (V.sees view.old) (V.sees view.new) }
    ensures value { result ≡ (is_named (row_at (rows_of (V.sees view.new).steps) n) uri.now (part_of local.entry) && is_kind kind (row_at (rows_of (V.sees view.new).steps) n).kind) }
{
    if !is_kind(kind, view.kind(n)) {
        return false;
    }
    view.name_is(n, uri, local)
}

// The URI that a name is bound to; empty where it is not bound.
fn uri_of(name: &NameRef) -> &[u8]
    ensures { result.now ≡ bound_uri name.now.uri }
{
    match &name.uri {
        Some(uri) => uri.as_slice(),
        None => &[],
    }
}

fn is_kind(wanted: Kind, kind: Kind) -> bool
    ensures { result ≡ is_kind wanted kind }
{
    match wanted {
        Kind::Root => matches!(kind, Kind::Root),
        Kind::Element => matches!(kind, Kind::Element),
        Kind::Attribute => matches!(kind, Kind::Attribute),
        Kind::Text => matches!(kind, Kind::Text),
        Kind::Instruction => matches!(kind, Kind::Instruction),
        Kind::Comment => matches!(kind, Kind::Comment),
    }
}

// The test, of which a walk along an axis takes a copy. Fails only for want of memory.
pub(crate) fn test_of(alloc: Global, test: &TestExpr) -> Result<Test, AllocError>
    ensures { IfOk result (λ made. made ≡ test_of test.now) }
{
    match test {
        TestExpr::AnyName => Ok(Test::AnyName),
        TestExpr::InPrefix(name) => Ok(Test::InUri(List::from_slice(alloc, uri_of(name))?)),
        TestExpr::Name(name) => Ok(Test::Name {
            uri: List::from_slice(alloc, uri_of(name))?,
            local: name.local.clone()?,
        }),
        TestExpr::Node => Ok(Test::Any),
        TestExpr::Text => Ok(Test::Kind(Kind::Text)),
        TestExpr::Comment => Ok(Test::Kind(Kind::Comment)),
        TestExpr::Instruction(None) => Ok(Test::Kind(Kind::Instruction)),
        TestExpr::Instruction(Some(target)) => Ok(Test::Target(target.clone()?)),
    }
}
