ghost use Rattle.std.specs.Prelude.{◌≡◌, ◌+◌, ◌-◌, ◌<◌, ◌≤◌, ◌++◌, [], true, ◌&&◌, length, filter, None, Some, OnOk, IfOk, codes};
ghost use Rattle.doc_model.specs.declared.row.Kind.TheVariants.{Element};
ghost use Rattle.doc_model.specs.Axes.{is_node};
ghost use Rattle.doc_model.specs.Lawful.{IsJoined};
ghost use Rattle.doc_model.specs.NodeTests.{is_kind, meets};
ghost use Rattle.doc_model.specs.Relations.{is_some_of, numbers};
ghost use Rattle.doc_model.specs.Rows.{rows_of, row_at};
ghost use Rattle.doc_model.specs.Strip.{is_named, is_visible};
ghost use Rattle.doc_model.specs.View.{IsSeen, Moves, part_of};
ghost use Rattle.axis_walkers.specs.Offered.{IsMet, KnowsNothing, only_if, is_plain};

use crate::judged::{keep, known, no_types};
use doc_model::{Kind, NodeView, Test};
use lists::List;
use std::alloc::{AllocError, Global};
use std::collections::BTreeMap;

/// The rows of an axis that a walk has found so far.
#[derive(Drop)]
pub(crate) struct Selection {
    rows: List<u32>,
    // the types that were judged: a row of one of these is known without its name
    met: BTreeMap<u32, bool>,
}

impl Selection {
    pub(crate) fn new(alloc: Global) -> Selection
        ensures rows { result.rows ≡ [] }
        ensures met { KnowsNothing result.met }
    {
        Selection {
            rows: List::new(alloc),
            met: no_types(alloc),
        }
    }

    pub(crate) fn into_rows(self) -> List<u32>
        ensures { result ≡ self.rows }
    {
        let Selection { rows, met: _ } = self;
        rows
    }

    // Adds a row that is visible and on the axis, if it meets the test.
    pub(crate) fn offer<V: NodeView>(
        &mut self,
        view: &mut V,
        k: u32,
        principal: Kind,
        test: &Test,
    ) -> Result<(), AllocError>
        requires joined { IsJoined (V.sees view.old).steps k }
        requires seen { IsSeen (V.sees view.old) }
        requires met { IsMet (V.sees view.old) (meets principal test.now) self.old.met }
        ensures moves { Moves (V.sees view.old) (V.sees view.new) }
        ensures met { IsMet (V.sees view.new) (meets principal test.now) self.new.met }
        ensures rows { OnOk result (self.new.rows ≡ self.old.rows ++ only_if (meets principal test.now (row_at (rows_of (V.sees view.new).steps) k)) k) }
    {
        if meets(view, k, principal, test, &mut self.met)? {
            self.rows.push(k)?;
        }
        Ok(())
    }

    // Adds row n itself, if it is visible and meets the test on an axis of elements.
    pub(crate) fn offer_itself<V: NodeView>(
        &mut self,
        view: &mut V,
        n: u32,
        test: &Test,
    ) -> Result<(), AllocError>
        requires joined { IsJoined (V.sees view.old).steps n }
        requires fresh { KnowsNothing self.old.met }
        ensures moves { Moves (V.sees view.old) (V.sees view.new) }
        ensures met { IsMet (V.sees view.new) (meets Element test.now) self.new.met }
        ensures rows { OnOk result (self.new.rows ≡ self.old.rows ++ only_if (is_visible (V.sees view.new).rules (rows_of (V.sees view.new).steps) n && meets Element test.now (row_at (rows_of (V.sees view.new).steps) n)) n) }
    {
        if !view.shown(n) {
            return Ok(());
        }
        self.offer(view, n, Kind::Element, test)
    }

    // Adds a row, if it is visible, no attribute, and meets the test on an axis of elements.
    pub(crate) fn offer_plain<V: NodeView>(
        &mut self,
        view: &mut V,
        k: u32,
        test: &Test,
    ) -> Result<(), AllocError>
        requires joined { IsJoined (V.sees view.old).steps k }
        requires seen { IsSeen (V.sees view.old) }
        requires met { IsMet (V.sees view.old) (meets Element test.now) self.old.met }
        ensures moves { Moves (V.sees view.old) (V.sees view.new) }
        ensures met { IsMet (V.sees view.new) (meets Element test.now) self.new.met }
        ensures rows { OnOk result (self.new.rows ≡ self.old.rows ++ only_if (is_plain (V.sees view.new).rules (rows_of (V.sees view.new).steps) test.now k) k) }
    {
        if is_plain(view, k, test, &mut self.met)? {
            self.rows.push(k)?;
        }
        Ok(())
    }

    // Adds the rows from one number up to another that are visible, no attributes, and meet the test.
    pub(crate) fn offer_range<V: NodeView>(
        &mut self,
        view: &mut V,
        from: u32,
        to: u32,
        test: &Test,
    ) -> Result<(), AllocError>
        requires order { from ≤ to }
        requires within { to ≤ length (rows_of (V.sees view.old).steps) }
        requires seen { IsSeen (V.sees view.old) }
        requires met { IsMet (V.sees view.old) (meets Element test.now) self.old.met }
        ensures moves { Moves (V.sees view.old) (V.sees view.new) }
        ensures rows { OnOk result (self.new.rows ≡ self.old.rows ++ filter (is_plain (V.sees view.new).rules (rows_of (V.sees view.new).steps) test.now) (numbers from (to - from))) }
    {
        for k in from..to {
            self.offer_plain(view, k, test)?;
        }
        Ok(())
    }
}

// Whether the row is visible, no attribute, and meets the test on an axis of elements.
fn is_plain<V: NodeView>(
    view: &mut V,
    k: u32,
    test: &Test,
    met: &mut BTreeMap<u32, bool>,
) -> Result<bool, AllocError>
    requires joined { IsJoined (V.sees view.old).steps k }
    requires seen { IsSeen (V.sees view.old) }
    requires met { IsMet (V.sees view.old) (meets Element test.now) met.old }
    ensures moves { Moves (V.sees view.old) (V.sees view.new) }
    ensures met { IsMet (V.sees view.new) (meets Element test.now) met.new }
    ensures value { IfOk result (λ plain. plain ≡ is_plain (V.sees view.new).rules (rows_of (V.sees view.new).steps) test.now k) }
{
    let passes = meets(view, k, Kind::Element, test, met)?;
    if !passes {
        return Ok(false);
    }
    Ok(is_shown_node(view, k, test))
}

// Whether a row that meets the test is visible and no attribute. Asks no more than the test leaves open.
fn is_shown_node<V: NodeView>(view: &mut V, k: u32, test: &Test) -> bool
    requires joined { IsJoined (V.sees view.old).steps k }
    requires seen { IsSeen (V.sees view.old) }
    requires meets { meets Element test.now (row_at (rows_of (V.sees view.old).steps) k) ≡ true }
    ensures moves { Moves (V.sees view.old) (V.sees view.new) }
    ensures value { result ≡ (is_visible (V.sees view.new).rules (rows_of (V.sees view.new).steps) k && is_node (rows_of (V.sees view.new).steps) k) }
{
    match test {
        Test::Any => {
            if is_kind(Kind::Attribute, view.kind(k)) {
                return false;
            }
            view.shown(k)
        }
        Test::Kind(kind) => {
            if is_kind(Kind::Attribute, *kind) {
                return false;
            }
            view.shown(k)
        }
        _ => true,
    }
}

// Whether the row meets the test, where this is the principal kind of the axis.
fn meets<V: NodeView>(
    view: &mut V,
    k: u32,
    principal: Kind,
    test: &Test,
    met: &mut BTreeMap<u32, bool>,
) -> Result<bool, AllocError>
    requires joined { IsJoined (V.sees view.old).steps k }
    requires seen { IsSeen (V.sees view.old) }
    requires met { IsMet (V.sees view.old) (meets principal test.now) met.old }
    ensures moves { Moves (V.sees view.old) (V.sees view.new) }
    ensures met { IsMet (V.sees view.new) (meets principal test.now) met.new }
    ensures value { IfOk result (λ passes. passes ≡ meets principal test.now (row_at (rows_of (V.sees view.new).steps) k)) }
{
    match test {
        Test::Any => Ok(true),
        Test::Kind(kind) => Ok(is_kind(*kind, view.kind(k))),
        Test::AnyName => Ok(is_kind(principal, view.kind(k))),
        Test::Name { uri, local } => {
            is_named(
                view,
                k,
                principal,
                uri.as_slice(),
                Some(local.as_slice()),
                met,
            )
        }
        Test::InUri(uri) => is_named(view, k, principal, uri.as_slice(), None, met),
        Test::Target(target) => {
            is_named(
                view,
                k,
                Kind::Instruction,
                &[],
                Some(target.as_slice()),
                met,
            )
        }
    }
}

// Whether the row is of this kind and has this name. Compares the bytes of a type once.
fn is_named<V: NodeView>(
    view: &mut V,
    k: u32,
    kind: Kind,
    uri: &[u8],
    local: Option<&[u8]>,
    met: &mut BTreeMap<u32, bool>,
) -> Result<bool, AllocError>
    requires joined { IsJoined (V.sees view.old).steps k }
    requires seen { IsSeen (V.sees view.old) }
    requires met { IsMet (V.sees view.old) (λ row. is_named row uri.now (part_of local) && is_kind kind row.kind) met.old }
    ensures moves { Moves (V.sees view.old) (V.sees view.new) }
    ensures met { IsMet (V.sees view.new) (λ row. is_named row uri.now (part_of local.entry) && is_kind kind row.kind) met.new }
    ensures value { IfOk result (λ named. named ≡ (is_named (row_at (rows_of (V.sees view.new).steps) k) uri.now (part_of local.entry) && is_kind kind (row_at (rows_of (V.sees view.new).steps) k).kind)) }
{
    let id = view.type_id(k);
    if let Some(passes) = known(met, id) {
        return Ok(passes);
    }
    let passes = has_name(view, k, kind, uri, local);
    keep(met, id, passes)?;
    Ok(passes)
}

// Whether the row is of this kind and has this name, by its bytes.
fn has_name<V: NodeView>(view: &mut V, k: u32, kind: Kind, uri: &[u8], local: Option<&[u8]>) -> bool
    requires joined { IsJoined (V.sees view.old).steps k }
    ensures moves { Moves (V.sees view.old) (V.sees view.new) }
    ensures value { result ≡ (is_named (row_at (rows_of (V.sees view.new).steps) k) uri.now (part_of local.entry) && is_kind kind (row_at (rows_of (V.sees view.new).steps) k).kind) }
{
    if !is_kind(kind, view.kind(k)) {
        return false;
    }
    view.name_is(k, uri, local)
}

pub(crate) fn is_some(met: Option<u32>, id: u32) -> bool
    ensures { result ≡ is_some_of met id }
{
    match met {
        Some(known) => known == id,
        None => false,
    }
}

fn is_kind(wanted: Kind, kind: Kind) -> bool
    ensures { result ≡ is_kind wanted kind }
{
    match wanted {
        Kind::Root => matches!(kind, Kind::Root),
        Kind::Element => matches!(kind, Kind::Element),
        Kind::Attribute => matches!(kind, Kind::Attribute),
        Kind::Text => matches!(kind, Kind::Text),
        Kind::Instruction => matches!(kind, Kind::Instruction),
        Kind::Comment => matches!(kind, Kind::Comment),
    }
}
