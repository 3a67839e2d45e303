//! A document that may still grow, as a stylesheet that runs asks it.
ghost use Rattle.std.specs.Prelude.{◌≡◌, ◌<◌, ℕ, length, true, false, None, Some, ⊤, IfOk, OnSome, MatchOption};
ghost use Rattle.doc_model.specs.Rows.{rows_of, row_at};
ghost use Rattle.doc_model.specs.declared.node_test.Test.TheVariants as test;
ghost use Rattle.doc_model.specs.declared.row.Axis.TheVariants as axis;
ghost use Rattle.document_questions.specs.Answering.{asked_by, seen_by};
ghost use Rattle.document_questions.specs.Following.{Follows, walk_of};
ghost use Rattle.engine_questions.specs.Asking.{IsNode, IsReady, Kept, Shows, UnlessMemory};
ghost use Rattle.engine_questions.specs.Shallow.{shallow_by};
ghost use Rattle.engine_questions.specs.Walks.{is_streamed, next_of, walk, walked};
ghost use Rattle.rule_choice.specs.Choice.{choice_of};
ghost use Rattle.rule_index.specs.Order.{IsIndexOf};
ghost use Rattle.xpath_laws.specs.Sound.{Each, IsThere, IsValue};
ghost use Rattle.xpath_meaning.specs.Evaluation.{evaluation_of, meant};
ghost use Rattle.xpath_meaning.specs.Meanings.{nodes_at, text_at, truth_at};
ghost use Rattle.xpath_meaning.specs.Readings.{values_of};

use crate::items::Items;
use doc_model::{Ask, Axis, Kind, NodeView, Test};
use engine_content::{begin, copy_node, name_of, own_value};
use engine_questions::{Questions, Shallow};
use key_sources::KeySource;
use lists::List;
use result_events::{Buffer, Events};
use rule_index::{RuleIndex, choose};
use sheet_ast::Sheet;
use std::alloc::{AllocError, Global};
use xpath_core::{eval, text, truth};
use xpath_meaning::{Context, Env, EvalStop};
use xpath_nodes::{axis_nodes, value_nodes};
use xpath_syntax::Expr;
use xpath_values::Value;

/// A view of a document, what finds nodes by keys and IDs, and the template rules of a stylesheet, for as long as a
/// stylesheet runs.
#[derive(Drop)]
pub struct Document<'d, V: NodeView, K: KeySource<V>> {
    view: &'d mut V,
    keys: &'d mut K,
    sheet: &'d Sheet,
    index: &'d RuleIndex,
    ghost indexed: { IsIndexOf sheet.now.rules index.now },
}

impl<'d, V: NodeView, K: KeySource<V>> Document<'d, V, K> {
    /// Lays a stylesheet and its index of rules over a view and a source of keys.
    pub fn on(
        view: &'d mut V,
        keys: &'d mut K,
        sheet: &'d Sheet,
        index: &'d RuleIndex,
    ) -> Document<'d, V, K>
        requires { IsIndexOf sheet.now.rules index.now }
        ensures same { (result.view.ghost_name ≡ view.entry.ghost_name) × (result.keys.ghost_name ≡ keys.entry.ghost_name) }
        ensures now { (result.view.now ≡ view.old) × (result.keys.now ≡ keys.old) × (result.sheet.now ≡ sheet.now) }
    {
        Document {
            view,
            keys,
            sheet,
            index,
        }
    }
}

impl<'s, 'd, V: NodeView, K: KeySource<V>> Questions<'s, Items<'s>> for Document<'d, V, K> {
    ghost Mark = { ℕ × V.Mark };

    ghost Source = { ℕ × K.Mark };

    ghost sees = { λ q. seen_by q.view.ghost_name (V.sees q.view.now) };

    ghost asked = { λ q. asked_by q.keys.ghost_name q.sheet.now.rules (K.made q.keys.now) };

    ghost fits = { λ q. K.fits q.keys.now };

    fn value(
        &mut self,
        alloc: Global,
        e: &Expr,
        context: &Context,
        env: &Env,
    ) -> Result<Value, EvalStop>
        requires { IsReady (seen_by self.old.view.ghost_name (V.sees self.old.view.now)) (K.fits self.old.keys.now) (values_of env.now) context.now }
        ensures kept { Kept (seen_by self.old.view.ghost_name (V.sees self.old.view.now)) (seen_by self.new.view.ghost_name (V.sees self.new.view.now)) (asked_by self.old.keys.ghost_name self.old.sheet.now.rules (K.made self.old.keys.now)) (asked_by self.new.keys.ghost_name self.new.sheet.now.rules (K.made self.new.keys.now)) (K.fits self.new.keys.now) }
        ensures answers { Shows (asked_by self.old.keys.ghost_name self.old.sheet.now.rules (K.made self.old.keys.now)).lookups (λ w. evaluation_of w.reading e.now (values_of env.now) context.now) (seen_by self.old.view.ghost_name (V.sees self.old.view.now)) (seen_by self.new.view.ghost_name (V.sees self.new.view.now)) result }
        ensures there { IfOk result (λ v. IsValue (IsThere (seen_by self.new.view.ghost_name (V.sees self.new.view.now)).rules (seen_by self.new.view.ghost_name (V.sees self.new.view.now)).steps) v) }
    {
        eval(alloc, self.view, self.keys, e, context, env)
    }

    fn text(
        &mut self,
        alloc: Global,
        e: &Expr,
        context: &Context,
        env: &Env,
    ) -> Result<List<u8>, EvalStop>
        requires { IsReady (seen_by self.old.view.ghost_name (V.sees self.old.view.now)) (K.fits self.old.keys.now) (values_of env.now) context.now }
        ensures kept { Kept (seen_by self.old.view.ghost_name (V.sees self.old.view.now)) (seen_by self.new.view.ghost_name (V.sees self.new.view.now)) (asked_by self.old.keys.ghost_name self.old.sheet.now.rules (K.made self.old.keys.now)) (asked_by self.new.keys.ghost_name self.new.sheet.now.rules (K.made self.new.keys.now)) (K.fits self.new.keys.now) }
        ensures answers { Shows (asked_by self.old.keys.ghost_name self.old.sheet.now.rules (K.made self.old.keys.now)).lookups (λ w. text_at (meant e.now) w.reading (values_of env.now) context.now) (seen_by self.old.view.ghost_name (V.sees self.old.view.now)) (seen_by self.new.view.ghost_name (V.sees self.new.view.now)) result }
    {
        text(alloc, self.view, self.keys, e, context, env)
    }

    fn truth(
        &mut self,
        alloc: Global,
        e: &Expr,
        context: &Context,
        env: &Env,
    ) -> Result<bool, EvalStop>
        requires { IsReady (seen_by self.old.view.ghost_name (V.sees self.old.view.now)) (K.fits self.old.keys.now) (values_of env.now) context.now }
        ensures kept { Kept (seen_by self.old.view.ghost_name (V.sees self.old.view.now)) (seen_by self.new.view.ghost_name (V.sees self.new.view.now)) (asked_by self.old.keys.ghost_name self.old.sheet.now.rules (K.made self.old.keys.now)) (asked_by self.new.keys.ghost_name self.new.sheet.now.rules (K.made self.new.keys.now)) (K.fits self.new.keys.now) }
        ensures answers { Shows (asked_by self.old.keys.ghost_name self.old.sheet.now.rules (K.made self.old.keys.now)).lookups (λ w. truth_at (meant e.now) w.reading (values_of env.now) context.now) (seen_by self.old.view.ghost_name (V.sees self.old.view.now)) (seen_by self.new.view.ghost_name (V.sees self.new.view.now)) result }
    {
        truth(alloc, self.view, self.keys, e, context, env)
    }

    fn nodes(
        &mut self,
        alloc: Global,
        e: &Expr,
        context: &Context,
        env: &Env,
    ) -> Result<List<u32>, EvalStop>
        requires { IsReady (seen_by self.old.view.ghost_name (V.sees self.old.view.now)) (K.fits self.old.keys.now) (values_of env.now) context.now }
        ensures kept { Kept (seen_by self.old.view.ghost_name (V.sees self.old.view.now)) (seen_by self.new.view.ghost_name (V.sees self.new.view.now)) (asked_by self.old.keys.ghost_name self.old.sheet.now.rules (K.made self.old.keys.now)) (asked_by self.new.keys.ghost_name self.new.sheet.now.rules (K.made self.new.keys.now)) (K.fits self.new.keys.now) }
        ensures answers { Shows (asked_by self.old.keys.ghost_name self.old.sheet.now.rules (K.made self.old.keys.now)).lookups (λ w. nodes_at (meant e.now) w.reading (values_of env.now) context.now) (seen_by self.old.view.ghost_name (V.sees self.old.view.now)) (seen_by self.new.view.ghost_name (V.sees self.new.view.now)) result }
        ensures there { IfOk result (λ nodes. Each (IsThere (seen_by self.new.view.ghost_name (V.sees self.new.view.now)).rules (seen_by self.new.view.ghost_name (V.sees self.new.view.now)).steps) nodes) }
        ensures bounded { IfOk result (λ nodes. length nodes < 4294967296) }
    {
        let value = eval(alloc, self.view, self.keys, e, context, env)?;
        value_nodes(value)
    }

    fn stream(
        &self,
        alloc: Global,
        select: &'s Expr,
        context: &Context,
        env: &Env,
    ) -> Result<Option<Items<'s>>, AllocError>
        requires { IsReady (seen_by self.now.view.ghost_name (V.sees self.now.view.now)) (K.fits self.now.keys.now) (values_of env.now) context.now }
        ensures none { IfOk result (λ found. MatchOption found (is_streamed select.now ≡ false) (λ stream. is_streamed select.now ≡ true)) }
        ensures walks { IfOk result (λ found. MatchOption found ⊤ (λ stream. walk_of stream ≡ walk (Some select.now) context.now 0)) }
        ensures follows { IfOk result (λ found. MatchOption found ⊤ (λ stream. Follows stream (asked_by self.now.keys.ghost_name self.now.sheet.now.rules (K.made self.now.keys.now)).lookups (values_of env.now) (seen_by self.now.view.ghost_name (V.sees self.now.view.now)).rules (seen_by self.now.view.ghost_name (V.sees self.now.view.now)).steps)) }
    {
        Items::along(alloc, select, context)
    }

    fn children(&self, context: &Context, env: &Env) -> Items<'s>
        requires { IsReady (seen_by self.now.view.ghost_name (V.sees self.now.view.now)) (K.fits self.now.keys.now) (values_of env.now) context.now }
        ensures walks { walk_of result ≡ walk None context.now 0 }
        ensures follows { Follows result (asked_by self.now.keys.ghost_name self.now.sheet.now.rules (K.made self.now.keys.now)).lookups (values_of env.now) (seen_by self.now.view.ghost_name (V.sees self.now.view.now)).rules (seen_by self.now.view.ghost_name (V.sees self.now.view.now)).steps }
    {
        Items::children_of(context)
    }

    fn next(
        &mut self,
        alloc: Global,
        stream: &mut Items<'s>,
        env: &Env,
    ) -> Result<Option<u32>, EvalStop>
        requires ready { IsReady (seen_by self.old.view.ghost_name (V.sees self.old.view.now)) (K.fits self.old.keys.now) (values_of env.now) (walk_of stream.old).context }
        requires follows { Follows stream.old (asked_by self.old.keys.ghost_name self.old.sheet.now.rules (K.made self.old.keys.now)).lookups (values_of env.now) (seen_by self.old.view.ghost_name (V.sees self.old.view.now)).rules (seen_by self.old.view.ghost_name (V.sees self.old.view.now)).steps }
        ensures kept { Kept (seen_by self.old.view.ghost_name (V.sees self.old.view.now)) (seen_by self.new.view.ghost_name (V.sees self.new.view.now)) (asked_by self.old.keys.ghost_name self.old.sheet.now.rules (K.made self.old.keys.now)) (asked_by self.new.keys.ghost_name self.new.sheet.now.rules (K.made self.new.keys.now)) (K.fits self.new.keys.now) }
        ensures answers { Shows (asked_by self.old.keys.ghost_name self.old.sheet.now.rules (K.made self.old.keys.now)).lookups (next_of (walk_of stream.old) (values_of env.now)) (seen_by self.old.view.ghost_name (V.sees self.old.view.now)) (seen_by self.new.view.ghost_name (V.sees self.new.view.now)) result }
        ensures walks { UnlessMemory (walk_of stream.new ≡ walked (walk_of stream.old) result) result }
        ensures follows { UnlessMemory (Follows stream.new (asked_by self.old.keys.ghost_name self.old.sheet.now.rules (K.made self.old.keys.now)).lookups (values_of env.now) (seen_by self.new.view.ghost_name (V.sees self.new.view.now)).rules (seen_by self.new.view.ghost_name (V.sees self.new.view.now)).steps) result }
        ensures there { IfOk result (λ item. MatchOption item ⊤ (λ n. IsThere (seen_by self.new.view.ghost_name (V.sees self.new.view.now)).rules (seen_by self.new.view.ghost_name (V.sees self.new.view.now)).steps n)) }
        ensures bounded { IfOk result (λ item. OnSome item ((walk_of stream.old).taken < 4294967296)) }
    {
        stream.next(alloc, self.view, self.keys, env)
    }

    fn all_children(&mut self, alloc: Global, n: u32) -> Result<List<u32>, EvalStop>
        requires { IsNode (seen_by self.old.view.ghost_name (V.sees self.old.view.now)) (K.fits self.old.keys.now) n }
        ensures kept { Kept (seen_by self.old.view.ghost_name (V.sees self.old.view.now)) (seen_by self.new.view.ghost_name (V.sees self.new.view.now)) (asked_by self.old.keys.ghost_name self.old.sheet.now.rules (K.made self.old.keys.now)) (asked_by self.new.keys.ghost_name self.new.sheet.now.rules (K.made self.new.keys.now)) (K.fits self.new.keys.now) }
        ensures answers { Shows (asked_by self.old.keys.ghost_name self.old.sheet.now.rules (K.made self.old.keys.now)).lookups (λ w. w.reading.axis axis.Child test.Any n) (seen_by self.old.view.ghost_name (V.sees self.old.view.now)) (seen_by self.new.view.ghost_name (V.sees self.new.view.now)) result }
        ensures there { IfOk result (λ nodes. Each (IsThere (seen_by self.new.view.ghost_name (V.sees self.new.view.now)).rules (seen_by self.new.view.ghost_name (V.sees self.new.view.now)).steps) nodes) }
        ensures bounded { IfOk result (λ nodes. length nodes < 4294967296) }
    {
        axis_nodes(alloc, self.view, n, Axis::Child, &Test::Any)
    }

    fn choose(&mut self, alloc: Global, mode: u32, n: u32) -> Result<Option<u32>, EvalStop>
        requires { IsNode (seen_by self.old.view.ghost_name (V.sees self.old.view.now)) (K.fits self.old.keys.now) n }
        ensures kept { Kept (seen_by self.old.view.ghost_name (V.sees self.old.view.now)) (seen_by self.new.view.ghost_name (V.sees self.new.view.now)) (asked_by self.old.keys.ghost_name self.old.sheet.now.rules (K.made self.old.keys.now)) (asked_by self.new.keys.ghost_name self.new.sheet.now.rules (K.made self.new.keys.now)) (K.fits self.new.keys.now) }
        ensures answers { Shows (asked_by self.old.keys.ghost_name self.old.sheet.now.rules (K.made self.old.keys.now)).lookups (λ w. choice_of w.reading (asked_by self.old.keys.ghost_name self.old.sheet.now.rules (K.made self.old.keys.now)).rules mode n) (seen_by self.old.view.ghost_name (V.sees self.old.view.now)) (seen_by self.new.view.ghost_name (V.sees self.new.view.now)) result }
    {
        choose(alloc, self.view, self.keys, self.index, self.sheet, mode, n)
    }

    fn kind(&mut self, n: u32) -> Kind
        requires { IsNode (seen_by self.old.view.ghost_name (V.sees self.old.view.now)) (K.fits self.old.keys.now) n }
        ensures kept { Kept (seen_by self.old.view.ghost_name (V.sees self.old.view.now)) (seen_by self.new.view.ghost_name (V.sees self.new.view.now)) (asked_by self.old.keys.ghost_name self.old.sheet.now.rules (K.made self.old.keys.now)) (asked_by self.new.keys.ghost_name self.new.sheet.now.rules (K.made self.new.keys.now)) (K.fits self.new.keys.now) }
        ensures value { result ≡ (row_at (rows_of (seen_by self.new.view.ghost_name (V.sees self.new.view.now)).steps) n).kind }
    {
        self.view.kind(n)
    }

    fn own_value(&mut self, alloc: Global, n: u32) -> Result<List<u8>, AllocError>
        requires { IsNode (seen_by self.old.view.ghost_name (V.sees self.old.view.now)) (K.fits self.old.keys.now) n }
        ensures kept { Kept (seen_by self.old.view.ghost_name (V.sees self.old.view.now)) (seen_by self.new.view.ghost_name (V.sees self.new.view.now)) (asked_by self.old.keys.ghost_name self.old.sheet.now.rules (K.made self.old.keys.now)) (asked_by self.new.keys.ghost_name self.new.sheet.now.rules (K.made self.new.keys.now)) (K.fits self.new.keys.now) }
        ensures value { IfOk result (λ value. value ≡ (row_at (rows_of (seen_by self.new.view.ghost_name (V.sees self.new.view.now)).steps) n).value) }
    {
        own_value(alloc, self.view, n)
    }

    fn shallow(&mut self, alloc: Global, n: u32) -> Result<Shallow, AllocError>
        requires { IsNode (seen_by self.old.view.ghost_name (V.sees self.old.view.now)) (K.fits self.old.keys.now) n }
        ensures kept { Kept (seen_by self.old.view.ghost_name (V.sees self.old.view.now)) (seen_by self.new.view.ghost_name (V.sees self.new.view.now)) (asked_by self.old.keys.ghost_name self.old.sheet.now.rules (K.made self.old.keys.now)) (asked_by self.new.keys.ghost_name self.new.sheet.now.rules (K.made self.new.keys.now)) (K.fits self.new.keys.now) }
        ensures value { IfOk result (λ copy. copy ≡ shallow_by (row_at (rows_of (seen_by self.new.view.ghost_name (V.sees self.new.view.now)).steps) n).kind (row_at (rows_of (seen_by self.new.view.ghost_name (V.sees self.new.view.now)).steps) n)) }
    {
        let kind = self.view.kind(n);
        match kind {
            Kind::Root => Ok(Shallow::Content),
            Kind::Element => Ok(Shallow::Around(name_of(alloc, self.view, n)?)),
            Kind::Attribute | Kind::Text | Kind::Instruction | Kind::Comment => {
                let mut made = Buffer::start(alloc)?;
                begin(alloc, self.view, n, kind, &mut made)?;
                Ok(Shallow::Alone(made.into_events()))
            }
        }
    }

    fn copy(&mut self, alloc: Global, n: u32) -> Result<Events, EvalStop>
        requires { IsNode (seen_by self.old.view.ghost_name (V.sees self.old.view.now)) (K.fits self.old.keys.now) n }
        ensures kept { Kept (seen_by self.old.view.ghost_name (V.sees self.old.view.now)) (seen_by self.new.view.ghost_name (V.sees self.new.view.now)) (asked_by self.old.keys.ghost_name self.old.sheet.now.rules (K.made self.old.keys.now)) (asked_by self.new.keys.ghost_name self.new.sheet.now.rules (K.made self.new.keys.now)) (K.fits self.new.keys.now) }
        ensures answers { Shows (asked_by self.old.keys.ghost_name self.old.sheet.now.rules (K.made self.old.keys.now)).lookups (λ w. w.copy n) (seen_by self.old.view.ghost_name (V.sees self.old.view.now)) (seen_by self.new.view.ghost_name (V.sees self.new.view.now)) result }
    {
        let mut made = Buffer::start(alloc)?;
        match copy_node(alloc, self.view, n, &mut made) {
            Ok(()) => Ok(made.into_events()),
            Err(Ask::NotYet(row)) => Err(EvalStop::NotYet(row)),
            Err(Ask::Memory) => Err(EvalStop::Memory),
        }
    }
}
