//! Nodes of a select, one by one.
ghost use Rattle.std.specs.Prelude.{◌≡◌, ◌+◌, ◌<◌, ◌^◌, false, true, length, None, Some, Ok, ⊤, IfOk, MatchOption};
ghost use Rattle.doc_laws.proofs.Growth.{Grows-trans};
ghost use Rattle.document_questions.specs.Following.{Begins, FollowNodes, Follows, given_in, next_in, select_in, walk_of};
ghost use Rattle.engine_questions.specs.Asking.{UnlessMemory};
ghost use Rattle.engine_questions.specs.Walks.{is_streamed, walk, walked};
ghost use Rattle.key_sources.specs.Going.{Says, Went};
ghost use Rattle.xpath_core.specs.Ready.{IsReady};
ghost use Rattle.xpath_laws.specs.Sound.{IsThere};
ghost use Rattle.xpath_meaning.specs.Readings.{values_of};

use crate::children::next_child;
use axis_walkers::ChildStream;
use doc_model::NodeView;
use engine_questions::ItemStream;
use key_sources::KeySource;
use std::alloc::{AllocError, Global};
use xpath_core::{PathStream, streams_stand};
use xpath_meaning::{Context, Env, EvalStop};
use xpath_syntax::Expr;

/// Nodes that are taken one by one: the items of a location path whose nodes may be taken so, or the visible children of
/// a node. It keeps where it stands, and goes on there as the document grows.
#[derive(Drop)]
pub struct Items<'s> {
    nodes: Nodes<'s>,
    context: Context,
    // how many were given
    taken: u32,
}

#[derive(Drop)]
pub(crate) enum Nodes<'s> {
    OfPath(PathStream<'s>),
    Children(ChildStream),
}

impl<'s> ItemStream for Items<'s> {
    ghost walks = { λ items. walk_of items };

    ghost follows = { λ items. Follows items };

    ghost goes_on = { λ items lookups values rules before later follows grows lawful. λ q more l. follows q (Grows-trans before later q grows more) l };

    fn taken(&self) -> u64 {
        u64::from(self.taken)
    }
}

impl<'s> Items<'s> {
    /// The items of a select at a context, where they may be taken one by one. Asks nothing of the document; fails only
    /// for want of memory.
    pub(crate) fn along(
        alloc: Global,
        select: &'s Expr,
        context: &Context,
    ) -> Result<Option<Items<'s>>, AllocError>
        ensures none { IfOk result (λ found. MatchOption found (is_streamed select.now ≡ false) (λ items. is_streamed select.now ≡ true)) }
        ensures walks { IfOk result (λ found. MatchOption found ⊤ (λ items. walk_of items ≡ walk (Some select.now) context.now 0)) }
        ensures begins { IfOk result (λ found. MatchOption found ⊤ (λ items. Begins items)) }
    {
        streams_stand();
        match select {
            Expr::Path(path) => {
                if !path.streams {
                    return Ok(None);
                }
                let stream = PathStream::start(alloc, path, context)?;
                Ok(Some(Items {
                    nodes: Nodes::OfPath(stream),
                    context: *context,
                    taken: 0,
                }))
            }
            Expr::Binary {
                op: _,
                left: _,
                right: _,
            } => Ok(None),
            Expr::Minus(_) => Ok(None),
            Expr::Literal(_) => Ok(None),
            Expr::Number(_) => Ok(None),
            Expr::Variable(_) => Ok(None),
            Expr::Call { name: _, args: _ } => Ok(None),
            Expr::Filter {
                primary: _,
                predicates: _,
                tail: _,
            } => Ok(None),
        }
    }

    /// The visible children of the context node.
    pub(crate) fn children_of(context: &Context) -> Items<'s>
        ensures walks { walk_of result ≡ walk None context.now 0 }
        ensures begins { Begins result }
    {
        Items {
            nodes: Nodes::Children(ChildStream::start(context.node)),
            context: *context,
            taken: 0,
        }
    }

    /// The next node; `None` only at the end. More than 4,294,967,295 nodes, which no table holds, end in want of memory.
    pub(crate) fn next<V: NodeView, K: KeySource<V>>(
        &mut self,
        alloc: Global,
        view: &mut V,
        keys: &mut K,
        env: &Env,
    ) -> Result<Option<u32>, EvalStop>
        requires ready { IsReady (V.sees view.old) (K.fits keys.old) (values_of env.now) self.old.context }
        requires follows { Follows self.old (K.made keys.old).lookups (values_of env.now) (V.sees view.old).rules (V.sees view.old).steps }
        ensures went { Went (V.sees view.old) (V.sees view.new) (K.made keys.old) (K.made keys.new) (K.fits keys.new) }
        ensures answers { Says (K.made keys.old).lookups (next_in (walk_of self.old) (values_of env.now)) (V.sees view.old) (V.sees view.new) result }
        ensures walks { UnlessMemory (walk_of self.new ≡ walked (walk_of self.old) result) result }
        ensures follows { UnlessMemory (Follows self.new (K.made keys.old).lookups (values_of env.now) (V.sees view.new).rules (V.sees view.new).steps) result }
        ensures there { IfOk result (λ item. MatchOption item ⊤ (λ n. IsThere (V.sees view.new).rules (V.sees view.new).steps n)) }
        ensures bounded { self.old.taken < 4294967296 }
    {
        if self.taken == u32::MAX {
            return Err(EvalStop::Memory);
        }
        let item = next_node(
            alloc,
            view,
            keys,
            &mut self.nodes,
            &self.context,
            self.taken,
            env,
        )?;
        self.taken = counted(self.taken, item);
        Ok(item)
    }
}

// How many were given, with this one if it is one.
fn counted(taken: u32, item: Option<u32>) -> u32
    requires { taken + 1 < 2 ^ 32 }
    ensures { result ≡ taken + length (given_in (Ok item)) }
{
    match item {
        Some(_) => taken + 1,
        None => taken,
    }
}

fn next_node<V: NodeView, K: KeySource<V>>(
    alloc: Global,
    view: &mut V,
    keys: &mut K,
    nodes: &mut Nodes,
    context: &Context,
    taken: u32,
    env: &Env,
) -> Result<Option<u32>, EvalStop>
    requires ready { IsReady (V.sees view.old) (K.fits keys.old) (values_of env.now) context.now }
    requires follows { FollowNodes nodes.old context.now taken (K.made keys.old).lookups (values_of env.now) (V.sees view.old).rules (V.sees view.old).steps }
    ensures went { Went (V.sees view.old) (V.sees view.new) (K.made keys.old) (K.made keys.new) (K.fits keys.new) }
    ensures answers { Says (K.made keys.old).lookups (next_in (walk (select_in nodes.old) context.now taken) (values_of env.now)) (V.sees view.old) (V.sees view.new) result }
    ensures select { select_in nodes.new ≡ select_in nodes.old }
    ensures follows { FollowNodes nodes.new context.now (taken + length (given_in result)) (K.made keys.old).lookups (values_of env.now) (V.sees view.new).rules (V.sees view.new).steps }
    ensures there { IfOk result (λ item. MatchOption item ⊤ (λ n. IsThere (V.sees view.new).rules (V.sees view.new).steps n)) }
{
    match nodes {
        Nodes::OfPath(stream) => stream.next(alloc, view, keys, env),
        Nodes::Children(stream) => next_child(view, stream, context.node, taken),
    }
}
