ghost use Rattle.std.specs.Prelude.{◌≡◌, ◌<◌, List, length, true, false, None, Some, ⊤, IfOk, OnSome, MatchOption};
ghost use Rattle.doc_model.specs.declared.node_test.Test.TheVariants as test;
ghost use Rattle.doc_model.specs.declared.row.Axis.TheVariants as axis;
ghost use Rattle.doc_model.specs.declared.step.Step.{Step};
ghost use Rattle.doc_model.specs.declared.strip_rule.StripRule.{StripRule};
ghost use Rattle.doc_model.specs.Rows.{rows_of, row_at};
ghost use Rattle.doc_model.specs.View.{Seen};
ghost use Rattle.engine_questions.specs.Asking.{Asked, IsNode, IsReady, Kept, Shows, UnlessMemory};
ghost use Rattle.engine_questions.specs.Shallow.{shallow_by};
ghost use Rattle.engine_questions.specs.Walks.{is_streamed, next_of, walk, walked};
ghost use Rattle.rule_choice.specs.Choice.{choice_of};
ghost use Rattle.xpath_laws.specs.Sound.{Each, IsThere, IsValue};
ghost use Rattle.xpath_meaning.specs.Evaluation.{evaluation_of, meant};
ghost use Rattle.xpath_meaning.specs.Meanings.{nodes_at, text_at, truth_at};
ghost use Rattle.xpath_meaning.specs.Readings.{values_of};

use crate::item_stream::ItemStream;
use crate::shallow::Shallow;
use doc_model::Kind;
use lists::List;
use result_events::Events;
use std::alloc::{AllocError, Global};
use xpath_meaning::{Context, Env, EvalStop};
use xpath_syntax::Expr;
use xpath_values::Value;

/// What a stylesheet that runs asks of a document that may still grow: values of expressions, nodes of selects, rules,
/// and the nodes themselves. `'s` is the borrow of the stylesheet, and `S` a stream of nodes.
///
/// A value and a fault are those at the end of the call, and so at every growth; `NotYet` names a row that must be shut
/// first and at a step of the call was open. After want of memory nothing is said.
pub trait Questions<'s, S: ItemStream> {
    /// What tells the borrow that the view stands on.
    ghost Mark: { Type 0 };

    /// What tells the other borrows.
    ghost Source: { Type 0 };

    /// What was seen.
    ghost sees: { Self → Seen Mark };

    /// By what nodes can be found, and the template rules.
    ghost asked: { Self → Asked Source };

    /// What is kept beside the view stands for these steps under these strip rules.
    ghost fits: { Self → List StripRule → List Step → Type 0 };

    /// The value of an expression.
    fn value(
        &mut self,
        alloc: Global,
        e: &Expr,
        context: &Context,
        env: &Env,
    ) -> Result<Value, EvalStop>
        requires { IsReady (sees self.old) (fits self.old) (values_of env.now) context.now }
        ensures kept { Kept (sees self.old) (sees self.new) (asked self.old) (asked self.new) (fits self.new) }
        ensures answers { Shows (asked self.old).lookups (λ w. evaluation_of w.reading e.now (values_of env.now) context.now) (sees self.old) (sees self.new) result }
        ensures there { IfOk result (λ v. IsValue (IsThere (sees self.new).rules (sees self.new).steps) v) };

    /// An expression as a string. Of a path whose nodes may be taken one by one only the first is looked for.
    fn text(
        &mut self,
        alloc: Global,
        e: &Expr,
        context: &Context,
        env: &Env,
    ) -> Result<List<u8>, EvalStop>
        requires { IsReady (sees self.old) (fits self.old) (values_of env.now) context.now }
        ensures kept { Kept (sees self.old) (sees self.new) (asked self.old) (asked self.new) (fits self.new) }
        ensures answers { Shows (asked self.old).lookups (λ w. text_at (meant e.now) w.reading (values_of env.now) context.now) (sees self.old) (sees self.new) result };

    /// An expression as a boolean. Of a path whose nodes may be taken one by one only the first is looked for.
    fn truth(
        &mut self,
        alloc: Global,
        e: &Expr,
        context: &Context,
        env: &Env,
    ) -> Result<bool, EvalStop>
        requires { IsReady (sees self.old) (fits self.old) (values_of env.now) context.now }
        ensures kept { Kept (sees self.old) (sees self.new) (asked self.old) (asked self.new) (fits self.new) }
        ensures answers { Shows (asked self.old).lookups (λ w. truth_at (meant e.now) w.reading (values_of env.now) context.now) (sees self.old) (sees self.new) result };

    /// The nodes of an expression, in document order. There are fewer than 4,294,967,296, as there are rows.
    fn nodes(
        &mut self,
        alloc: Global,
        e: &Expr,
        context: &Context,
        env: &Env,
    ) -> Result<List<u32>, EvalStop>
        requires { IsReady (sees self.old) (fits self.old) (values_of env.now) context.now }
        ensures kept { Kept (sees self.old) (sees self.new) (asked self.old) (asked self.new) (fits self.new) }
        ensures answers { Shows (asked self.old).lookups (λ w. nodes_at (meant e.now) w.reading (values_of env.now) context.now) (sees self.old) (sees self.new) result }
        ensures there { IfOk result (λ nodes. Each (IsThere (sees self.new).rules (sees self.new).steps) nodes) }
        ensures bounded { IfOk result (λ nodes. length nodes < 4294967296) };

    /// A stream over the nodes of a select, where they may be taken one by one. Asks nothing of the document; fails only
    /// for want of memory.
    fn stream(
        &self,
        alloc: Global,
        select: &'s Expr,
        context: &Context,
        env: &Env,
    ) -> Result<Option<S>, AllocError>
        requires { IsReady (sees self.now) (fits self.now) (values_of env.now) context.now }
        ensures none { IfOk result (λ found. MatchOption found (is_streamed select.now ≡ false) (λ stream. is_streamed select.now ≡ true)) }
        ensures walks { IfOk result (λ found. MatchOption found ⊤ (λ stream. S.walks stream ≡ walk (Some select.now) context.now 0)) }
        ensures follows { IfOk result (λ found. MatchOption found ⊤ (λ stream. S.follows stream (asked self.now).lookups (values_of env.now) (sees self.now).rules (sees self.now).steps)) };

    /// A stream over the visible children of the context node.
    fn children(&self, context: &Context, env: &Env) -> S
        requires { IsReady (sees self.now) (fits self.now) (values_of env.now) context.now }
        ensures walks { S.walks result ≡ walk None context.now 0 }
        ensures follows { S.follows result (asked self.now).lookups (values_of env.now) (sees self.now).rules (sees self.now).steps };

    /// The next node of a stream; `None` only at its end. There are fewer than 4,294,967,296, as there are rows. The
    /// values of the variables are those that the stream began with.
    fn next(&mut self, alloc: Global, stream: &mut S, env: &Env) -> Result<Option<u32>, EvalStop>
        requires ready { IsReady (sees self.old) (fits self.old) (values_of env.now) (S.walks stream.old).context }
        requires follows { S.follows stream.old (asked self.old).lookups (values_of env.now) (sees self.old).rules (sees self.old).steps }
        ensures kept { Kept (sees self.old) (sees self.new) (asked self.old) (asked self.new) (fits self.new) }
        ensures answers { Shows (asked self.old).lookups (next_of (S.walks stream.old) (values_of env.now)) (sees self.old) (sees self.new) result }
        ensures walks { UnlessMemory (S.walks stream.new ≡ walked (S.walks stream.old) result) result }
        ensures follows { UnlessMemory (S.follows stream.new (asked self.old).lookups (values_of env.now) (sees self.new).rules (sees self.new).steps) result }
        ensures there { IfOk result (λ item. MatchOption item ⊤ (λ n. IsThere (sees self.new).rules (sees self.new).steps n)) }
        ensures bounded { IfOk result (λ item. OnSome item ((S.walks stream.old).taken < 4294967296)) };

    /// All visible children of a node, once it is shut. There are fewer than 4,294,967,296, as there are rows.
    fn all_children(&mut self, alloc: Global, n: u32) -> Result<List<u32>, EvalStop>
        requires { IsNode (sees self.old) (fits self.old) n }
        ensures kept { Kept (sees self.old) (sees self.new) (asked self.old) (asked self.new) (fits self.new) }
        ensures answers { Shows (asked self.old).lookups (λ w. w.reading.axis axis.Child test.Any n) (sees self.old) (sees self.new) result }
        ensures there { IfOk result (λ nodes. Each (IsThere (sees self.new).rules (sees self.new).steps) nodes) }
        ensures bounded { IfOk result (λ nodes. length nodes < 4294967296) };

    /// The place of the rule that a node has in a mode; none for the built-in rule.
    fn choose(&mut self, alloc: Global, mode: u32, n: u32) -> Result<Option<u32>, EvalStop>
        requires { IsNode (sees self.old) (fits self.old) n }
        ensures kept { Kept (sees self.old) (sees self.new) (asked self.old) (asked self.new) (fits self.new) }
        ensures answers { Shows (asked self.old).lookups (λ w. choice_of w.reading (asked self.old).rules mode n) (sees self.old) (sees self.new) result };

    /// The kind of a node.
    fn kind(&mut self, n: u32) -> Kind
        requires { IsNode (sees self.old) (fits self.old) n }
        ensures kept { Kept (sees self.old) (sees self.new) (asked self.old) (asked self.new) (fits self.new) }
        ensures value { result ≡ (row_at (rows_of (sees self.new).steps) n).kind };

    /// The node's own value: the string-value of a text and of an attribute. Fails only for want of memory.
    fn own_value(&mut self, alloc: Global, n: u32) -> Result<List<u8>, AllocError>
        requires { IsNode (sees self.old) (fits self.old) n }
        ensures kept { Kept (sees self.old) (sees self.new) (asked self.old) (asked self.new) (fits self.new) }
        ensures value { IfOk result (λ value. value ≡ (row_at (rows_of (sees self.new).steps) n).value) };

    /// What xsl:copy makes of a node, beside its content. Fails only for want of memory.
    fn shallow(&mut self, alloc: Global, n: u32) -> Result<Shallow, AllocError>
        requires { IsNode (sees self.old) (fits self.old) n }
        ensures kept { Kept (sees self.old) (sees self.new) (asked self.old) (asked self.new) (fits self.new) }
        ensures value { IfOk result (λ copy. copy ≡ shallow_by (row_at (rows_of (sees self.new).steps) n).kind (row_at (rows_of (sees self.new).steps) n)) };

    /// The copy of a node, once it is shut.
    fn copy(&mut self, alloc: Global, n: u32) -> Result<Events, EvalStop>
        requires { IsNode (sees self.old) (fits self.old) n }
        ensures kept { Kept (sees self.old) (sees self.new) (asked self.old) (asked self.new) (fits self.new) }
        ensures answers { Shows (asked self.old).lookups (λ w. w.copy n) (sees self.old) (sees self.new) result };
}
