//! The items of a location path one by one, also over a document that still grows.

ghost use Rattle.std.specs.Prelude.{◌≡◌, ◌+◌, ◌<◌, ◌^◌, ℕ, suc, List, [], ◌∷◌, length, Ok, Some, IfOk};
ghost use Rattle.doc_model.specs.declared.step.Step.{Step};
ghost use Rattle.doc_model.specs.declared.strip_rule.StripRule.{StripRule};
ghost use Rattle.doc_model.specs.Answers.{Known, Stays};
ghost use Rattle.doc_model.specs.Lawful.{Grows, IsLawful};
ghost use Rattle.key_sources.specs.Going.{Lookups, Says, Went};
ghost use Rattle.xpath_core.specs.Left.{IsStarted, IsStreaming, Took, behind_first, context_of, given_of, item_behind, path_of, taken_in};
ghost use Rattle.xpath_core.specs.Ready.{IsReady};
ghost use Rattle.xpath_laws.specs.Sound.{IsThere};
ghost use Rattle.xpath_meaning.specs.declared.context.Context.{Context};
ghost use Rattle.xpath_core.specs.declared.path_stream.PathStream.{PathStream};
ghost use Rattle.xpath_meaning.specs.Evaluation.{meant_path, path_items_of};
ghost use Rattle.xpath_meaning.specs.Reading.{Reading, Extends};
ghost use Rattle.xpath_meaning.specs.Readings.{values_of};
ghost use Rattle.xpath_meaning.specs.Steps.{start_of};
ghost use Rattle.xpath_meaning.specs.Streams.{all_of, then_stream};
ghost use Rattle.xpath_syntax.specs.declared.expression.Path.{Path};
ghost use Rattle.xpath_values.specs.declared.value.Value.{Value};

use crate::evaluation::next_item;
use crate::levels::Place;
use crate::places::start_of;
use doc_model::NodeView;
use key_sources::KeySource;
use std::alloc::{AllocError, Global};
use xpath_meaning::{Context, Env, EvalStop};
use xpath_syntax::Path;

/// The items of a location path of child steps, one by one and depth first (XPath 1.0, section 2). What lies behind a node
/// that passes its predicates comes before the next one is looked at. A position counts the nodes that came to the
/// predicate so far; a size is not known.
///
/// A stream stands for what was seen and for each growth of it: what it still gives is the items behind those that it has
/// given. So one that had to stop goes on where it stood, and counts nothing twice.
#[derive(Drop)]
pub struct PathStream<'p> {
    path: &'p Path,
    context: Context,
    place: Place,
    // how many items were given
    given: u32,
}

impl<'p> PathStream<'p> {
    /// A stream that has given nothing. Makes the node test of each step; fails only for want of memory.
    pub fn start(alloc: Global, path: &'p Path, ctx: &Context) -> Result<PathStream<'p>, AllocError>
        ensures { IfOk result (λ stream. IsStarted path.now ctx.now stream) }
    {
        let place = Place::start(alloc, path.parts.as_slice(), start_of(path, ctx))?;
        Ok(PathStream {
            path,
            context: *ctx,
            place,
            given: 0,
        })
    }

    /// The next item; `None` only at the end. `NotYet` names a row that must be shut first and at a step of the call was
    /// not; a fault is the path's first. What stops leaves the stream as it stands, and asked again it goes on there. Costs
    /// what is looked at behind the item that was given last. More than 4,294,967,295 items, which no table holds, end in
    /// want of memory.
    pub fn next<V: NodeView, K: KeySource<V>>(
        &mut self,
        alloc: Global,
        view: &mut V,
        keys: &mut K,
        env: &Env,
    ) -> Result<Option<u32>, EvalStop>
        requires ready { IsReady (V.sees view.old) (K.fits keys.old) (values_of env.now) (context_of self.old) }
        requires stands { IsStreaming (K.made keys.old).lookups (V.sees view.old).rules (V.sees view.old).steps (values_of env.now) self.old }
        ensures went { Went (V.sees view.old) (V.sees view.new) (K.made keys.old) (K.made keys.new) (K.fits keys.new) }
        ensures answers { Says (K.made keys.old).lookups (λ R. item_behind R (path_of self.old) (given_of self.old) (values_of env.now) (context_of self.old)) (V.sees view.old) (V.sees view.new) result }
        ensures took { Took self.old self.new result }
        ensures stands { IsStreaming (K.made keys.old).lookups (V.sees view.new).rules (V.sees view.new).steps (values_of env.now) self.new }
    {
        if self.given == u32::MAX {
            return Err(EvalStop::Memory);
        }
        let parts = self.path.parts.as_slice();
        let item = next_item(
            alloc,
            view,
            keys,
            parts,
            &mut self.place,
            &self.context,
            env,
        )?;
        self.given = counted(self.given, item);
        Ok(item)
    }
}

// How many items were given, with this one if it is one.
fn counted(given: u32, item: Option<u32>) -> u32
    requires { given + 1 < 2 ^ 32 }
    ensures { result ≡ given + length (taken_in (Ok item)) }
{
    match item {
        Some(_) => given + 1,
        None => given,
    }
}

/// A stream stands at first, and where it stands it does so at every lawful growth.
pub fn streams_stand()
    ensures begins { (lookups : Lookups) (rules : List StripRule) (steps : List Step) (values : List Value) (path : Path) (c : Context) (stream : PathStream) → IsStarted path c stream → IsThere rules steps (start_of (meant_path path) c) → IsStreaming lookups rules steps values stream }
    ensures stays { (lookups : Lookups) (rules : List StripRule) (before later : List Step) (values : List Value) (stream : PathStream) → IsStreaming lookups rules before values stream → Grows before later → IsLawful later → IsStreaming lookups rules later values stream }
{}

/// An item that a path has behind so many stays, and the items behind it come after it.
pub fn items_behind_stay()
    ensures stay { (before later : Reading) (path : Path) (given : ℕ) (values : List Value) (c : Context) → Extends before later → Stays (item_behind before path given values c) (item_behind later path given values c) }
    ensures rest { (R : Reading) (path : Path) (given n : ℕ) (values : List Value) (c : Context) → item_behind R path given values c ≡ Known (Some n) → behind_first given (path_items_of R path values c) ≡ then_stream (all_of (n ∷ [])) (behind_first (suc given) (path_items_of R path values c)) }
{}
