//! One step of a pattern at a node.

ghost use Rattle.std.specs.Prelude.{◌≡◌, ◌<◌, ◌≤◌, suc, length, slice_get, Some, Ok, IfOk, IfSome};
ghost use Rattle.doc_model.specs.View.{Moves};
ghost use Rattle.key_sources.specs.Going.{Says, SaysAlways, Stands, Went};
ghost use Rattle.patterns.specs.Places.{PlaceIsThere, TurnIsThere, TurnIsBefore};
ghost use Rattle.patterns.specs.Trials.{steps_left, met_if, turn_of, turn_behind};
ghost use Rattle.xpath_laws.specs.Sound.{IsThere};
ghost use Rattle.xpath_meaning.specs.Match.{match_step, fits_below, is_step_to};

use crate::siblings::passes_all;
use crate::starting::starts;
use crate::testing::fits;
use crate::trials::{Place, Turn};
use doc_model::NodeView;
use key_sources::KeySource;
use std::alloc::Global;
use xpath_meaning::EvalStop;
use xpath_syntax::{PatternPath, PatternStep};

// What the last of the steps that are left comes to; None, where the pattern is met.
pub(crate) fn turn<V: NodeView, K: KeySource<V>>(
    alloc: Global,
    view: &mut V,
    keys: &mut K,
    path: &PatternPath,
    at: Place,
) -> Result<Option<Turn>, EvalStop>
    requires stands { Stands (V.sees view.old) (K.fits keys.old) }
    requires there { PlaceIsThere (V.sees view.old) at }
    requires within { at.steps ≤ length path.now.parts }
    ensures went { Went (V.sees view.old) (V.sees view.new) (K.made keys.old) (K.made keys.new) (K.fits keys.new) }
    ensures answers { Says (K.made keys.old).lookups (λ R. turn_of R path.now.start (steps_left path.now.parts at.steps) at.node) (V.sees view.old) (V.sees view.new) result }
    ensures there { IfOk result (λ turn. IfSome turn (TurnIsThere (V.sees view.new))) }
    ensures before { IfOk result (λ turn. IfSome turn (TurnIsBefore at.steps)) }
{
    if at.steps == 0 {
        let met = starts(alloc, view, keys, &path.start, at.node)?;
        return Ok(met_if(met));
    }
    step_turn(alloc, view, keys, path, at)
}

// The same, where a step is left.
fn step_turn<V: NodeView, K: KeySource<V>>(
    alloc: Global,
    view: &mut V,
    keys: &mut K,
    path: &PatternPath,
    at: Place,
) -> Result<Option<Turn>, EvalStop>
    requires stands { Stands (V.sees view.old) (K.fits keys.old) }
    requires there { PlaceIsThere (V.sees view.old) at }
    requires some { 0 < at.steps }
    requires within { at.steps ≤ length path.now.parts }
    ensures went { Went (V.sees view.old) (V.sees view.new) (K.made keys.old) (K.made keys.new) (K.fits keys.new) }
    ensures answers { Says (K.made keys.old).lookups (λ R. turn_of R path.now.start (steps_left path.now.parts at.steps) at.node) (V.sees view.old) (V.sees view.new) result }
    ensures there { IfOk result (λ turn. IfSome turn (TurnIsThere (V.sees view.new))) }
    ensures before { IfOk result (λ turn. IfSome turn (TurnIsBefore at.steps)) }
{
    let before = at.steps - 1;
    let step = step_at(path, before);
    let here = is_step_to(alloc, view, keys, step, at.node)?;
    if !here {
        return Ok(Some(Turn::Missed));
    }
    Ok(Some(turn_behind(view, step.deep, before, at.node)))
}

fn step_at(path: &PatternPath, k: usize) -> &PatternStep
    requires { k < length path.now.parts }
    ensures { slice_get path.now.parts k ≡ Some result.now }
{
    &path.parts.as_slice()[k]
}

fn met_if(met: bool) -> Option<Turn>
    ensures { result ≡ met_if met }
{
    if met { None } else { Some(Turn::Missed) }
}

// What a step that leads to a node comes to, where so many steps stand before it.
fn turn_behind<V: NodeView>(view: &mut V, deep: bool, before: usize, n: u32) -> Turn
    requires { IsThere (V.sees view.old).rules (V.sees view.old).steps n }
    ensures moves { Moves (V.sees view.old) (V.sees view.new) }
    ensures answers { SaysAlways (λ R. turn_behind R deep before n) (V.sees view.old) (V.sees view.new) (Ok (Some result)) }
    ensures there { TurnIsThere (V.sees view.new) result }
    ensures before { TurnIsBefore (suc before) result }
{
    if deep {
        view.told();
        return Turn::Fork(Place {
            steps: before,
            node: n,
        });
    }
    match view.parent(n) {
        Some(above) => Turn::Up(Place {
            steps: before,
            node: above,
        }),
        None => Turn::Missed,
    }
}

// Whether a step leads to node n from its parent: the test first, then the predicates.
fn is_step_to<V: NodeView, K: KeySource<V>>(
    alloc: Global,
    view: &mut V,
    keys: &mut K,
    step: &PatternStep,
    n: u32,
) -> Result<bool, EvalStop>
    requires stands { Stands (V.sees view.old) (K.fits keys.old) }
    requires there { IsThere (V.sees view.old).rules (V.sees view.old).steps n }
    ensures went { Went (V.sees view.old) (V.sees view.new) (K.made keys.old) (K.made keys.new) (K.fits keys.new) }
    ensures answers { Says (K.made keys.old).lookups (λ R. is_step_to R (match_step step.now) n) (V.sees view.old) (V.sees view.new) result }
{
    match view.parent(n) {
        Some(above) => is_step_from(alloc, view, keys, step, above, n),
        None => Ok(false),
    }
}

fn is_step_from<V: NodeView, K: KeySource<V>>(
    alloc: Global,
    view: &mut V,
    keys: &mut K,
    step: &PatternStep,
    above: u32,
    n: u32,
) -> Result<bool, EvalStop>
    requires stands { Stands (V.sees view.old) (K.fits keys.old) }
    requires there { IsThere (V.sees view.old).rules (V.sees view.old).steps n }
    requires above { IsThere (V.sees view.old).rules (V.sees view.old).steps above }
    ensures went { Went (V.sees view.old) (V.sees view.new) (K.made keys.old) (K.made keys.new) (K.fits keys.new) }
    ensures answers { Says (K.made keys.old).lookups (λ R. fits_below R (match_step step.now) n (Some above)) (V.sees view.old) (V.sees view.new) result }
{
    if !fits(view, step.part.axis, &step.part.test, n) {
        return Ok(false);
    }
    passes_all(alloc, view, keys, step, above, n)
}
