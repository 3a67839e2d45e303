ghost use Rattle.std.specs.Prelude.{◌≡◌, ◌<◌, ℕ, [], Some, IfOk, IfSome, OnOk, reverse};
ghost use Rattle.doc_model.specs.Answers.{Known};
ghost use Rattle.doc_model.specs.View.{IsSeen, Moves};
ghost use Rattle.patterns.specs.Places.{PlaceIsThere, IsWithin, AllThere, TurnIsThere, FoundIsThere, AllWithin, TurnIsWithin, FoundIsWithin, tried_with, forks_with, weight, IsLighter, GoesAs};
ghost use Rattle.patterns.specs.declared.trials.Turn.TheVariants.{Fork};
ghost use Rattle.patterns.specs.Trials.{turned, resumed, gone};
ghost use Rattle.xpath_syntax.specs.declared.pattern.PatternPath.{PatternPath};

use doc_model::NodeView;
use lists::List;
use std::alloc::{AllocError, Global};

/// Where a match goes on: so many steps of the pattern are still to lead to this node.
#[derive(Clone, Copy)]
pub(crate) struct Place {
    pub(crate) steps: usize,
    pub(crate) node: u32,
}

/// What a step comes to.
#[derive(Clone, Copy)]
pub(crate) enum Turn {
    /// It doesn't lead to the node.
    Missed,
    /// It does, and the steps before it are to lead to the parent.
    Up(Place),
    /// It does, and the steps before it are to lead to some ancestor of the node.
    Fork(Place),
}

/// What is still to be tried.
#[derive(Drop)]
pub(crate) struct Search {
    // with so many steps left, or more, the ancestors were tried already
    tried: usize,
    // the nodes whose ancestors are to be tried, the latest last
    forks: List<Place>,
}

impl Search {
    pub(crate) fn new(alloc: Global, tried: usize) -> Search
        ensures tried { result.tried ≡ tried }
        ensures forks { result.forks ≡ [] }
    {
        Search {
            tried,
            forks: List::new(alloc),
        }
    }

    // Where to go on behind a turn; nowhere, where nothing is left.
    pub(crate) fn next_place<V: NodeView>(
        &mut self,
        view: &mut V,
        turn: Turn,
    ) -> Result<Option<Place>, AllocError>
        requires seen { IsSeen (V.sees view.old) }
        requires there { AllThere (V.sees view.old) self.old.forks }
        requires turn { TurnIsThere (V.sees view.old) turn }
        ensures moves { Moves (V.sees view.old) (V.sees view.new) }
        ensures there { OnOk result (AllThere (V.sees view.new) self.new.forks) }
        ensures found { IfOk result (λ found. FoundIsThere (V.sees view.new) found) }
        ensures within { (count : ℕ) → AllWithin count self.old.forks → TurnIsWithin count turn → IfOk result (λ found. AllWithin count self.new.forks × FoundIsWithin count found) }
        ensures lighter { IfOk result (λ found. IsLighter self.old.tried self.old.forks turn self.new.tried self.new.forks found) }
        ensures goes { IfOk result (λ found. (path : PatternPath) → GoesAs (V.sees view.new) (λ R. turned R path self.old.tried (Some turn))
            (λ R. resumed R path (reverse self.old.forks)) (λ R. gone R path self.new.tried self.new.forks found)) }
    {
        match turn {
            Turn::Missed => self.resume(view),
            Turn::Up(place) => Ok(Some(place)),
            Turn::Fork(place) => self.resume_with(view, place),
        }
    }

    // The next ancestor of a node, where they are to be tried, or else of the latest node that has one left.
    fn resume_with<V: NodeView>(
        &mut self,
        view: &mut V,
        place: Place,
    ) -> Result<Option<Place>, AllocError>
        requires seen { IsSeen (V.sees view.old) }
        requires there { AllThere (V.sees view.old) self.old.forks }
        requires place { PlaceIsThere (V.sees view.old) place }
        ensures moves { Moves (V.sees view.old) (V.sees view.new) }
        ensures there { OnOk result (AllThere (V.sees view.new) self.new.forks) }
        ensures found { IfOk result (λ found. FoundIsThere (V.sees view.new) found) }
        ensures within { (count : ℕ) → AllWithin count self.old.forks → IsWithin count place → IfOk result (λ found. AllWithin count self.new.forks × FoundIsWithin count found) }
        ensures lighter { IfOk result (λ found. IsLighter self.old.tried self.old.forks (Fork place) self.new.tried self.new.forks found) }
        ensures goes { IfOk result (λ found. (path : PatternPath) → GoesAs (V.sees view.new) (λ R. turned R path self.old.tried (Some (Fork place)))
            (λ R. resumed R path (reverse self.old.forks)) (λ R. gone R path self.new.tried self.new.forks found)) }
    {
        self.fork(place)?;
        self.resume(view)
    }

    // Has the ancestors of a node tried, where those steps were not tried at ancestors before.
    fn fork(&mut self, place: Place) -> Result<(), AllocError>
        ensures tried { OnOk result (self.new.tried ≡ tried_with place self.old.tried) }
        ensures forks { OnOk result (self.new.forks ≡ forks_with place self.old.tried self.old.forks) }
    {
        if place.steps >= self.tried {
            return Ok(());
        }
        self.tried = place.steps;
        self.forks.push(place)?;
        Ok(())
    }

    // The next ancestor of the latest node that has one left.
    fn resume<V: NodeView>(&mut self, view: &mut V) -> Result<Option<Place>, AllocError>
        requires there { AllThere (V.sees view.old) self.old.forks }
        ensures moves { Moves (V.sees view.old) (V.sees view.new) }
        ensures tried { self.new.tried ≡ self.old.tried }
        ensures there { OnOk result (AllThere (V.sees view.new) self.new.forks) }
        ensures found { IfOk result (λ found. FoundIsThere (V.sees view.new) found) }
        ensures within { (count : ℕ) → AllWithin count self.old.forks → IfOk result (λ found. AllWithin count self.new.forks × FoundIsWithin count found) }
        ensures lighter { IfOk result (λ found. IfSome found (λ place. weight self.new.forks < weight self.old.forks)) }
        ensures goes { IfOk result (λ found. (path : PatternPath) → GoesAs (V.sees view.new) (λ R. Known (Some self.old.tried))
            (λ R. resumed R path (reverse self.old.forks)) (λ R. gone R path self.old.tried self.new.forks found)) }
    {
        view.told();
        while let Some(fork) = self.forks.pop() {
            if let Some(above) = view.parent(fork.node) {
                let place = Place {
                    steps: fork.steps,
                    node: above,
                };
                self.forks.push(place)?;
                return Ok(Some(place));
            }
        }
        Ok(None)
    }
}
