//! Where a walk through child steps stands, depth first.

ghost use Rattle.std.specs.Prelude.{◌≡◌, ◌+◌, ◌++◌, ◌∷◌, ◌<◌, ◌≤◌, [], None, Some, drop, length, map, slice_get, IfOk, OnOk, OnErr};
ghost use Rattle.doc_model.specs.Answers.{Known};
ghost use Rattle.key_sources.specs.Going.{Gives};
ghost use Rattle.xpath_core.specs.Left.{Comes, IsBegun, IsWentOn, finished_with, fresh_level, test_in};
ghost use Rattle.xpath_meaning.specs.Items.{first_count};

use crate::node_tests::test_of;
use axis_walkers::ChildStream;
use doc_model::Test;
use lists::List;
use std::alloc::{AllocError, Global};
use xpath_meaning::EvalStop;
use xpath_syntax::StepExpr;

/// The children of a node, which a step goes through.
#[derive(Drop)]
pub(crate) struct Level {
    pub(crate) node: u32,
    pub(crate) children: ChildStream,
    // how many nodes came to each predicate of the step
    pub(crate) counts: List<u64>,
}

/// A place in a list of child steps.
#[derive(Drop)]
pub(crate) struct Place {
    // the node tests of the steps
    pub(crate) tests: List<Test>,
    // the outermost first
    pub(crate) levels: List<Level>,
    // a node that passed the step of the last level; what lies behind it comes next
    pub(crate) entering: Option<u32>,
}

/// A node that was tested by predicates.
#[derive(Drop)]
pub(crate) struct Tested {
    // how many nodes came to each of them, with this one
    pub(crate) counts: List<u64>,
    // whether it passed all of them
    pub(crate) passed: bool,
}

/// What a level comes to next.
#[derive(Drop)]
pub(crate) enum Child {
    /// There are no more children, and there will be none.
    None,
    /// A child that does not meet the node test, and the children behind it.
    Other {
        n: u32,
        children: ChildStream,
    },
    /// One that meets it, and the children behind it.
    Tested {
        n: u32,
        children: ChildStream,
        tested: Tested,
    },
}

/// What comes next at a place.
#[derive(Drop)]
pub(crate) enum Turn {
    /// A node that passed all steps.
    Item(u32),
    /// There is nothing left.
    End,
    /// The next child of the innermost level, which is the one at this place.
    Child(usize),
}

impl Place {
    /// Before the first child of node `n`. Makes the node test of each step.
    pub(crate) fn start(alloc: Global, parts: &[StepExpr], n: u32) -> Result<Place, AllocError>
        ensures { IfOk result (λ place. IsBegun parts.now n place) }
    {
        let tests = tests_of(alloc, parts)?;
        Ok(Place {
            tests,
            levels: List::new(alloc),
            entering: Some(n),
        })
    }

    /// Goes into the children of node `n`, which the next step goes through. Fails only for want of memory, and then stays.
    pub(crate) fn enter(&mut self, alloc: Global, n: u32) -> Result<(), AllocError>
        ensures ok { OnOk result (self.new ≡ record { tests = self.old.tests; levels = self.old.levels ++ fresh_level n ∷ []; entering = None }) }
        ensures err { OnErr result (self.new ≡ self.old) }
    {
        self.levels.push(Level {
            node: n,
            children: ChildStream::start(n),
            counts: List::new(alloc),
        })?;
        self.entering = None;
        Ok(())
    }

    /// Comes to what is next, in so many steps: gives a node that passed the last step, and enters one that passed an earlier
    /// one. Fails only for want of memory, and then stays.
    pub(crate) fn come(&mut self, alloc: Global, steps: usize) -> Result<Turn, AllocError>
        requires { length self.old.levels ≤ steps }
        ensures ok { IfOk result (λ turn. Comes steps turn self.old self.new) }
        ensures err { OnErr result (self.new ≡ self.old) }
    {
        match self.entering {
            Some(n) => {
                if self.levels.len() == steps {
                    self.entering = None;
                    return Ok(Turn::Item(n));
                }
                self.enter(alloc, n)?;
                Ok(Turn::Child(self.levels.len() - 1))
            }
            None => {
                if self.levels.is_empty() {
                    return Ok(Turn::End);
                }
                Ok(Turn::Child(self.levels.len() - 1))
            }
        }
    }

    pub(crate) fn level_at(&self, at: usize) -> &Level
        requires { at < length self.now.levels }
        ensures { slice_get self.now.levels at ≡ Some result.now }
    {
        &self.levels.as_slice()[at]
    }

    /// The node test of the step of the level at this place.
    pub(crate) fn test_at(&self, at: usize) -> &Test
        requires { at < length self.now.tests }
        ensures { slice_get self.now.tests at ≡ Some result.now }
    {
        &self.tests.as_slice()[at]
    }

    /// Goes on with what the innermost level, which is the one at `at`, came to.
    pub(crate) fn go_on(&mut self, at: usize, child: Child)
        requires { at + 1 ≡ length self.old.levels }
        ensures { IsWentOn at child self.old self.new }
    {
        match child {
            Child::None => {
                self.levels.pop();
            }
            Child::Other { n: _, children } => {
                let level = self.levels.item_mut(at);
                level.children = children;
            }
            Child::Tested {
                n,
                children,
                tested,
            } => {
                let Tested { counts, passed } = tested;
                let level = self.levels.item_mut(at);
                level.children = children;
                level.counts = counts;
                if passed {
                    self.entering = Some(n);
                }
            }
        }
    }
}

fn tests_of(alloc: Global, parts: &[StepExpr]) -> Result<List<Test>, AllocError>
    ensures { IfOk result (λ tests. tests ≡ map test_in parts.now) }
{
    let mut tests = List::new(alloc);
    for part in parts {
        tests.push(test_of(alloc, &part.test)?)?;
    }
    Ok(tests)
}

/// How many nodes came to the predicate at `at`.
pub(crate) fn count_at(counts: &[u64], at: usize) -> u64
    ensures { result ≡ first_count (drop at counts.now) }
{
    counts.get(at).copied().unwrap_or(0)
}

/// A node that was tested, where these are the counts of the predicates that it came to, and the others stay.
pub(crate) fn finished(after: List<u64>, counts: &[u64], passed: bool) -> Result<Tested, EvalStop>
    ensures { Gives (Known (finished_with after counts.now passed)) result }
{
    let mut after = after;
    let at = after.len();
    if at < counts.len() {
        after.extend_from_slice(&counts[at..])?;
    }
    Ok(Tested {
        counts: after,
        passed,
    })
}
