ghost use Rattle.std.specs.Prelude.{◌≡◌, List, None};
ghost use Rattle.doc_model.specs.declared.step.Step.{Step};
ghost use Rattle.doc_model.specs.declared.strip_rule.StripRule.{StripRule};
ghost use Rattle.doc_model.specs.Lawful.{IsJoined, Grows};
ghost use Rattle.doc_model.specs.Rows.{rows_of};
ghost use Rattle.doc_model.specs.View.{Moves};
ghost use Rattle.axis_walkers.specs.Streams.{IsStream, StandsTo, StreamIs, StreamStays};

use doc_model::{Look, NodeView};

/// The visible children of a row, one by one. What was given stays given as the table grows, so a
/// stream that had to stop goes on where it stood.
#[derive(Clone, Copy, Debug, PartialEq, Eq)]
pub struct ChildStream {
    n: u32,
    // the child that was given last
    last: Option<u32>,
}

impl ChildStream {
    /// A stream of the children of row `n` that has given none.
    pub fn start(n: u32) -> ChildStream
        ensures { result ≡ record { n = n; last = None } }
    {
        ChildStream { n, last: None }
    }

    /// The next child; `Nothing` at the end; `NotYet` where there is none yet and one may come. Makes one
    /// call on the view, and takes no memory.
    pub fn next<V: NodeView>(&mut self, view: &mut V) -> Look
        requires { IsStream (V.sees view.old) self.old }
        ensures moves { Moves (V.sees view.old) (V.sees view.new) }
        ensures value { StreamIs (V.sees view.old) (V.sees view.new) self.old self.new result }
    {
        match self.last {
            Some(last) => match view.next(last) {
                Look::Node(k) => {
                    self.last = Some(k);
                    Look::Node(k)
                }
                Look::Nothing => Look::Nothing,
                Look::NotYet => Look::NotYet,
            },
            None => match view.first(self.n) {
                Look::Node(k) => {
                    self.last = Some(k);
                    Look::Node(k)
                }
                Look::Nothing => Look::Nothing,
                Look::NotYet => Look::NotYet,
            },
        }
    }
}

/// A stream stands as well at every later step, and what it has given stays given.
pub fn streams_stay()
    ensures { (rules : List StripRule) (before later : List Step) (stream : ChildStream) → Grows before later → IsJoined before stream.n → StandsTo rules (rows_of before) stream.n stream.last → StreamStays rules before later stream }
{}
