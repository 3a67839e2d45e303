ghost use Rattle.std.specs.Prelude.{[], None, ⊤};
ghost use Rattle.doc_model.specs.Answers.{Known};
ghost use Rattle.doc_model.specs.View.{IsSeen, Moves};
ghost use Rattle.key_sources.specs.Going.{SaysAlways};
ghost use Rattle.xpath_meaning.specs.Outcome.{◌>>=◌ as ◌>>>◌};

use crate::source::KeySource;
use doc_model::NodeView;
use lists::List;
use std::alloc::Global;
use xpath_meaning::EvalStop;

/// A source for a sheet without keys, where no attributes are IDs. It keeps nothing and takes no memory.
#[derive(Clone, Copy, Debug, PartialEq, Eq)]
pub struct NoKeys;

impl<V: NodeView> KeySource<V> for NoKeys {
    ghost Mark = { ⊤ };

    ghost made = { λ source. record { lookups = record { keys = []; id = None }; mark = tt } };

    ghost fits = { λ source rules steps. ⊤ };

    ghost goes_on = { λ source rules before later fit grows lawful. tt };

    fn by_key(
        &mut self,
        alloc: Global,
        view: &mut V,
        _key: u32,
        _value: &[u8],
    ) -> Result<List<u32>, EvalStop> {
        none_once_whole(alloc, view)
    }

    fn by_id(&mut self, alloc: Global, view: &mut V, _value: &[u8]) -> Result<List<u32>, EvalStop> {
        none_once_whole(alloc, view)
    }
}

// No node, once the root is shut.
fn none_once_whole<V: NodeView>(alloc: Global, view: &mut V) -> Result<List<u32>, EvalStop>
    requires { IsSeen (V.sees view.old) }
    ensures moves { Moves (V.sees view.old) (V.sees view.new) }
    ensures answers { SaysAlways (λ R. R.whole >>> λ shut. Known []) (V.sees view.old) (V.sees view.new) result }
{
    match view.extent(0) {
        Some(_) => Ok(List::new(alloc)),
        None => Err(EvalStop::NotYet(0)), // the root
    }
}
