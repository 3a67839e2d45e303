// The visible children of a node, one by one.
ghost use Rattle.std.specs.Prelude.{◌+◌, ⊤, drop, length, IfOk, MatchOption};
ghost use Rattle.doc_model.specs.View.{Moves};
ghost use Rattle.doc_model.specs.declared.node_test.Test.TheVariants as test;
ghost use Rattle.document_questions.specs.Following.{AreLeft, given_in};
ghost use Rattle.key_sources.specs.Going.{SaysAlways};
ghost use Rattle.xpath_laws.specs.Sound.{IsThere};
ghost use Rattle.xpath_meaning.specs.Streams.{first_in};

use axis_walkers::ChildStream;
use doc_model::{Look, NodeView};
use xpath_meaning::EvalStop;

/// The next child of node `n`, of which so many were given; `None` only at the end.
pub(crate) fn next_child<V: NodeView>(
    view: &mut V,
    stream: &mut ChildStream,
    n: u32,
    taken: u32,
) -> Result<Option<u32>, EvalStop>
    requires { AreLeft (V.sees view.old).rules (V.sees view.old).steps stream.old n taken }
    ensures moves { Moves (V.sees view.old) (V.sees view.new) }
    ensures answers { SaysAlways (λ R. first_in (drop taken (R.children test.Any n).items) (R.children test.Any n).ending) (V.sees view.old) (V.sees view.new) result }
    ensures left { AreLeft (V.sees view.new).rules (V.sees view.new).steps stream.new n (taken + length (given_in result)) }
    ensures there { IfOk result (λ item. MatchOption item ⊤ (λ k. IsThere (V.sees view.new).rules (V.sees view.new).steps k)) }
{
    match stream.next(view) {
        Look::Node(child) => Ok(Some(child)),
        Look::Nothing => Ok(None),
        Look::NotYet => Err(EvalStop::NotYet(n)),
    }
}
