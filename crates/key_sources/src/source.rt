ghost use Rattle.std.specs.Prelude.{ℕ, List};
ghost use Rattle.doc_model.specs.declared.step.Step.{Step};
ghost use Rattle.doc_model.specs.declared.strip_rule.StripRule.{StripRule};
ghost use Rattle.doc_model.specs.Lawful.{Grows, IsLawful};
ghost use Rattle.key_sources.specs.Going.{Made, Stands, Went, Says};

use doc_model::NodeView;
use lists::List;
use std::alloc::Global;
use xpath_meaning::EvalStop;

/// What finds nodes by keys (XSLT 1.0, section 12.2) and by IDs (XPath 1.0, section 4.1). What it is made for never
/// changes. What it keeps between calls stands for the steps that a view has seen under its strip rules, and for every
/// lawful growth of them; a new source stands for any steps.
pub trait KeySource<V: NodeView> {
    /// What tells the borrow that the source stands on.
    ghost Mark: { Type 0 };

    /// The declarations of keys and the name of ID attributes.
    ghost made: { Self → Made Mark };

    /// What the source keeps stands for these steps under these strip rules.
    ghost fits: { Self → List StripRule → List Step → Type 0 };

    /// The nodes that a key has for a value, in document order. The key is given by the place of the first
    /// declaration of its name, counted from 0; one that is not there has no nodes. `NotYet` names the root, which was
    /// open at a step of the call; a fault is the first one of the key's declarations at any node.
    fn by_key(
        &mut self,
        alloc: Global,
        view: &mut V,
        key: u32,
        value: &[u8],
    ) -> Result<List<u32>, EvalStop>
        requires { Stands (V.sees view.old) (fits self.old) }
        ensures went { Went (V.sees view.old) (V.sees view.new) (made self.old) (made self.new) (fits self.new) }
        ensures answers { Says (made self.old).lookups (λ R. R.by_key key value.now) (V.sees view.old) (V.sees view.new) result };

    /// The first element in document order that has an ID, alone, or no node. `NotYet` names the root, which was open
    /// at a step of the call.
    fn by_id(&mut self, alloc: Global, view: &mut V, value: &[u8]) -> Result<List<u32>, EvalStop>
        requires { Stands (V.sees view.old) (fits self.old) }
        ensures went { Went (V.sees view.old) (V.sees view.new) (made self.old) (made self.new) (fits self.new) }
        ensures answers { Says (made self.old).lookups (λ R. R.by_id value.now) (V.sees view.old) (V.sees view.new) result };

    /// What stands for steps stands for every lawful growth of them.
    ghost goes_on: { (source : Self) (rules : List StripRule) (before later : List Step) → fits source rules before → Grows before later → IsLawful later → fits source rules later };
}
