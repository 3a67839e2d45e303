ghost use Rattle.key_sources.specs.Going.{Says, Stands, Went};
ghost use Rattle.xpath_laws.specs.Sound.{IsThere};
ghost use Rattle.xpath_meaning.specs.Match.{match_of, match_path};
ghost use Rattle.xpath_meaning.specs.Outcome.{some_holds};

use crate::stepping::turn;
use crate::trials::{Place, Search};
use doc_model::NodeView;
use key_sources::KeySource;
use std::alloc::Global;
use xpath_meaning::EvalStop;
use xpath_syntax::{Pattern, PatternPath};

/// Whether node `n` matches a pattern (XSLT 1.0, section 5.2): its alternatives are tried from the left, and none behind
/// the first that matches. The answer is that at the end of the call, and so at every growth; `NotYet` names a row that
/// must be shut first and at a step of the call was not; a fault is the pattern's first. Costs what `path_matches` does,
/// for each alternative that is tried.
pub fn matches<V: NodeView, K: KeySource<V>>(
    alloc: Global,
    view: &mut V,
    keys: &mut K,
    pattern: &Pattern,
    n: u32,
) -> Result<bool, EvalStop>
    requires stands { Stands (V.sees view.old) (K.fits keys.old) }
    requires there { IsThere (V.sees view.old).rules (V.sees view.old).steps n }
    ensures went { Went (V.sees view.old) (V.sees view.new) (K.made keys.old) (K.made keys.new) (K.fits keys.new) }
    ensures answers { Says (K.made keys.old).lookups (λ R. match_of R pattern.now n) (V.sees view.old) (V.sees view.new) result }
{
    some_path_matches(alloc, view, keys, pattern.alternatives.as_slice(), n)
}

fn some_path_matches<V: NodeView, K: KeySource<V>>(
    alloc: Global,
    view: &mut V,
    keys: &mut K,
    paths: &[PatternPath],
    n: u32,
) -> Result<bool, EvalStop>
    requires stands { Stands (V.sees view.old) (K.fits keys.old) }
    requires there { IsThere (V.sees view.old).rules (V.sees view.old).steps n }
    ensures went { Went (V.sees view.old) (V.sees view.new) (K.made keys.old) (K.made keys.new) (K.fits keys.new) }
    ensures answers { Says (K.made keys.old).lookups (λ R. some_holds (λ path. match_path R path n) paths.now) (V.sees view.old) (V.sees view.new) result }
{
    for path in paths {
        let here = path_matches(alloc, view, keys, path, n)?;
        if here {
            return Ok(true);
        }
    }
    Ok(false)
}

/// Whether node `n` matches one alternative of a pattern; it answers as `matches` does. The steps are gone through from
/// the last one, in loops. A step asks for the parent, the kind and the name of a node, and for its siblings only where
/// it has predicates. What stands before a `//` is tried at each ancestor once, however many `//` there are: at most
/// steps times depth steps are asked.
pub fn path_matches<V: NodeView, K: KeySource<V>>(
    alloc: Global,
    view: &mut V,
    keys: &mut K,
    path: &PatternPath,
    n: u32,
) -> Result<bool, EvalStop>
    requires stands { Stands (V.sees view.old) (K.fits keys.old) }
    requires there { IsThere (V.sees view.old).rules (V.sees view.old).steps n }
    ensures went { Went (V.sees view.old) (V.sees view.new) (K.made keys.old) (K.made keys.new) (K.fits keys.new) }
    ensures answers { Says (K.made keys.old).lookups (λ R. match_path R path.now n) (V.sees view.old) (V.sees view.new) result }
{
    view.told();
    let count = path.parts.len();
    let mut search = Search::new(alloc, count);
    let mut at = Place {
        steps: count,
        node: n,
    };
    'search: loop {
        let met = turn(alloc, view, keys, path, at)?;
        let turned = match met {
            Some(turned) => turned,
            None => return Ok(true),
        };
        let next = search.next_place(view, turned)?;
        at = match next {
            Some(next) => next,
            None => return Ok(false),
        };
    }
}
