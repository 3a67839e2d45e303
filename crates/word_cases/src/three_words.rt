ghost use Rattle.std.specs.Prelude.{◌≡◌, ◌⊎◌, ◌∷◌, [], IfOk};
ghost use Rattle.link_cells.specs.Log.{put};

use crate::free::Free;
use link_cells::{Layout, Past, cells, meet, show};
use std::alloc::{AllocError, Global};

/// What a reader found in the first word and in the second, in the first once it was up to date, and what it had
/// seen when it met the writer.
#[derive(Drop)]
pub struct Found {
    pub first: u64,
    pub second: u64,
    pub shown: u64,
    pub past: Past<Free>,
}

/// Three words and one reader: the first word is set to 5.
pub fn three_words(alloc: Global) -> Result<Found, AllocError>
    ensures first { IfOk result (λ found. (found.first ≡ 0) ⊎ (found.first ≡ 5)) }
    ensures second { IfOk result (λ found. found.second ≡ 0) }
    ensures shown { IfOk result (λ found. found.shown ≡ 5) }
    ensures past { IfOk result (λ found. found.past ≡ put 0 5 ∷ []) }
{
    let layout = Layout {
        first: 0,
        second: 0,
        third: 0,
    };
    let (cells, mut writer, mut passes) = cells::<Free>(alloc, 3, 1, layout)?;
    let Some(mut pass) = passes.pop() else {
        unreachable!()
    };
    writer.set(&cells, 0, 5);
    let first = pass.get(&cells, 0);
    let second = pass.get(&cells, 1);
    show(&cells, &mut writer, &mut pass);
    let shown = pass.get(&cells, 0);
    let past = meet(&cells, &mut writer, pass);
    Ok(Found {
        first,
        second,
        shown,
        past,
    })
}
