use crate::item::{Item, line_and_readers};
use crate::pair::Pair;
use lists::List;
use std::alloc::{AllocError, Global};

/// What words ask for.
#[derive(Clone, Debug, Drop)]
pub struct Plan {
    /// The items of LIST, 1 to 1,000 of them, or None without the word `--turns=LIST`.
    pub turns: Option<List<Item>>,
    /// 1 to 16 pairs with different names OUT, in the order of the words.
    pub pairs: List<Pair>,
}

impl Plan {
    ghost use Rattle.std.specs.Prelude.{◌≡◌, ◌<◌, ◌^◌, length, IfOk};
    ghost use Rattle.cmd_words.specs.Turns.{turns_of};

    /// The items of LIST, or without it one line and then each reader in order. Fails only for want of memory.
    pub fn items(&self, alloc: Global) -> Result<List<Item>, AllocError>
        requires { length self.now.pairs < 2 ^ 32 }
        ensures { IfOk result (λ items. items ≡ turns_of self.now) }
    {
        match &self.turns {
            Some(turns) => List::from_slice(alloc, turns.as_slice()),
            None => line_and_readers(alloc, self.pairs.len()),
        }
    }
}
