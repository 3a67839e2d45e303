// A reader of the table, and the bytes that it has given.
ghost use Rattle.std.specs.Prelude.{◌≡◌, [], IfOk, OnOk, replicate, length};
ghost use Rattle.doc_model.specs.Rows.{rows_of};
ghost use Rattle.text_walk.specs.BuiltIn.{reached};
ghost use Rattle.text_walk.specs.Text.{text_of};
ghost use Rattle.text_walk.specs.Walking.{IsBehind};
ghost use Rattle.sessions.specs.Running.{made_by_builtin, builtin_outcome, outcomes_of, counts_in, IsTurn, AreBehind};

use crate::outcome::Outcome;
use edge::Memory;
use lists::List;
use plain_columns::Plain;
use std::alloc::{AllocError, Global};
use text_walk::{Turn, Walker, still_turn_stands};

#[derive(Drop)]
pub struct Follower {
    walker: Walker,
    text: Vec<u8>,
}

impl Follower {
    pub fn start(alloc: Global) -> Follower
        ensures made { result.walker.made ≡ 0 }
        ensures behind { IsBehind result.walker [] result.text.items }
    {
        Follower {
            walker: Walker::start(),
            text: Vec::new(alloc),
        }
    }

    /// Goes on as far as the table has grown.
    pub fn run(&mut self, alloc: Global, table: &Plain) -> Result<Turn, Memory>
        requires { IsBehind self.old.walker table.now.cells.steps self.old.text.items }
        ensures turn { IfOk result (λ turn. IsTurn 0 table.now.cells.steps turn) }
        ensures made { OnOk result (self.new.walker.made ≡ made_by_builtin table.now.cells.steps) }
        ensures text { OnOk result (self.new.text.items ≡ text_of (reached (rows_of table.now.cells.steps))) }
        ensures behind { IsBehind self.new.walker table.now.cells.steps self.new.text.items }
    {
        still_turn_stands();
        match self.walker.turn(alloc, &mut table.view(), &mut self.text) {
            Ok(turn) => Ok(turn),
            Err(_) => Err(Memory),
        }
    }

    pub fn made(&self) -> u64
        ensures { result ≡ self.now.walker.made }
    {
        self.walker.made()
    }

    /// Runs what is left: what the reader comes to in a whole table.
    pub fn finish(self, alloc: Global, table: &Plain) -> Result<Outcome, Memory>
        requires { IsBehind self.walker table.now.cells.steps self.text.items }
        ensures { IfOk result (λ outcome. outcome ≡ builtin_outcome table.now.cells.steps) }
    {
        let mut follower = self;
        let turn = follower.run(alloc, table)?;
        let made = follower.made();
        let (fault, bytes) = match turn {
            Turn::Faulted(kind) => (Some(kind), List::new(alloc)),
            Turn::Done | Turn::NotYet(_) => (None, List::from_vec(follower.text)),
        };
        Ok(Outcome {
            fault,
            bytes,
            messages: List::new(alloc),
            made,
        })
    }
}

/// So many readers, which have read nothing.
pub fn start_followers(alloc: Global, count: u32) -> Result<Vec<Follower>, AllocError>
    ensures made { IfOk result (λ followers. counts_in followers.items ≡ replicate count 0) }
    ensures behind { IfOk result (λ followers. AreBehind [] followers.items) }
{
    let mut followers = Vec::new(alloc);
    for _ in 0..count {
        followers.push(Follower::start(alloc))?;
    }
    Ok(followers)
}

/// What each reader comes to in a whole table, in their order.
pub fn finish_followers(
    alloc: Global,
    followers: Vec<Follower>,
    table: &Plain,
) -> Result<List<Outcome>, Memory>
    requires { AreBehind table.now.cells.steps followers.items }
    ensures { IfOk result (λ outcomes. outcomes ≡ outcomes_of (length (counts_in followers.items)) table.now.cells.steps) }
{
    let mut outcomes = List::new(alloc);
    for follower in followers {
        let outcome = follower.finish(alloc, table)?;
        outcomes.push(outcome).map_err(|_| Memory)?;
    }
    Ok(outcomes)
}
