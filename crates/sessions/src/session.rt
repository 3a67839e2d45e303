ghost use Rattle.std.specs.Prelude.{◌≡◌, ◌+◌, ◌<◌, ◌≤◌, ◌^◌, ℕ, List, [], ◌∷◌, Option, Some, None, IsTrue, IfOk, IfSome, OnOk, OnErr, length, replicate, slice_index, slice_set};
ghost use Rattle.doc_model.specs.declared.flaw.Flaw.{Flaw};
ghost use Rattle.edge.specs.Causes.{Rose};
ghost use Rattle.pyx_lines.specs.declared.line.Line.{Line};
ghost use Rattle.pyx_source.specs.Moving.{ReadsOnlyForALine};
ghost use Rattle.line_feeder.specs.Feeding.{for_good, FindsEnd, FindsFlaw, Fails, Starves};
ghost use Rattle.line_feeder.specs.Reads.{HasReadFor};

use crate::follower::{Follower, finish_followers, start_followers};
use crate::outcome::Outcome;
use doc_model::Limits;
use edge::{Memory, Source};
use line_feeder::{Fed, Feeder};
use lists::List;
use plain_columns::Plain;
use std::alloc::Global;
use text_walk::Turn;

/// Feeds the lines of one source into a table, and lets several readers follow it, each by the built-in
/// template rules (XSLT 1.0, section 5.8). Feeds and runs come in any order.
#[derive(Drop)]
pub struct Session {
    feeder: Feeder,
    table: Plain,
    followers: Vec<Follower>,
}

impl Session {
    ghost use Rattle.sessions.specs.Standing.{Holds, HasBeenFed, steps_of_session, limits_of, answer_of, lines_given, held_by, met_end, counts_of};
    ghost use Rattle.sessions.specs.Running.{made_of, outcomes_of, IsTurn};

    /// A session for 1 to 16 readers that has read nothing yet. Takes all memory that the table will need,
    /// and fails only for want of it.
    pub fn start(alloc: Global, readers: u32, limits: Limits) -> Result<Session, Memory>
        requires some { 1 ≤ readers }
        requires few { readers ≤ 16 }
        requires rows { 1 ≤ limits.rows }
        requires names { limits.names ≤ 65536 }
        requires text { limits.text < 2 ^ 32 }
        ensures fed { IfOk result (λ session. (told : Option (List ℕ)) → HasBeenFed session told told []) }
        ensures holds { IfOk result Holds }
        ensures limits { IfOk result (λ session. limits_of session ≡ limits) }
        ensures counts { IfOk result (λ session. counts_of session ≡ replicate readers 0) }
    {
        let feeder = Feeder::start(alloc, limits)?;
        let Ok(table) = Plain::start(alloc, limits) else {
            return Err(Memory);
        };
        let Ok(followers) = start_followers(alloc, readers) else {
            return Err(Memory);
        };
        Ok(Session {
            feeder,
            table,
            followers,
        })
    }

    /// Reads one line and appends the steps that it gives; the end of the source is found by the feed after
    /// the last line. Each answer but Line is given for good, with nothing read. Costs in the order of the
    /// line's bytes, and where the line completes a start, of that element's attribute lines. Every call is
    /// to be given the same source.
    ///
    /// Flawed comes exactly at the first flaw, Failed only where the source failed: then every line that
    /// ends in the bytes read was fed. The table then ends as Bad or Failed, and for want of memory as
    /// Starved. It reads only while what is held has no line feed, and nothing after the source's end, a
    /// flaw, a failed read or want of memory, be it of a run.
    pub fn feed<S: Source>(&mut self, alloc: Global, source: &mut S) -> Fed
        requires { Holds self.old }

        // What is fed, and what is found.
        ensures line { (told : Option (List ℕ)) (lines : List Line) → HasBeenFed self.old told (S.left source.old) lines →
            result ≡ Fed.Line → (line : Line) × HasBeenFed self.new told (S.left source.new) (line ∷ lines) }
        ensures ended { (told : Option (List ℕ)) (lines : List Line) → HasBeenFed self.old told (S.left source.old) lines →
            result ≡ Fed.Ended → FindsEnd (limits_of self.old) told (S.left source.new) lines (steps_of_session self.old) (steps_of_session self.new) }
        ensures flawed { (told : Option (List ℕ)) (lines : List Line) (flaw : Flaw) → HasBeenFed self.old told (S.left source.old) lines →
            result ≡ Fed.Flawed flaw → FindsFlaw (limits_of self.old) told lines flaw (steps_of_session self.old) (steps_of_session self.new) }
        ensures failed { (told : Option (List ℕ)) (lines : List Line) → HasBeenFed self.old told (S.left source.old) lines →
            result ≡ Fed.Failed → Fails (limits_of self.old) told (S.left source.new) lines (steps_of_session self.old) (steps_of_session self.new) }
        ensures rose { answer_of self.old ≡ None → result ≡ Fed.Failed → Rose (S.faults source.old) (S.faults source.new) }
        ensures starved { (told : Option (List ℕ)) (lines : List Line) → HasBeenFed self.old told (S.left source.old) lines →
            result ≡ Fed.Memory → Starves (limits_of self.old) told (steps_of_session self.old) (steps_of_session self.new) }

        // Each answer but Line is given for good.
        ensures kept { answer_of self.new ≡ for_good result }
        ensures for_good { IfSome (answer_of self.old) (λ fed. (result ≡ fed) × (self.new ≡ self.old) × (source.new ≡ source.old)) }

        // What it reads.
        ensures reads { ReadsOnlyForALine (lines_given self.old) (held_by self.old) (S.left source.old) (S.left source.new) }
        ensures asked { (told : Option (List ℕ)) (lines : List Line) → HasBeenFed self.old told (S.left source.old) lines →
            HasReadFor told (S.left source.new) (length lines + 1) }
        ensures over { IsTrue (met_end self.old) → source.new ≡ source.old }
        ensures counted { result ≡ Fed.Line → (lines_given self.new ≡ lines_given self.old + 1) × (lines_given self.new ≤ 4294967295) }

        // The next call, the readers and the source.
        ensures holds { Holds self.new }
        ensures limits { limits_of self.new ≡ limits_of self.old }
        ensures counts { counts_of self.new ≡ counts_of self.old }
        ensures later { S.faults source.old ≤ S.faults source.new }
    {
        self.feeder.feed(alloc, source, &mut self.table)
    }

    /// Gives reader `i` one turn: it goes on where its last turn stopped, as far as the table has grown.
    /// May come at any time, also after Ended. Costs the rows that are new to the reader. Fails only for want
    /// of memory, and then every call does, and a feed answers Memory.
    pub fn run(&mut self, alloc: Global, i: u32) -> Result<Turn, Memory>
        requires below { i < length (counts_of self.old) }
        requires holds { Holds self.old }
        ensures turn { IfOk result (λ turn. IsTurn i (steps_of_session self.old) turn) }
        ensures counts { OnOk result (counts_of self.new ≡ slice_set (counts_of self.old) i (made_of i (steps_of_session self.old))) }
        ensures starved { OnErr result ((made : ℕ) × (counts_of self.new ≡ slice_set (counts_of self.old) i made)) }

        // Want of memory is for good.
        ensures going { OnOk result (answer_of self.new ≡ answer_of self.old) }
        ensures kept { OnErr result (answer_of self.new ≡ Some Fed.Memory) }
        ensures for_good { answer_of self.old ≡ Some Fed.Memory → OnOk result ⊥ }

        // All else stays.
        ensures fed { OnOk result ((told left : Option (List ℕ)) (lines : List Line) → HasBeenFed self.old told left lines → HasBeenFed self.new told left lines) }
        ensures given { OnOk result (lines_given self.new ≡ lines_given self.old) }
        ensures holds { Holds self.new }
        ensures limits { limits_of self.new ≡ limits_of self.old }
        ensures steps { steps_of_session self.new ≡ steps_of_session self.old }
    {
        if self.feeder.has_starved() {
            return Err(Memory);
        }
        match self.followers[i as usize].run(alloc, &self.table) {
            Ok(turn) => Ok(turn),
            Err(error) => {
                self.feeder.starve();
                Err(error)
            }
        }
    }

    /// How many result events reader `i` has made: those of its last turn.
    pub fn made(&self, i: u32) -> u64
        requires { i < length (counts_of self.now) }
        ensures { result ≡ slice_index (counts_of self.now) i }
    {
        self.followers[i as usize].made()
    }

    /// What each reader comes to, in their order: runs what is left. Fails only for want of memory.
    pub fn finish(self, alloc: Global) -> Result<List<Outcome>, Memory>
        requires ended { answer_of self ≡ Some Fed.Ended }
        requires holds { Holds self }
        ensures { IfOk result (λ outcomes. outcomes ≡ outcomes_of (length (counts_of self)) (steps_of_session self)) }
    {
        finish_followers(alloc, self.followers, &self.table)
    }
}
