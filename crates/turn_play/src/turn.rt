// The turns of readers, each with its line of progress.
ghost use Rattle.std.specs.Prelude.{◌≡◌, ◌<◌, ◌++◌, ℕ, List, Option, IfOk, OnOk, length, string_bytes};
ghost use Rattle.doc_model.specs.declared.limits.Limits.{Limits};
ghost use Rattle.sessions.specs.Running.{made_of};
ghost use Rattle.sessions.specs.Standing.{Holds, answer_of, counts_of, limits_of, lines_given, steps_of_session};
ghost use Rattle.turn_play.specs.Playing.{IsAt};
ghost use Rattle.turn_play.specs.Progress.{progress_text, progress_line};
ghost use Rattle.turn_play.specs.Turns.{last_runs};

use edge::Memory;
use sessions::Session;
use std::alloc::{AllocError, Global};

/// Gives a reader one turn, and appends its line of progress.
pub fn run_one(
    alloc: Global,
    session: &mut Session,
    reader: u32,
    said: &mut String,
) -> Result<(), Memory>
    requires below { reader < length (counts_of session.old) }
    requires holds { Holds session.old }
    ensures said { OnOk result (string_bytes said.new ≡ string_bytes said.old ++ progress_line (record { reader = reader; made = made_of reader (steps_of_session session.old) })) }
    ensures at { OnOk result ((limits : Limits) (told left : Option (List ℕ)) (count : ℕ) → IsAt session.old limits told left count → IsAt session.new limits told left count) }
    ensures answer { OnOk result (answer_of session.new ≡ answer_of session.old) }
    ensures given { OnOk result (lines_given session.new ≡ lines_given session.old) }
    ensures holds { Holds session.new }
    ensures readers { length (counts_of session.new) ≡ length (counts_of session.old) }
    ensures steps { steps_of_session session.new ≡ steps_of_session session.old }
{
    session.run(alloc, reader)?;
    let line = line_of(alloc, reader, session.made(reader)).map_err(|_| Memory)?;
    said.push_str(line.as_str()).map_err(|_| Memory)
}

// The console line of a turn.
fn line_of(alloc: Global, reader: u32, made: u64) -> Result<String, AllocError>
    ensures { IfOk result (λ text. string_bytes text ≡ progress_line (record { reader = reader; made = made })) }
{
    format!(in alloc; "r{reader} {made}\n")
}

/// Gives each reader in order one turn, and appends its line of progress.
pub fn last_turns(
    alloc: Global,
    session: &mut Session,
    readers: u32,
    said: &mut String,
) -> Result<(), Memory>
    requires readers { readers ≡ length (counts_of session.old) }
    requires holds { Holds session.old }
    ensures said { OnOk result (string_bytes said.new ≡ string_bytes said.old ++ progress_text (last_runs readers (λ reader. made_of reader (steps_of_session session.old)))) }
    ensures answer { OnOk result (answer_of session.new ≡ answer_of session.old) }
    ensures holds { Holds session.new }
    ensures readers { length (counts_of session.new) ≡ length (counts_of session.old) }
    ensures steps { steps_of_session session.new ≡ steps_of_session session.old }
{
    for reader in 0..readers {
        run_one(alloc, session, reader, said)?;
    }
    Ok(())
}
