// What a plan makes of a source.
ghost use Rattle.std.specs.Prelude.{◌≡◌, ◌≤◌, ◌<◌, ◌^◌, ◌++◌, [], ℕ, List, Some, IfOk, IsErrOf, length, string_bytes};
ghost use Rattle.edge.specs.Causes.{Rose};
ghost use Rattle.doc_model.specs.declared.flaw.Flaw.{Flaw};
ghost use Rattle.cmd_words.specs.Turns.{IsWithinLimits};
ghost use Rattle.sessions.specs.Running.{made_of, outcomes_of};
ghost use Rattle.sessions.specs.Standing.{Holds, answer_of, counts_of, steps_of_session};
ghost use Rattle.turn_play.specs.Playing.{IsReadInTime};
ghost use Rattle.turn_play.specs.Progress.{progress_text};
ghost use Rattle.turn_play.specs.Turns.{last_runs};
ghost use Rattle.delivery.specs.Answer.{made_answer, flawed_answer, fault_text, flaw_line, messages_of};
ghost use Rattle.driver.specs.declared.transform.Stop.TheVariants as stop;
ghost use Rattle.driver.specs.Top.{IsJudged, StopsWithoutFlaw};

use cmd_words::{Pair, Plan};
use delivery::{say_faults, say_flaw};
use doc_model::Limits;
use edge::{Memory, Source};
use lists::List;
use sessions::{Fed, Outcome, Session};
use std::alloc::{AllocError, Global};
use thiserror::Error;
use turn_play::{last_turns, play_turns};

/// What the transformations came to, and the console text.
#[derive(Debug, Drop)]
pub struct Made {
    pub outcomes: List<Outcome>,
    pub said: String,
}

/// Why a source gave no document.
#[derive(Debug, Drop, Error)]
pub enum Stop {
    /// The source has a flaw: the console text.
    #[error("the source has a flaw")]
    Flawed(String),
    /// A read failed.
    #[error("failed")]
    Failed,
    /// Want of memory.
    #[error("out of memory")]
    Memory,
}

impl From<AllocError> for Stop {
    ghost from_gives = { λ _ made. made ≡ stop.Memory };

    fn from(_error: AllocError) -> Stop {
        Stop::Memory
    }
}

impl From<Memory> for Stop {
    ghost from_gives = { λ _ made. made ≡ stop.Memory };

    fn from(_error: Memory) -> Stop {
        Stop::Memory
    }
}

// The last turns, and what each transformation came to.
fn finish(alloc: Global, session: Session, pairs: &[Pair], said: String) -> Result<Made, Stop>
    requires ended { answer_of session ≡ Some Fed.Ended }
    requires holds { Holds session }
    requires readers { length (counts_of session) ≡ length pairs.now }
    requires few { length pairs.now ≤ 16 }
    ensures outcomes { IfOk result (λ made. made.outcomes ≡ outcomes_of (length pairs.now) (steps_of_session session)) }
    ensures said { IfOk result (λ made. string_bytes made.said ≡ (string_bytes said ++ progress_text (last_runs (length pairs.now) (λ reader. made_of reader (steps_of_session session)))) ++ fault_text pairs.now made.outcomes) }
    ensures memory { IsErrOf result stop.Failed → ⊥ }
    ensures no_flaw { (said : _) → IsErrOf result (stop.Flawed said) → ⊥ }
{
    let mut session = session;
    let mut said = said;
    last_turns(alloc, &mut session, pairs.len() as u32, &mut said)?;
    let outcomes = session.finish(alloc)?;
    say_faults(alloc, pairs, outcomes.as_slice(), &mut said)?;
    Ok(Made { outcomes, said })
}

/// Reads the source to its end or its first flaw while the readers take their turns.
pub fn transform<S: Source>(
    alloc: Global,
    plan: &Plan,
    limits: Limits,
    source: &mut S,
) -> Result<Made, Stop>
    requires within { IsWithinLimits plan.now }
    requires rows { 1 ≤ limits.rows }
    requires names { limits.names ≤ 65536 }
    requires text { limits.text < 2 ^ 32 }
    ensures made { IfOk result (λ made. (progress : List ℕ) × (IsJudged limits plan.now (S.left source.old) (S.left source.new) (made_answer plan.now.pairs made.outcomes progress)
        × ((string_bytes made.said ≡ progress ++ fault_text plan.now.pairs made.outcomes) × (messages_of made.outcomes ≡ [])))) }
    ensures flawed { (said : _) → IsErrOf result (stop.Flawed said) → (progress : List ℕ) × ((flaw : Flaw) × (IsJudged limits plan.now (S.left source.old) (S.left source.new) (flawed_answer progress flaw)
        × (string_bytes said ≡ progress ++ flaw_line flaw))) }
    ensures failed { IsErrOf result stop.Failed → Rose (S.faults source.old) (S.faults source.new) × StopsWithoutFlaw limits (S.left source.old) (S.left source.new) }
    ensures asked { IsReadInTime limits (S.left source.old) (S.left source.new) }
{
    let items = plan.items(alloc)?;
    let mut session = Session::start(alloc, plan.pairs.len() as u32, limits)?;
    let mut said = String::new(alloc);
    match play_turns(alloc, &mut session, source, items.as_slice(), &mut said) {
        Fed::Ended => finish(alloc, session, plan.pairs.as_slice(), said),
        Fed::Flawed(flaw) => {
            say_flaw(alloc, flaw, &mut said)?;
            Err(Stop::Flawed(said))
        }
        Fed::Failed => Err(Stop::Failed),
        Fed::Memory => Err(Stop::Memory),
        Fed::Line => unreachable!(),
    }
}
