// What the definition of a call's answer says of its statuses.
ghost use Rattle.std.specs.Prelude.{◌≡◌, ◌≢◌, ◌⊎◌, ℕ, List, Some, None};
ghost use Rattle.std.specs.Io.KnownBytes.{IsAtEnd};
ghost use Rattle.doc_model.specs.declared.limits.Limits.{Limits};
ghost use Rattle.cmd_words.specs.Words.{plan_of};
ghost use Rattle.delivery.specs.Delivery.{Delivers};
ghost use Rattle.driver.specs.Judged.{answer_of, read_failed_answer, memory_answer};
ghost use Rattle.driver.specs.Top.{Outside, Answers, ReadFails};

/// Where the source tells its bytes and no fault is answered, the call delivers the answer of the words and
/// of these bytes, however they were cut and whatever the turns were.
pub fn told_source_is_answered()
    ensures { (limits : Limits) (words : List (List ℕ)) (bytes : List ℕ) (code : ℕ) (before after : Outside) → Answers limits words code before after →
        before.left ≡ Some bytes → code ≢ 5 → code ≢ 6 → code ≢ 7 → Delivers (answer_of limits words bytes) code before.out after.out }
{}

/// What each status tells, also of a source that tells nothing.
pub fn each_status_has_its_cause()
    ensures no_plan { (limits : Limits) (words : List (List ℕ)) (code : ℕ) (before after : Outside) → Answers limits words code before after →
        code ≡ 2 → plan_of words ≡ None }
    ensures judged_first { (limits : Limits) (words : List (List ℕ)) (code : ℕ) (before after : Outside) → Answers limits words code before after →
        plan_of words ≡ None → (code ≡ 2) ⊎ (code ≡ 6) }
    ensures read_whole { (limits : Limits) (words : List (List ℕ)) (code : ℕ) (before after : Outside) → Answers limits words code before after →
        (code ≡ 0) ⊎ (code ≡ 1) → IsAtEnd after.left }
    ensures read_failed { (limits : Limits) (words : List (List ℕ)) (code : ℕ) (before after : Outside) → Answers limits words code before after →
        code ≡ 5 → ReadFails limits before after read_failed_answer × Delivers read_failed_answer code before.out after.out }
    ensures memory { (limits : Limits) (words : List (List ℕ)) (code : ℕ) (before after : Outside) → Answers limits words code before after →
        code ≡ 7 → Delivers memory_answer code before.out after.out }
{}
