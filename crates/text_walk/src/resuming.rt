ghost use Rattle.std.specs.Prelude.{◌≡◌, ℕ, List};
ghost use Rattle.doc_model.specs.declared.step.Step.{Step};
ghost use Rattle.doc_model.specs.Lawful.{IsLawful, Grows};
ghost use Rattle.text_walk.specs.declared.fault.FaultKind.{FaultKind};
ghost use Rattle.text_walk.specs.declared.turn.Turn.{Turn};
ghost use Rattle.text_walk.specs.declared.turn.Turn.TheVariants.{Done, Faulted};
ghost use Rattle.text_walk.specs.Turning.{TurnIs, IsDone, HasFault};
ghost use Rattle.text_walk.specs.Walking.{Walking, Stands, IsUnderWay, IsBehind};

/// What a walker gave of steps it gave of the beginning of all that they grow to.
pub fn way_goes_on()
    ensures { (walker : Walking) (bytes : List ℕ) (p q : List Step) → Grows p q → IsLawful q → IsUnderWay walker p bytes → IsUnderWay walker q bytes }
{}

/// After any turn there may be another.
pub fn turn_goes_on()
    ensures { (walker : Walking) (bytes : List ℕ) (p q r : List Step) (turn : Turn) → TurnIs walker bytes p q turn → Grows q r → IsBehind walker r bytes }
{}

/// After a turn over steps that stood still the walker stands for just these.
pub fn still_turn_stands()
    ensures { (walker : Walking) (bytes : List ℕ) (p : List Step) (turn : Turn) → TurnIs walker bytes p p turn → Stands walker p bytes }
{}

/// After Done each turn over a growth is Done, and nothing more is given.
pub fn done_is_final()
    ensures { (walker then : Walking) (bytes more : List ℕ) (p q r : List Step) (turn : Turn) → Grows p q → Grows q r → IsLawful r
        → IsDone walker bytes p → TurnIs then more q r turn → (turn ≡ Done) × (more ≡ bytes) × (then.made ≡ walker.made) }
{}

/// After a fault each turn over a growth has that fault, and nothing more is given.
pub fn fault_is_final()
    ensures { (walker then : Walking) (bytes more : List ℕ) (kind : FaultKind) (p q r : List Step) (turn : Turn) → Grows p q → Grows q r → IsLawful r
        → HasFault walker bytes kind p → TurnIs then more q r turn → (turn ≡ Faulted kind) × (more ≡ bytes) × (then.made ≡ walker.made) }
{}
