ghost use Rattle.std.specs.Prelude.{◌≡◌, ℕ, List, Option};
ghost use Rattle.std.specs.Borrow.{Bor};
ghost use Rattle.doc_model.specs.declared.step.Step.{Step};
ghost use Rattle.engine_laws.specs.Growing.{Begins, Continues, Later, state_of};
ghost use Rattle.engine_meaning.specs.Meaning.{meaning_of};
ghost use Rattle.engine_meaning.specs.Places.{World};
ghost use Rattle.engine_meaning.specs.Runs.{State};
ghost use Rattle.frame_meaning.specs.Apart.{surface};
ghost use Rattle.frames.specs.Apart.{base};
ghost use Rattle.frame_meaning.specs.Rest.{rest};
ghost use Rattle.frame_meaning.specs.Stand.{Stand};
ghost use Rattle.frame_meaning.specs.Start.{left_at_start};
ghost use Rattle.frames.specs.declared.frame.Frame.{Frame};
ghost use Rattle.sheet_ast.specs.declared.sheet.Sheet.{Sheet};

/// What is left of a transformation on some steps is what is left on every growth of them, where it ends: the same
/// result events, messages and budget; and where a row must be shut first, the events and the messages so far begin
/// those of the growth. What was made before comes first.
pub fn what_is_left_goes_on()
    ensures later { (sheet : Sheet) (w v : World) (frames : List Frame) (h : Stand) (s : State) → Continues w v → Later (rest sheet w frames h s) (rest sheet v frames h s) }
    ensures adds { (sheet : Sheet) (w v : World) (frames : List Frame) (h : Stand) (s : State) → Continues w v → Begins (surface (base frames) s) (state_of (rest sheet v frames h s)) }
{}

/// At the start all is left: the globals in their order, and then the template of the root.
pub fn transformations_are_left_at_the_start()
    ensures { (sheet : Sheet) (order : Bor (List ℕ)) (id : Option (List ℕ)) (steps : List Step) (budget : ℕ) → meaning_of sheet order.now id steps budget ≡ left_at_start sheet order id steps budget }
{}
