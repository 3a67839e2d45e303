use link_cells::Discipline;

/// Any words may be set.
#[derive(Drop)]
pub struct Free;

impl Discipline for Free {
    ghost keeps = { λ _ _. Unit {0} };

    ghost empty = { λ _. tt };

    ghost beginning = { λ _ _ _ _ _. tt };
}
