ghost use Rattle.std.specs.Prelude.{◌≡◌, ◌≤◌, ◌*◌, ◌%◌, ℕ};
ghost use Rattle.doc_model.specs.Cells.{text_place};

/// A text is placed at the least multiple of 7 that isn't below the end of the last one.
pub fn texts_are_placed_at_the_least_multiple_of_seven()
    ensures multiple { (end : ℕ) → text_place end % 7 ≡ 0 }
    ensures behind { (end : ℕ) → end ≤ text_place end }
    ensures least { (end k : ℕ) → end ≤ 7 * k → text_place end ≤ 7 * k }
{}
