ghost use Rattle.std.specs.Prelude.{◌≡◌, ◌↔◌, ℕ, ◌<◌, false, List, length, Some, None, slice_get};
ghost use Rattle.doc_model.specs.declared.row.Row.{Row};
ghost use Rattle.doc_model.specs.declared.strip_rule.StripRule.{StripRule};
ghost use Rattle.doc_model.specs.Shown.{first_shown, next_shown, prev_shown};
ghost use Rattle.doc_model.specs.Strip.{best_from, rule_fits, keeps_space};
ghost use Rattle.strip_rules.specs.Among.{IsFirstVisible, IsNextVisible, IsPrevVisible};
ghost use Rattle.strip_rules.specs.Deciding.{IsDeciding, Keeps};

/// The links that a stripped view answers are those among the visible rows: the first visible child, and
/// the nearest visible siblings after and before.
pub fn links_are_those_of_visible_rows()
    ensures first { (rules : List StripRule) (rows : List Row) (n k : ℕ) → ((first_shown rules rows n ≡ Some k) ↔ IsFirstVisible rules rows n k) }
    ensures next { (rules : List StripRule) (rows : List Row) (m k : ℕ) → m < length rows → ((next_shown rules rows m ≡ Some k) ↔ IsNextVisible rules rows m k) }
    ensures prev { (rules : List StripRule) (rows : List Row) (m k : ℕ) → m < length rows → ((prev_shown rules rows m ≡ Some k) ↔ IsPrevVisible rules rows m k) }
{}

/// Of the rules that fit an element's name one of the highest import precedence decides, of these one of
/// the highest rank, and of these the last; none decides only where none fits.
pub fn highest_and_last_rule_decides()
    ensures rule { (rules : List StripRule) (row : Row) (rule : StripRule) → best_from None rules row ≡ Some rule → (i : ℕ) × IsDeciding rules row i rule }
    ensures none { (rules : List StripRule) (row : Row) → best_from None rules row ≡ None → (j : ℕ) (other : StripRule) → slice_get rules j ≡ Some other → rule_fits other row ≡ false }
{}

/// The nearest `xml:space` of an ancestor that says `preserve` or `default` decides.
pub fn nearest_space_decides()
    ensures { (rows : List Row) (k : ℕ) → Keeps rows k (keeps_space rows k) }
{}
