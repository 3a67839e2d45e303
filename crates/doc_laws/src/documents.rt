ghost use Rattle.std.specs.Prelude.{◌≡◌, ◌↔◌, ℕ, ◌+◌, ◌<◌, ◌≤◌, ◌&&◌, nat_lt, true, false, List, length};
ghost use Rattle.std.specs.Str.{is_utf8};
ghost use Rattle.doc_model.specs.declared.node_test.Test.{Test};
ghost use Rattle.doc_model.specs.declared.row.Axis.{Axis};
ghost use Rattle.doc_model.specs.declared.row.Row.{Row};
ghost use Rattle.doc_model.specs.declared.step.Step.{Step};
ghost use Rattle.doc_model.specs.declared.strip_rule.StripRule.{StripRule};
ghost use Rattle.doc_model.specs.Axes.{axis_rows, in_order_of, is_attribute_of, is_selected};
ghost use Rattle.doc_model.specs.Document.{is_member, is_open};
ghost use Rattle.doc_model.specs.Lawful.{IsComplete, IsJoined, IsLawful};
ghost use Rattle.doc_model.specs.Legible.{is_legible};
ghost use Rattle.doc_model.specs.Relations.{attr_count_of, extent_of};
ghost use Rattle.doc_model.specs.Rows.{row_at, rows_of};
ghost use Rattle.doc_model.specs.Values.{value_in};
ghost use Rattle.doc_laws.specs.Ordered.{AscendsFrom};

/// A whole document has no row that is open.
pub fn whole_documents_have_no_open_row()
    ensures { (steps : List Step) (n : ℕ) → IsComplete steps → is_open steps n ≡ false }
{}

/// The subtree of the root is all rows.
pub fn root_holds_every_row()
    ensures { (steps : List Step) → IsLawful steps → extent_of (rows_of steps) 0 ≡ length (rows_of steps) }
{}

/// Each row has a name that a line can give, and its URI and value are UTF-8; so is its string-value.
pub fn rows_are_legible()
    ensures row { (steps : List Step) (n : ℕ) → IsLawful steps → IsJoined steps n → is_legible (row_at (rows_of steps) n) ≡ true }
    ensures value { (rules : List StripRule) (steps : List Step) (n : ℕ) → IsLawful steps → IsJoined steps n → is_utf8 (value_in rules (rows_of steps) n) ≡ true }
{}

/// The attributes of a row are the rows right after it, as many as it has.
pub fn attributes_stand_right_after_their_row()
    ensures { (steps : List Step) (n k : ℕ) → IsLawful steps → IsJoined steps n → IsJoined steps k → (is_attribute_of (rows_of steps) n k ≡ true) ↔ ((n < k) × (k ≤ n + attr_count_of (rows_of steps) n)) }
{}

/// The rows of an axis are those that are selected, each once, in document order or its reverse.
pub fn axes_are_in_order()
    ensures rows { (rules : List StripRule) (rows : List Row) (n : ℕ) (axis : Axis) (test : Test) (k : ℕ) → is_member k (axis_rows rules rows n axis test) ≡ (nat_lt k (length rows) && is_selected rules rows n axis test k) }
    ensures order { (rules : List StripRule) (rows : List Row) (n : ℕ) (axis : Axis) (test : Test) → AscendsFrom 0 (in_order_of axis (axis_rows rules rows n axis test)) }
{}
