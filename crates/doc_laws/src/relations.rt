ghost use Rattle.std.specs.Prelude.{◌≡◌, ◌↔◌, ℕ, suc, ◌+◌, ◌<◌, ◌≤◌, true, false, List, length, Some, None};
ghost use Rattle.doc_model.specs.declared.row.Row.{Row};
ghost use Rattle.doc_model.specs.declared.step.Step.{Step};
ghost use Rattle.doc_model.specs.Document.{document_of, is_open};
ghost use Rattle.doc_model.specs.Lawful.{Grows, IsLawful, IsJoined};
ghost use Rattle.doc_model.specs.Relations.{parent_of, is_child, extent_of};
ghost use Rattle.doc_model.specs.Rows.{rows_of};
ghost use Rattle.doc_model.specs.Legal.{IsInnermost};
ghost use Rattle.doc_model.specs.Shut.{IsShut, shut_count, element_count};
ghost use Rattle.doc_model.specs.Subtree.{IsParent, IsChild, IsIn};

/// A row is shut exactly where it is not among the open ones.
pub fn shut_is_not_open()
    ensures { (steps : List Step) (n : ℕ) → IsLawful steps → IsJoined steps n → (IsShut steps n ↔ (is_open steps n ≡ false)) }
{}

/// What is shut stays shut, with its extent.
pub fn shut_stays()
    ensures shut { (before later : List Step) (n : ℕ) → Grows before later → IsLawful later → IsJoined before n → IsShut before n → IsShut later n }
    ensures extent { (before later : List Step) (n : ℕ) → Grows before later → IsLawful later → IsJoined before n → IsShut before n → extent_of (rows_of later) n ≡ extent_of (rows_of before) n }
{}

/// While nothing has ended, the open rows are the root and as many as there are Nodes of elements less
/// Shuts.
pub fn open_rows_are_counted()
    ensures { (steps : List Step) → IsLawful steps → (document_of steps).ended ≡ None → length (document_of steps).opened + shut_count steps ≡ suc (element_count steps) }
{}

/// The innermost open row is the last of the rows that are open.
pub fn innermost_is_the_last_open()
    ensures open { (steps : List Step) (n : ℕ) → IsLawful steps → IsInnermost (document_of steps).opened n → is_open steps n ≡ true }
    ensures last { (steps : List Step) (n k : ℕ) → IsLawful steps → IsInnermost (document_of steps).opened n → IsJoined steps k → is_open steps k ≡ true → k ≤ n }
{}

/// The parent is the greatest earlier element or root of depth one less, of any rows.
pub fn parent_is_the_greatest_above()
    ensures { (rows : List Row) (m n : ℕ) → m < length rows → ((parent_of rows m ≡ Some n) ↔ IsParent rows m n) }
{}

/// The children by their parent are the descendants of depth one more.
pub fn children_are_descendants_one_deeper()
    ensures { (steps : List Step) (n k : ℕ) → IsLawful steps → IsJoined steps k → ((is_child (rows_of steps) n k ≡ true) ↔ IsChild (rows_of steps) n k) }
{}

/// The rows from a row up to its extent are the row, its descendants and their attributes: so the extent
/// is 1 plus the greatest number among these.
pub fn extent_bounds_the_subtree()
    ensures subtree { (steps : List Step) (n k : ℕ) → IsLawful steps → IsJoined steps n → IsJoined steps k → (((n ≤ k) × (k < extent_of (rows_of steps) n)) ↔ IsIn (rows_of steps) n k) }
    ensures within { (steps : List Step) (n : ℕ) → IsLawful steps → IsJoined steps n → extent_of (rows_of steps) n ≤ length (rows_of steps) }
{}
