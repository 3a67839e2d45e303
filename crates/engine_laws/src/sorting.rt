ghost use Rattle.std.specs.Prelude.{◌≡◌, ℕ, List, IsPermutation, IsSorted, length};
ghost use Rattle.std.specs.List.{range_with_len};
ghost use Rattle.engine_meaning.specs.Sorts.{sorted_places_of};
ghost use Rattle.sort_keys.specs.Order.{place_cmp};
ghost use Rattle.sort_keys.specs.declared.key.How.{How};
ghost use Rattle.sort_keys.specs.declared.key.KeyPart.{KeyPart};

/// Items in the order of their sort keys stand at the one list of all their places that is sorted by the keys, and
/// where these are equal by themselves (XSLT 1.0, section 10).
pub fn sorted_places_are_the_one_sorted_list()
    ensures { (hows : List How) (rows : List (List KeyPart)) (places : List ℕ) → IsPermutation (range_with_len 0 (length rows)) places → IsSorted (place_cmp hows rows) places → places ≡ sorted_places_of hows rows }
{}
