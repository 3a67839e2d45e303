// Laws of numbered texts, each a function that does nothing.
ghost use Rattle.std.specs.Prelude.{◌≡◌, ℕ, List, Some, slice_get};
ghost use Rattle.shared_texts.specs.Numbers.{NoRepeats, number_in};

/// Where no text stands twice, the number of a text is the one place at which it stands.
pub fn a_text_has_its_place_as_its_number()
    ensures { (texts : List (List ℕ)) (text : List ℕ) (k : ℕ) → NoRepeats texts → slice_get texts k ≡ Some text → number_in texts text ≡ k }
{}
