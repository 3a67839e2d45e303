//! Laws of the grammar.

ghost use Rattle.std.specs.Prelude.{◌≡◌, ℕ, List, Result};
ghost use Rattle.xpath_grammar.specs.Grammar.{production};
ghost use Rattle.xpath_grammar.specs.Productions.{Nonterminal, Tree};
ghost use Rattle.xpath_grammar.specs.Reading.{Answer, Outcome, Reads, whole};
ghost use Rattle.xpath_grammar.specs.Refusal.{Refused};
ghost use Rattle.xpath_grammar.specs.Trees.{IsTree, Limit};
ghost use Rattle.xpath_grammar.specs.Words.{Word};
ghost use Rattle.xpath_grammar.specs.declared.sign.Cause.{Cause};

/// Words are at most one tree, are refused at one place for one cause, and are never both a tree and refused.
pub fn words_have_one_answer()
    ensures tree { (limit : Limit) (d : ℕ) (v : Nonterminal) (ws : List Word) (x y : Tree v) → IsTree limit d v ws x → IsTree limit d v ws y → x ≡ y }
    ensures place { (limit : Limit) (d : ℕ) (v : Nonterminal) (ws : List Word) (b c : Cause) (us vs : List Word)
        → Refused limit d v ws b us → Refused limit d v ws c vs → (b ≡ c) × (us ≡ vs) }
    ensures not_both { (limit : Limit) (d : ℕ) (v : Nonterminal) (ws : List Word) (x : Tree v) (c : Cause) (rest : List Word) → IsTree limit d v ws x → Refused limit d v ws c rest → ⊥ }
{}

/// Reading with one word of look-ahead finds the tree, or else where and why the words are refused.
pub fn reading_is_exact()
    ensures { (limit : Limit) (d : ℕ) (v : Nonterminal) (ws : List Word) (a : Answer v) → Reads limit d v (production v) ws a → Outcome limit d v ws (whole a) }
{}

/// Words are a tree, or are refused at some place for some cause.
pub fn words_have_an_answer()
    ensures { (limit : Limit) (d : ℕ) (v : Nonterminal) (ws : List Word) → (r : Result (Tree v) (Cause × List Word)) × Outcome limit d v ws r }
{}
