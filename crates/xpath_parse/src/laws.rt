//! Laws of expressions and patterns.

ghost use Rattle.std.specs.Prelude.{◌≡◌, ℕ, List, Result, Ok, Err};
ghost use Rattle.xpath_grammar.specs.Productions.{Nonterminal, Tree};
ghost use Rattle.xpath_parse.specs.Places.{Answers, IsRefusal, Spells};
ghost use Rattle.xpath_parse.specs.declared.error.ParseError.{ParseError};
ghost use Rattle.xpath_parse.specs.declared.error.ParseError.TheVariants as error;

/// A text has at most one tree, or is refused at one place for one cause, and is never both. So each answer of
/// `expression` and `pattern` comes exactly where its meaning holds, unless memory runs out.
pub fn one_answer()
    ensures tree { (v : Nonterminal) (text : List ℕ) (x y : Tree v) → Spells v text x → Spells v text y → x ≡ y }
    ensures refusal { (v : Nonterminal) (text : List ℕ) (e f : ParseError) → IsRefusal v text e → IsRefusal v text f → e ≡ f }
    ensures not_both { (v : Nonterminal) (text : List ℕ) (x : Tree v) (e : ParseError) → Spells v text x → IsRefusal v text e → ⊥ }
    ensures only { (v : Nonterminal) (text : List ℕ) (x : Tree v) (r : Result (Tree v) ParseError)
        → Spells v text x → Answers v text r → (r ≡ Err error.Memory → ⊥) → r ≡ Ok x }
    ensures refused { (v : Nonterminal) (text : List ℕ) (e : ParseError) (r : Result (Tree v) ParseError)
        → IsRefusal v text e → Answers v text r → (r ≡ Err error.Memory → ⊥) → r ≡ Err e }
{}

/// A text has an answer that is no want of memory, and only one.
pub fn an_answer()
    ensures some { (v : Nonterminal) (text : List ℕ) → (r : Result (Tree v) ParseError) × Answers v text r × (r ≡ Err error.Memory → ⊥) }
    ensures one { (v : Nonterminal) (text : List ℕ) (r s : Result (Tree v) ParseError)
        → Answers v text r → (r ≡ Err error.Memory → ⊥) → Answers v text s → (s ≡ Err error.Memory → ⊥) → r ≡ s }
{}
