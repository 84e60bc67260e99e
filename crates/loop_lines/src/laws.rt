//! Laws of the lines, proved as contracts of functions that do nothing.

ghost use Rattle.std.specs.Prelude.{◌≡◌, ◌==◌, ◌≤◌, not, true, ℕ, List, Ok, codes};
ghost use Rattle.std.specs.List.{list_all};
ghost use Rattle.asm_lines.specs.Texts.{content, first_word, after_word};
ghost use Rattle.loop_heads.specs.declared.place.HeadPlace.{HeadPlace};
ghost use Rattle.loop_heads.specs.declared.limits.TheConstants.{BUDGET_LIMIT};
ghost use Rattle.loop_lines.specs.HeadText.{ArePlaces, head_line, budget_line};
ghost use Rattle.loop_lines.specs.Grammar.{IsHeadText, IsBudgetText};
ghost use Rattle.loop_lines.specs.Reading.{budget_of, places_of};

/// A budget and places that were written are read as the same, by the word with which their line
/// begins and what stands after it. So no two lists of places have one line.
pub fn round_trip()
    ensures budget { (n : ℕ) → 1 ≤ n → n ≤ BUDGET_LIMIT →
        (first_word (budget_line n) ≡ codes ".budget") × (budget_of (after_word (budget_line n)) ≡ Ok n) }
    ensures head { (ps : List HeadPlace) → ArePlaces ps →
        (first_word (head_line ps) ≡ codes ".head") × (places_of (after_word (head_line ps)) ≡ Ok ps) }
    ensures one { (ps qs : List HeadPlace) → ArePlaces ps → ArePlaces qs → head_line ps ≡ head_line qs → ps ≡ qs }
{}

/// Such a line has no line feed, and its content is all of it.
pub fn content_of_lines()
    ensures budget { (n : ℕ) → n ≤ BUDGET_LIMIT →
        (content (budget_line n) ≡ budget_line n) × (list_all (λ c. not (c == 10)) (budget_line n) ≡ true) }
    ensures head { (ps : List HeadPlace) → ArePlaces ps →
        (content (head_line ps) ≡ head_line ps) × (list_all (λ c. not (c == 10)) (head_line ps) ≡ true) }
{}

/// A text is read as a budget or as places exactly if it is one of their texts by the grammar.
pub fn grammar()
    ensures budget_read { (text : List ℕ) (n : ℕ) → budget_of text ≡ Ok n → IsBudgetText n text }
    ensures budget_only { (text : List ℕ) (n : ℕ) → IsBudgetText n text → budget_of text ≡ Ok n }
    ensures head_read { (text : List ℕ) (ps : List HeadPlace) → places_of text ≡ Ok ps → IsHeadText ps text }
    ensures head_only { (text : List ℕ) (ps : List HeadPlace) → IsHeadText ps text → places_of text ≡ Ok ps }
{}
