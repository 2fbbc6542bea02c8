//! What holds between characters, codes and words, for the proofs of callers: each law is a function that does nothing.

ghost use Rattle.std.specs.Prelude.{◌≡◌, ◌^◌, ◌<◌, ℕ, List, length, map, true, Some, All};
ghost use Rattle.std.specs.List.{list_all};
ghost use Rattle.std.specs.Option.{option_map};
ghost use Rattle.bcd48.specs.Characters.{is_character, is_code, code_of, char_of};
ghost use Rattle.bcd48.specs.Words.{packed, codes_in, characters_of};

/// A character's code prints as that character, and a code that a character has is the code of what it prints as.
pub fn both_ways()
    ensures character { (b : ℕ) → is_character b ≡ true → option_map char_of (code_of b) ≡ Some b }
    ensures code { (c : ℕ) → is_code c ≡ true → code_of (char_of c) ≡ Some c }
{}

/// A word of six codes has those codes and prints as their characters, and a word is packed from its six codes.
pub fn packing()
    ensures codes { (cs : List ℕ) → length cs ≡ 6 → All (λ c. c < 64) cs → codes_in (packed cs) ≡ cs }
    ensures text { (cs : List ℕ) → length cs ≡ 6 → All (λ c. c < 64) cs
        → characters_of (packed cs) ≡ map char_of cs }
    ensures word { (w : ℕ) → w < 2 ^ 36 → packed (codes_in w) ≡ w }
{}

/// The characters are ASCII, and every word prints as characters alone.
pub fn printing()
    ensures ascii { (b : ℕ) → is_character b ≡ true → b < 128 }
    ensures word { (w : ℕ) → list_all is_character (characters_of w) ≡ true }
{}
