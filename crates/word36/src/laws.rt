//! What holds between the parts of any word, for the proofs of callers: each law is a function that does nothing.

ghost use Rattle.std.specs.Prelude.{◌≡◌, ◌+◌, ◌*◌, ◌^◌, ◌<◌, ℕ, Bool};
ghost use Rattle.word36.specs.Bits.{is_minus, magnitude_of, word_of, address_of, tag_of, decrement_of, prefix_of, with_address, with_decrement};

/// A word is its sign and its magnitude, and each sign and magnitude make one word.
pub fn sign_and_magnitude()
    ensures whole { (w : ℕ) → w < 2 ^ 36 → word_of (is_minus w) (magnitude_of w) ≡ w }
    ensures sign { (minus : Bool) (m : ℕ) → m < 2 ^ 35 → is_minus (word_of minus m) ≡ minus }
    ensures magnitude { (minus : Bool) (m : ℕ) → m < 2 ^ 35 → magnitude_of (word_of minus m) ≡ m }
{}

/// The four fields put together are the word.
pub fn fields()
    ensures { (w : ℕ) → prefix_of w * 2 ^ 33 + decrement_of w * 2 ^ 18 + tag_of w * 2 ^ 15 + address_of w ≡ w }
{}

/// A new address is read back, and no other field changes.
pub fn new_address()
    ensures address { (w v : ℕ) → v < 2 ^ 15 → address_of (with_address w v) ≡ v }
    ensures tag { (w v : ℕ) → v < 2 ^ 15 → tag_of (with_address w v) ≡ tag_of w }
    ensures decrement { (w v : ℕ) → v < 2 ^ 15 → decrement_of (with_address w v) ≡ decrement_of w }
    ensures prefix { (w v : ℕ) → v < 2 ^ 15 → prefix_of (with_address w v) ≡ prefix_of w }
{}

/// A new decrement is read back, and no other field changes.
pub fn new_decrement()
    ensures address { (w v : ℕ) → v < 2 ^ 15 → address_of (with_decrement w v) ≡ address_of w }
    ensures tag { (w v : ℕ) → v < 2 ^ 15 → tag_of (with_decrement w v) ≡ tag_of w }
    ensures decrement { (w v : ℕ) → v < 2 ^ 15 → decrement_of (with_decrement w v) ≡ v }
    ensures prefix { (w v : ℕ) → v < 2 ^ 15 → prefix_of (with_decrement w v) ≡ prefix_of w }
{}
