//! Laws of the numbers in bytes, the lowest byte first.

ghost use Rattle.std.specs.Prelude.{◌≡◌, ℕ, ◌<◌, ◌≤◌, List, [], ◌∷◌, length, take};
ghost use Rattle.byteorder.specs.Endian.{little_bytes, little_number};
ghost use Rattle.gb_base.specs.Bytes.{AreBytes};

/// Two bytes are those of the number that is read from them.
pub fn bytes_of_two()
    ensures both { (a b : ℕ) → a < 256 → b < 256
        → little_bytes 2 (little_number 2 (a ∷ b ∷ [])) ≡ a ∷ b ∷ [] }
    ensures front { (xs : List ℕ) → AreBytes xs → 2 ≤ length xs
        → little_bytes 2 (little_number 2 xs) ≡ take 2 xs }
{}

/// Four bytes are those of the number that is read from them.
pub fn bytes_of_four()
    ensures all { (a b c d : ℕ) → a < 256 → b < 256 → c < 256 → d < 256
        → little_bytes 4 (little_number 4 (a ∷ b ∷ c ∷ d ∷ [])) ≡ a ∷ b ∷ c ∷ d ∷ [] }
    ensures front { (xs : List ℕ) → AreBytes xs → 4 ≤ length xs
        → little_bytes 4 (little_number 4 xs) ≡ take 4 xs }
{}
