//! Marks in one word.

ghost use Rattle.std.specs.Prelude.{◌≡◌, ◌<◌, ℕ};
ghost use Rattle.std.specs.Int.{bit_at};
ghost use Rattle.gb_labels.specs.Marks.{FindsUnset};

/// How many marks a word has.
pub const BITS: u32 = 64;

/// The place of the least bit of a word, from a place on, that isn't set.
pub fn first_unset(word: u64, from: u32) -> Option<u32>
    requires { from < BITS }
    ensures { FindsUnset word from result }
{
    let below = (1u64 << from) - 1;
    let taken = word | below;
    if taken == u64::MAX {
        return None;
    }
    Some(taken.trailing_ones())
}
