//! Laws of the pairs of a capture.

ghost use Rattle.std.specs.Prelude.{◌≡◌, ℕ, List, true};
ghost use Rattle.gb_capture.specs.Pairing.{AreAnsweredBefore, AreApart, AreRising, IsAnswering};
ghost use Rattle.gb_capture.specs.Pairing.{IsClean, IsIn, IsPaired};
ghost use Rattle.gb_formats.specs.Audit.{Pair, is_response, pairs};
ghost use Rattle.gb_formats.specs.Captures.{Heard};

/// Each pair relates a response to one earlier request of the other direction, with its identifier
/// and type.
pub fn each_pair_relates()
    ensures { (ms : List Heard) (pair : Pair) → IsIn pair (pairs ms) → IsPaired ms pair }
{}

/// No request and no response is in two pairs.
pub fn no_message_is_paired_twice()
    ensures { (ms : List Heard) (line : ℕ) → AreRising line ms → AreApart (pairs ms) }
{}

/// In a clean capture each response is in a pair.
pub fn each_response_is_paired()
    ensures { (ms : List Heard) (m : Heard) → IsClean ms → IsIn m ms
        → is_response m.message ≡ true → IsAnswering ms m }
{}

/// In a clean capture no identifier is used again before its request was answered.
pub fn no_identifier_is_used_twice()
    ensures { (ms : List Heard) → IsClean ms → AreAnsweredBefore ms }
{}
