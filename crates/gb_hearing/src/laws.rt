//! The law on what the application processor hears. It speaks of every run of valid events.

ghost use Rattle.gb_hearing.specs.Hearing.{CleanWasClean, HeardHasNoFinding, NothingFound};

/// A live connection that is clean was clean before each moment of the run at which it was live.
pub fn clean_was_always_clean()
    ensures { CleanWasClean }
{}

/// The audit finds nothing in what the application processor hears of a connection that is clean
/// before each moment of a run at which it is live, whether it is live at the end or not.
pub fn nothing_is_found_while_clean()
    ensures { NothingFound }
{}

/// The audit finds nothing in what the application processor hears of a connection that is clean at
/// the end of a run: each response that it takes answers the last request of its identifier, which
/// has its type and had no response yet, and no identifier is used again before it was answered.
pub fn heard_has_no_finding()
    ensures { HeardHasNoFinding }
{}
