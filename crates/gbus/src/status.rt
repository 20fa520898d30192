//! How a run ends.

ghost use Rattle.std.specs.Prelude.{◌≡◌};
ghost use Rattle.gbus.specs.Endings.{status_of};

use gb_base::{OutOfMemory, Status};

/// How a run ended: with a status that isn't 6, or with what was refused, for which 6 stands.
pub type Ended = Result<Status, OutOfMemory>;

/// The status of a run. No other function makes status 6.
pub fn status_of(ended: Ended) -> Status
    ensures { result ≡ status_of ended }
{
    match ended {
        Ok(status) => status,
        Err(_) => Status::NoMemory,
    }
}
