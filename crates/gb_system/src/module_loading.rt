//! What follows in the downloads of one module.

ghost use Rattle.std.specs.Prelude.{◌≡◌};
ghost use Rattle.gb_formats.specs.ModuleLoads.{loader_at};
ghost use Rattle.gb_module.specs.Loading.{EndsAs, RunsToAsk};
ghost use Rattle.gb_system.specs.Loading.{follows_at, unmade};

use gb_base::{Next, OutOfMemory, Outcome};
use gb_module::Module;

/// What follows at a CPort of a module whose request ended, None exactly where no download runs
/// there. Where no request can be made, the download fails in place of one. After want of memory
/// the module is as before.
pub fn ended(
    body: &mut Module,
    cport: u16,
    how: &Outcome,
    can: bool,
) -> Result<Option<Next>, OutOfMemory>
    ensures { EndsAs (follows_at can cport how.now body.old) body.old body.new result }
{
    let Some(next) = body.ended(cport, how)? else {
        return Ok(None);
    };
    if can {
        return Ok(Some(next));
    }
    let next = unmade(body, cport, next);
    Ok(Some(next))
}

/// What follows where no request can be made: the download fails in place of one.
fn unmade(body: &mut Module, cport: u16, next: Next) -> Next
    requires { RunsToAsk (loader_at body.old cport) next }
    ensures { record { after = body.new; next = result }
        ≡ unmade next cport (record { after = body.old; next = next }) }
{
    let Next::Ask(_) = &next else {
        return next;
    };
    Next::Failed {
        tag: body.fail(cport),
    }
}
