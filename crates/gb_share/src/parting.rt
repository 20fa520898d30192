//! Parts the lines of a script by their requesters.

ghost use Rattle.std.specs.Prelude.{◌≡◌, ◌<◌, ◌≤◌, ℕ, [], IfOk, length};
ghost use Rattle.gb_share.specs.Parting.{AreRequesters};
ghost use Rattle.gb_share.specs.Picks.{lines_by};

use crate::requester::Requester;
use gb_base::{Asked, OutOfMemory, Sequence};
use std::alloc::Global;
use std::sync::Arc;

/// The greatest requester that has lines, 0 where none has.
fn greatest(asked: &[Asked]) -> u8
    ensures { (r : ℕ) → result < r → lines_by r asked.now ≡ [] }
{
    let mut greatest = 0;
    for line in asked {
        greatest = greatest.max(line.who);
    }
    greatest
}

/// The requesters of a script with their lines, from 0 to the greatest that has any.
pub fn requesters(alloc: Global, asked: Sequence<Asked>) -> Result<Vec<Requester>, OutOfMemory>
    requires few { length asked ≤ 1048577 }
    ensures { IfOk result (λ all. AreRequesters asked all.items) }
{
    let script = Arc::new(alloc, asked)?;
    let mut all = Vec::new(alloc);
    for who in 0..u16::from(greatest(script.items())) + 1 {
        let requester = Requester::new(alloc, &script, who as u8)?;
        all.push(requester)?;
    }
    Ok(all)
}
