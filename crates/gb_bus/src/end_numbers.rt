//! The numbers of connections by their ends.

ghost use Rattle.std.specs.Prelude.{◌≡◌, None, OnErr, OnOk};
ghost use Rattle.gb_bus.specs.Index.{GetsNumber, KeepsNumbers, LosesNumber, number_at};

use gb_base::{End, OutOfMemory};
use gb_switch::Place;
use std::collections::HashMap;

/// Two ends that have no number get that of their connection. After want of memory all is as
/// before.
pub fn set(
    ends: &mut HashMap<Place, u64>,
    near: End,
    far: End,
    number: u64,
) -> Result<(), OutOfMemory>
    requires near { number_at ends.old near ≡ None }
    requires far { number_at ends.old far ≡ None }
    ensures set { OnOk result (GetsNumber ends.old ends.new near far number) }
    ensures unchanged { OnErr result (KeepsNumbers ends.old ends.new) }
{
    let (one, other) = (Place::of(near), Place::of(far));
    ends.insert(one, number)?;
    match ends.insert(other, number) {
        Ok(_) => Ok(()),
        Err(refused) => {
            ends.remove(&one);
            Err(OutOfMemory::from(refused))
        }
    }
}

/// Two ends have no number any more.
pub fn unset(ends: &mut HashMap<Place, u64>, near: End, far: End)
    ensures { LosesNumber ends.old ends.new near far }
{
    ends.remove(&Place::of(near));
    ends.remove(&Place::of(far));
}
