//! The lines of one requester.

ghost use Rattle.std.specs.Prelude.{◌≡◌, ◌<◌, ◌≤◌, [], ◌∷◌, ◌++◌, IfOk, MatchOption, Some, length};
ghost use Rattle.std.specs.Arc.{arc_value};
ghost use Rattle.std.specs.List.{slice_get};
ghost use Rattle.gb_share.specs.Picks.{lines_by};

use gb_base::{Asked, OutOfMemory, Sequence};
use std::alloc::Global;
use std::marker::Model;
use std::sync::Arc;

/// Lines of a script, by their places there: all requesters share the script. A contract sees them
/// as a list.
#[derive(Drop)]
pub struct Lines {
    script: Arc<Sequence<Asked>, Global>,
    places: Vec<u32>,
}

impl Model for Lines {
    ghost use Rattle.std.specs.Prelude.{List, length};
    ghost use Rattle.gb_base.specs.declared.parts.Asked.{Asked};
    ghost use Rattle.std.specs.Arc.{arc_value};
    ghost use Rattle.gb_share.specs.Picks.{AreBelow, picked};

    ghost Value = { List Asked };

    ghost view = { λ l. picked (arc_value l.script) l.places.items };

    ghost invariant = { λ l. AreBelow (length (arc_value l.script)) l.places.items };
}

impl Lines {
    /// The lines of a requester, in order.
    pub fn of(
        alloc: Global,
        script: &Arc<Sequence<Asked>, Global>,
        who: u8,
    ) -> Result<Lines, OutOfMemory>
        requires few { length (arc_value script.now) ≤ 1048577 }
        ensures { IfOk result (λ lines. lines ≡ lines_by who (arc_value script.now)) }
    {
        let lines = script.items();
        let mut places = Vec::new(alloc);
        for place in 0..lines.len() {
            if lines[place].who != who {
                continue;
            }
            places.push(place as u32)?;
        }
        let script = Arc::try_clone(script)?;
        Ok(Lines { script, places })
    }

    /// How many there are.
    pub fn len(&self) -> usize
        ensures { result ≡ length self.now }
    {
        self.places.len()
    }

    /// The line at a place among them.
    pub fn get(&self, at: usize) -> Option<&Asked>
        ensures { MatchOption result (length self.now ≤ at)
            (λ line. slice_get self.now at ≡ Some line.now) }
    {
        let place = self.places.get(at)?;
        let line = &self.script.items()[*place as usize];
        Some(line)
    }
}
