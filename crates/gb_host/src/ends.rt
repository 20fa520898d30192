//! The connections by their far ends.

ghost use Rattle.std.specs.Prelude.{◌≡◌, ◌==◌, ◌<◌, ◌∷◌, [], ◌++◌, true, List, find, option_map};
ghost use Rattle.gb_base.specs.declared.interface.Link.{Link};
ghost use Rattle.gb_host.specs.Named.{end_number};
ghost use Rattle.gb_machine.specs.Host.{is_link};
ghost use Rattle.gb_machine.specs.Lists.{without};

use gb_base::Link;
use std::alloc::Global;
use std::collections::HashMap;

/// How many numbers a CPort can have.
const CPORTS: u32 = 65_536;

/// The number of the connection at each far end: an interface and its CPort, as one number. One is
/// there at most.
#[derive(Drop)]
pub struct Ends {
    numbers: HashMap<u32, u64>,
}

impl Ends {
    ghost use Rattle.gb_host.specs.Named.{AreNamed};

    /// No far ends. It takes no memory yet.
    pub fn new(alloc: Global) -> Ends
        ensures { AreNamed result [] }
    {
        Ends {
            numbers: HashMap::new(alloc),
        }
    }

    /// The number of the connection to a CPort of an interface.
    #[inline]
    pub fn number(&self, intf: u8, cport: u16) -> Option<u64>
        ensures { (ls : List Link) → AreNamed self.now ls
            → result ≡ option_map (λ l. l.connection) (find (is_link intf cport) ls) }
    {
        self.numbers.get(&far_end(intf, cport)).copied()
    }

    /// A connection more is at its far end, where none is there yet and memory is found.
    pub fn add(&mut self, link: Link) -> bool
        ensures { (ls : List Link) → AreNamed self.old ls → result ≡ true
            → AreNamed self.new (ls ++ link ∷ []) }
    {
        let end = far_end(link.intf, link.cport);
        if self.numbers.contains_key(&end) {
            return false;
        }
        self.numbers.insert(end, link.connection).is_ok()
    }

    /// No connection is at a far end any more.
    pub fn remove(&mut self, intf: u8, cport: u16)
        ensures { (ls : List Link) → AreNamed self.old ls
            → AreNamed self.new (without (is_link intf cport) ls) }
    {
        self.numbers.remove(&far_end(intf, cport));
    }
}

/// A CPort of an interface, as one number.
#[inline]
fn far_end(intf: u8, cport: u16) -> u32
    ensures number { result ≡ end_number intf cport }
    ensures fits { cport < 65536 }
{
    u32::from(intf) * CPORTS + u32::from(cport)
}
