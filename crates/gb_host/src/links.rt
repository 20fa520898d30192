//! The connections to modules.

ghost use Rattle.std.specs.Prelude.{◌≡◌, ◌==◌, ◌<◌, ◌∷◌, [], ◌++◌, ◌^◌, true, false};
ghost use Rattle.std.specs.Prelude.{IfOk, OnOk, find, length};
ghost use Rattle.std.specs.List.{filter};
ghost use Rattle.gb_host.specs.Awaited.{waits_for};
ghost use Rattle.gb_host.specs.Indexes.{Rises};
ghost use Rattle.gb_machine.specs.Host.{is_link};
ghost use Rattle.gb_machine.specs.Lists.{at_first, without};

use crate::places::{Place, Sought, end_there, push, rises_to};
use gb_base::{ConnState, Link, OutOfMemory, Sequence, SequenceStep};
use std::alloc::Global;
use std::marker::Model;

/// So many places may be left behind, however few the others are.
const MOST_GONE: usize = 16;

/// A change of a connection.
#[derive(Clone, Copy)]
pub enum LinkChange {
    /// It has a state from now on.
    State(ConnState),
    /// It has so many credits.
    Credits(u16),
    /// It has so many credits fewer, or none.
    Fewer(usize),
    /// Its connect or close waits for this.
    Awaits(Option<(u64, SequenceStep)>),
}

impl LinkChange {
    ghost use Rattle.gb_host.specs.Changes.{link_changed};

    /// The connection with the change.
    #[inline]
    pub fn of(self, link: Link) -> Link
        ensures { result ≡ link_changed self link }
    {
        match self {
            LinkChange::State(state) => Link { state, ..link },
            LinkChange::Credits(credits) => Link { credits, ..link },
            LinkChange::Fewer(taken) => {
                let credits = usize::from(link.credits).saturating_sub(taken) as u16;
                Link { credits, ..link }
            }
            LinkChange::Awaits(awaits) => Link { awaits, ..link },
        }
    }
}

/// The connections to modules in the order in which they were made. A contract sees them alone, and
/// whether one more takes no memory. A connection that is gone leaves its place behind, and nothing
/// moves. Once more than half of the places are left behind, these are given up together, so that a
/// removal costs the others nothing.
#[derive(Drop)]
pub struct Links {
    places: Vec<Place>,
    /// How many places are left behind.
    gone: usize,
    /// The numbers rise.
    rising: bool,
}

impl Model for Links {
    ghost use Rattle.std.specs.Prelude.{◌≡◌, nat_lt, true};
    ghost use Rattle.std.specs.Vec.{vec_capacity, vec_len};
    ghost use Rattle.gb_host.specs.LinkList.{LinkList};

    ghost Value = { LinkList };

    ghost use Rattle.gb_host.specs.Places.{AllRise, there_in};

    ghost view = { λ x. record {
      items = there_in x.places.items;
      room = nat_lt (vec_len x.places) (vec_capacity x.places);
    } };

    ghost invariant = { λ x. x.rising ≡ true → AllRise x.places.items };
}

impl Links {
    ghost use Rattle.gb_host.specs.Changes.{HasRoom, Takes, is_empty, link_changed};
    ghost use Rattle.gb_host.specs.Sought.{passes};

    /// No connections. It takes no memory yet.
    pub fn new(alloc: Global) -> Links
        ensures { is_empty result }
    {
        Links {
            places: Vec::new(alloc),
            gone: 0,
            rising: true,
        }
    }

    /// The connection with a number. Few connections are looked at where numbers rise.
    #[inline]
    pub fn of(&self, connection: u64) -> Option<Link>
        ensures { result ≡ find (λ l. l.connection == connection) self.now.items }
    {
        self.first(Sought::Number(connection))
    }

    /// The connection to a CPort of an interface.
    pub fn at(&self, intf: u8, cport: u16) -> Option<Link>
        ensures { result ≡ find (is_link intf cport) self.now.items }
    {
        self.first(Sought::End(intf, cport))
    }

    /// The connections of an interface, in order. All are looked at.
    pub fn of_interface(&self, alloc: Global, intf: u8) -> Result<Sequence<Link>, OutOfMemory>
        ensures { IfOk result (λ ls. ls ≡ filter (λ l. l.intf == intf) self.now.items) }
    {
        let mut links = Sequence::new(alloc);
        for place in &self.places {
            if place.there && place.link.intf == intf {
                links.push(place.link)?;
            }
        }
        Ok(links)
    }

    /// Numbers rise to that of a connection that is about to go to the end, where they rise. Nothing
    /// is said at false.
    pub fn rises_to(&self, link: Link) -> bool
        ensures { result ≡ true → Rises self.now.items → Rises (self.now.items ++ link ∷ []) }
    {
        self.rising && rises_to(self.places.as_slice(), link)
    }

    /// The connection that waits for a request. All may be looked at.
    #[inline(never)]
    pub fn waiting(&self, number: u64) -> Option<Link>
        ensures { result ≡ find (waits_for number) self.now.items }
    {
        self.first(Sought::Request(number))
    }

    /// A connection more will take no memory.
    pub fn reserve(&mut self) -> Result<(), OutOfMemory>
        ensures room { OnOk result (HasRoom self.new) }
        ensures same { self.new.items ≡ self.old.items }
    {
        self.places.reserve(1)?;
        Ok(())
    }

    /// A connection goes to the end, or nothing changes.
    pub fn add(&mut self, link: Link) -> bool
        ensures added { result ≡ true → self.new.items ≡ self.old.items ++ link ∷ [] }
        ensures same { result ≡ false → self.new.items ≡ self.old.items }
        ensures room { HasRoom self.old → result ≡ true }
        ensures few { length self.old.items < 2 ^ 63 }
    {
        let rises = rises_to(self.places.as_slice(), link);
        self.rising &= rises;
        push(&mut self.places, Place { link, there: true })
    }

    /// The connection with a number is changed. It comes as it was.
    #[inline]
    pub fn change_of(&mut self, connection: u64, change: LinkChange) -> Option<Link>
        ensures was { result ≡ find (λ l. l.connection == connection) self.old.items }
        ensures changed { self.new.items ≡ at_first (λ l. l.connection == connection)
            (link_changed change) self.old.items }
    {
        self.change(Sought::Number(connection), change)
    }

    /// The connection to a CPort of an interface is changed.
    #[inline(never)]
    pub fn change_at(&mut self, intf: u8, cport: u16, change: LinkChange)
        ensures { self.new.items ≡ at_first (is_link intf cport)
            (link_changed change) self.old.items }
    {
        self.change(Sought::End(intf, cport), change);
    }

    /// Takes the connection with a number, and leaves its place behind. None comes where there is
    /// none.
    pub fn take_numbered(&mut self, connection: u64) -> Option<Link>
        ensures link { result ≡ find (λ l. l.connection == connection) self.old.items }
        ensures taken { Rises self.old.items
            → self.new.items ≡ without (λ l. l.connection == connection) self.old.items }
        ensures out { Takes result self.old.items self.new.items }
    {
        self.take(Sought::Number(connection))
    }

    /// Takes the first connection to a CPort of an interface. None comes where there is none.
    pub fn take_at(&mut self, intf: u8, cport: u16) -> Option<Link>
        ensures link { result ≡ find (is_link intf cport) self.old.items }
        ensures out { Takes result self.old.items self.new.items }
    {
        self.take(Sought::End(intf, cport))
    }

    /// Takes the first connection of an interface. None comes where there is none.
    pub fn take_of(&mut self, intf: u8) -> Option<Link>
        ensures link { result ≡ find (λ l. l.intf == intf) self.old.items }
        ensures out { Takes result self.old.items self.new.items }
    {
        self.take(Sought::Interface(intf))
    }

    /// The first of the connections that are sought.
    #[inline(always)]
    fn first(&self, sought: Sought) -> Option<Link>
        ensures { result ≡ find (passes sought) self.now.items }
    {
        let places = self.places.as_slice();
        let place = sought.place(places, self.rising)?;
        Some(places[place].link)
    }

    /// The first of the connections that are sought is changed. It comes as it was.
    #[inline(always)]
    fn change(&mut self, sought: Sought, change: LinkChange) -> Option<Link>
        ensures was { result ≡ find (passes sought) self.old.items }
        ensures changed { self.new.items
            ≡ at_first (passes sought) (link_changed change) self.old.items }
    {
        let place = sought.place(self.places.as_slice(), self.rising)?;
        let link = self.places[place].link;
        self.places[place] = Place {
            link: change.of(link),
            there: true,
        };
        Some(link)
    }

    /// Takes the first of the connections that are sought.
    #[inline]
    fn take(&mut self, sought: Sought) -> Option<Link>
        ensures link { result ≡ find (passes sought) self.old.items }
        ensures out { Takes result self.old.items self.new.items }
    {
        let link = self.leave(sought)?;
        self.tidy();
        Some(link)
    }

    /// The first of the connections that are sought leaves its place behind.
    #[inline]
    fn leave(&mut self, sought: Sought) -> Option<Link>
        ensures link { result ≡ find (passes sought) self.old.items }
        ensures out { Takes result self.old.items self.new.items }
    {
        let place = sought.place(self.places.as_slice(), self.rising)?;
        let link = self.places[place].link;
        self.places[place] = Place { link, there: false };
        self.gone = self.gone.saturating_add(1);
        Some(link)
    }

    /// The places that are left behind at the end are given up, and all where they are many.
    fn tidy(&mut self)
        ensures { self.new.items ≡ self.old.items }
    {
        self.trim();
        if self.gone > MOST_GONE && self.gone > self.places.len() / 2 {
            self.sweep();
        }
    }

    /// The places that are left behind at the end are given up.
    fn trim(&mut self)
        ensures { self.new.items ≡ self.old.items }
    {
        let end = end_there(self.places.as_slice());
        let last = self.places.len().saturating_sub(end);
        self.places.truncate(end);
        self.gone = self.gone.saturating_sub(last);
    }

    /// The places that are left behind are given up.
    fn sweep(&mut self)
        ensures { self.new.items ≡ self.old.items }
    {
        self.places.retain(|place| place.there);
        self.gone = 0;
    }
}
