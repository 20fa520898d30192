//! The connections to modules, with what is kept to look them up.

ghost use Rattle.std.specs.Prelude.{◌≡◌, ◌==◌, ◌<◌, ◌∷◌, [], ◌++◌, true, None, IfOk, OnOk};
ghost use Rattle.std.specs.Prelude.{Bool, List, find, map};
ghost use Rattle.std.specs.List.{filter, list_any};
ghost use Rattle.gb_base.specs.declared.interface.Link.{Link};
ghost use Rattle.gb_host.specs.Awaited.{AreAwaited, waits_for};
ghost use Rattle.gb_host.specs.Changes.{link_awaits};
ghost use Rattle.gb_host.specs.Counts.{AreCounted};
ghost use Rattle.gb_host.specs.Indexes.{Rises};
ghost use Rattle.gb_host.specs.Named.{AreNamed};
ghost use Rattle.gb_host.specs.Numbers.{numbers_where};
ghost use Rattle.gb_machine.specs.Host.{all_forgotten, in_state, is_link};
ghost use Rattle.gb_machine.specs.HostServing.{with_credits};
ghost use Rattle.gb_machine.specs.Lists.{at_first, first_free, without};
ghost use Rattle.gb_machine.specs.Waits.{link_waits};

use crate::awaited::Awaited;
use crate::cports::Cports;
use crate::ends::Ends;
use crate::links::{LinkChange, Links};
use crate::waiting::purpose_in;
use gb_base::{ConnState, Link, OutOfMemory, Purpose, Sequence, SequenceStep};
use gb_firmware::Images;
use gb_groups::Groups;
use std::alloc::Global;
use std::marker::Model;

/// The connections to modules in the order in which they were made. A contract sees them alone. The
/// rest is kept so that a look-up or a removal doesn't go over all of them: the CPorts of the
/// application processor that they have, and the numbers of those at each far end, of each
/// interface, and that wait for each request. Where numbers don't rise, two have one far end or
/// wait for one request, or no memory was found, far ends, numbers and requests aren't known, and
/// are looked for one by one.
#[derive(Drop)]
pub struct Connections {
    links: Links,
    cports: Cports,
    ends: Ends,
    numbers: Groups,
    awaited: Awaited,
    known: bool,
}

impl Model for Connections {
    ghost use Rattle.gb_host.specs.LinkList.{LinkList};

    ghost Value = { LinkList };

    ghost use Rattle.gb_host.specs.Indexes.{AreIndexed};

    ghost view = { λ x. x.links };

    ghost invariant = { λ x.
        AreIndexed x.cports x.ends x.numbers x.awaited x.known x.links.items };
}

impl Connections {
    ghost use Rattle.gb_host.specs.Changes.{HasRoom, is_empty, link_awaits, link_changed};
    ghost use Rattle.gb_host.specs.Changes.{with_fewer};

    /// No connections.
    pub fn new(alloc: Global) -> Result<Connections, OutOfMemory>
        ensures { IfOk result (λ x. is_empty x) }
    {
        Ok(Connections {
            links: Links::new(alloc),
            cports: Cports::new(alloc)?,
            ends: Ends::new(alloc),
            numbers: Groups::new(alloc)?,
            awaited: Awaited::new(alloc),
            known: true,
        })
    }

    /// The connection to a CPort of an interface.
    #[inline(always)]
    pub fn at(&self, intf: u8, cport: u16) -> Option<Link>
        ensures { result ≡ find (is_link intf cport) self.now.items }
    {
        if !self.known {
            return self.links.at(intf, cport);
        }
        let number = self.ends.number(intf, cport)?;
        self.links.of(number)
    }

    /// The connection with a number.
    #[inline]
    pub fn of(&self, connection: u64) -> Option<Link>
        ensures { result ≡ find (λ l. l.connection == connection) self.now.items }
    {
        self.links.of(connection)
    }

    /// The connections of an interface in order.
    pub fn of_interface(&self, alloc: Global, intf: u8) -> Result<Sequence<Link>, OutOfMemory>
        ensures { IfOk result (λ ls. ls ≡ filter (λ l. l.intf == intf) self.now.items) }
    {
        if self.known {
            numbered(alloc, &self.links, self.numbers.of(intf))
        } else {
            self.links.of_interface(alloc, intf)
        }
    }

    /// The least CPort of the application processor from 1 to 4,095 that no connection has.
    pub fn free_cport(&self) -> Option<u16>
        ensures { result ≡ first_free (λ a. list_any (λ l. l.ap == a) self.now.items) 4095 1 }
    {
        self.cports.free()
    }

    /// The purpose of a request that a connect or close waits for.
    #[inline]
    pub fn waiting(&self, number: u64) -> Option<Purpose>
        ensures { result ≡ link_waits number self.now.items }
    {
        let link = self.waiting_for(number)?;
        purpose_in(number, link.intf, link.cport, link.awaits)
    }

    /// What the connect or close of a connection waits for.
    #[inline]
    pub fn awaits(&self, intf: u8, cport: u16) -> Option<(u64, SequenceStep)>
        ensures { at_first (is_link intf cport) (link_awaits result)
            (at_first (is_link intf cport) (link_awaits None) self.now.items)
            ≡ self.now.items }
    {
        match self.at(intf, cport) {
            Some(link) => link.awaits,
            None => None,
        }
    }

    /// The state of a connection that another state is about to replace.
    #[inline]
    pub fn state(&self, intf: u8, cport: u16, to: ConnState) -> ConnState
        ensures { at_first (is_link intf cport) (in_state result)
            (at_first (is_link intf cport) (in_state to) self.now.items)
            ≡ self.now.items }
    {
        match self.at(intf, cport) {
            Some(link) => link.state,
            None => to,
        }
    }

    /// A connection more will take no memory.
    pub fn reserve(&mut self) -> Result<(), OutOfMemory>
        ensures room { OnOk result (HasRoom self.new) }
        ensures same { self.new.items ≡ self.old.items }
    {
        self.links.reserve()
    }

    /// The connection to a CPort of an interface is there no more.
    pub fn remove(&mut self, intf: u8, cport: u16)
        ensures { self.new.items ≡ without (is_link intf cport) self.old.items }
    {
        if !self.known {
            leave_at(&mut self.links, &mut self.cports, intf, cport);
            return;
        }
        if let Some(number) = self.ends.number(intf, cport) {
            leave(
                &mut self.links,
                &mut self.cports,
                &mut self.ends,
                &mut self.awaited,
                number,
            );
            self.numbers.remove(intf, number);
        }
    }

    /// The connections of an interface are there no more, and their ids are free.
    pub fn remove_all(&mut self, images: &mut Images, intf: u8)
        ensures left { self.new.items ≡ without (λ l. l.intf == intf) self.old.items }
        ensures ids { images.new
            ≡ all_forgotten (filter (λ l. l.intf == intf) self.old.items) images.old }
    {
        if !self.known {
            leave_of(&mut self.links, &mut self.cports, images, intf);
            return;
        }
        let numbers = self.numbers.of(intf);
        free(images, numbers);
        leave_all(
            &mut self.links,
            &mut self.cports,
            &mut self.ends,
            &mut self.awaited,
            numbers,
        );
        self.numbers.clear(intf);
    }

    /// A connection goes to the end, where there is room.
    pub fn add(&mut self, link: Link)
        ensures { HasRoom self.old → self.new.items ≡ self.old.items ++ link ∷ [] }
    {
        let rises = self.links.rises_to(link);
        if self.links.add(link) {
            self.cports.take(link);
            let named = self.ends.add(link);
            let there = self.numbers.add(link.intf, link.connection).is_ok();
            self.known &= rises & named & there & link.awaits.is_none();
        }
    }

    /// A connection has a state from now on.
    pub fn set_state(&mut self, intf: u8, cport: u16, to: ConnState)
        ensures { self.new.items
            ≡ at_first (is_link intf cport) (in_state to) self.old.items }
    {
        self.change(intf, cport, LinkChange::State(to));
    }

    /// A connection has so many credits.
    pub fn set_credits(&mut self, intf: u8, cport: u16, total: u16)
        ensures { self.new.items
            ≡ at_first (is_link intf cport) (with_credits total) self.old.items }
    {
        self.change(intf, cport, LinkChange::Credits(total));
    }

    /// A connection has so many credits fewer, or none.
    pub fn spend(&mut self, intf: u8, cport: u16, taken: usize)
        ensures { self.new.items
            ≡ at_first (is_link intf cport) (with_fewer taken) self.old.items }
    {
        self.change(intf, cport, LinkChange::Fewer(taken));
    }

    /// The connect or close of a connection waits for this.
    pub fn set_awaits(&mut self, intf: u8, cport: u16, awaits: Option<(u64, SequenceStep)>)
        ensures { self.new.items
            ≡ at_first (is_link intf cport) (link_awaits awaits) self.old.items }
    {
        if !self.known {
            self.links
                .change_at(intf, cport, LinkChange::Awaits(awaits));
            return;
        }
        if let Some(number) = self.ends.number(intf, cport) {
            self.known = await_other(&mut self.links, &mut self.awaited, number, awaits);
        }
    }

    /// The connection that waits for a request.
    #[inline]
    fn waiting_for(&self, number: u64) -> Option<Link>
        ensures { result ≡ find (waits_for number) self.now.items }
    {
        if !self.known {
            return self.links.waiting(number);
        }
        let connection = self.awaited.of(number)?;
        self.links.of(connection)
    }

    /// A connection is changed, but not what it waits for.
    fn change(&mut self, intf: u8, cport: u16, change: LinkChange)
        requires { (l : Link) → (link_changed change l).awaits ≡ l.awaits }
        ensures { self.new.items
            ≡ at_first (is_link intf cport) (link_changed change) self.old.items }
    {
        if !self.known {
            self.links.change_at(intf, cport, change);
            return;
        }
        if let Some(number) = self.ends.number(intf, cport) {
            self.links.change_of(number, change);
        }
    }
}

/// The connection with a number waits for this from now on. Whether it is known which connections
/// wait, where it was: nothing is said at false.
fn await_other(
    links: &mut Links,
    awaited: &mut Awaited,
    number: u64,
    awaits: Option<(u64, SequenceStep)>,
) -> bool
    ensures changed { links.new.items ≡ at_first (λ l. l.connection == number)
        (link_awaits awaits) links.old.items }
    ensures awaited { result ≡ true → AreAwaited awaited.old links.old.items
        → AreAwaited awaited.new links.new.items }
{
    match links.change_of(number, LinkChange::Awaits(awaits)) {
        Some(link) => awaited.change(link, awaits),
        None => true,
    }
}

/// The connection with a number is there no more, where numbers rise.
fn leave(
    links: &mut Links,
    cports: &mut Cports,
    ends: &mut Ends,
    awaited: &mut Awaited,
    number: u64,
)
    ensures left { Rises links.old.items
        → links.new.items ≡ without (λ l. l.connection == number) links.old.items }
    ensures counted { AreCounted cports.old links.old.items
        → AreCounted cports.new links.new.items }
    ensures named { AreNamed ends.old links.old.items → AreNamed ends.new links.new.items }
    ensures awaited { AreAwaited awaited.old links.old.items
        → AreAwaited awaited.new links.new.items }
{
    if let Some(link) = links.take_numbered(number) {
        cports.leave(link);
        ends.remove(link.intf, link.cport);
        awaited.leave(link);
    }
}

/// The connections with these numbers are there no more, where numbers rise and these are the
/// numbers of all that pass a test.
fn leave_all(
    links: &mut Links,
    cports: &mut Cports,
    ends: &mut Ends,
    awaited: &mut Awaited,
    numbers: &[u64],
)
    ensures left { (test : Link → Bool) → Rises links.old.items
        → numbers.now ≡ numbers_where test links.old.items
        → links.new.items ≡ without test links.old.items }
    ensures counted { Rises links.old.items → AreCounted cports.old links.old.items
        → AreCounted cports.new links.new.items }
    ensures named { Rises links.old.items → AreNamed ends.old links.old.items
        → AreNamed ends.new links.new.items }
    ensures awaited { Rises links.old.items → AreAwaited awaited.old links.old.items
        → AreAwaited awaited.new links.new.items }
{
    for number in numbers {
        leave(links, cports, ends, awaited, *number);
    }
}

/// The connections to a CPort of an interface are there no more.
fn leave_at(links: &mut Links, cports: &mut Cports, intf: u8, cport: u16)
    ensures left { links.new.items ≡ without (is_link intf cport) links.old.items }
    ensures counted { AreCounted cports.old links.old.items
        → AreCounted cports.new links.new.items }
{
    while let Some(link) = links.take_at(intf, cport) {
        cports.leave(link);
    }
}

/// The connections of an interface are there no more, and their ids are free.
fn leave_of(links: &mut Links, cports: &mut Cports, images: &mut Images, intf: u8)
    ensures left { links.new.items ≡ without (λ l. l.intf == intf) links.old.items }
    ensures counted { AreCounted cports.old links.old.items
        → AreCounted cports.new links.new.items }
    ensures ids { images.new
        ≡ all_forgotten (filter (λ l. l.intf == intf) links.old.items) images.old }
{
    while let Some(link) = links.take_of(intf) {
        cports.leave(link);
        images.forget(link.connection);
    }
}

/// The ids of the connections with these numbers are free.
fn free(images: &mut Images, numbers: &[u64])
    ensures { (ls : List Link) → numbers.now ≡ map (λ l. l.connection) ls
        → images.new ≡ all_forgotten ls images.old }
{
    for number in numbers {
        images.forget(*number);
    }
}

/// The connections with these numbers, where numbers rise and these are the numbers of all that
/// pass a test.
fn numbered(alloc: Global, links: &Links, numbers: &[u64]) -> Result<Sequence<Link>, OutOfMemory>
    ensures { IfOk result (λ found. (test : Link → Bool) → Rises links.now.items
        → numbers.now ≡ numbers_where test links.now.items
        → found ≡ filter test links.now.items) }
{
    let mut found = Sequence::new(alloc);
    for number in numbers {
        if let Some(link) = links.of(*number) {
            found.push(link)?;
        }
    }
    Ok(found)
}
