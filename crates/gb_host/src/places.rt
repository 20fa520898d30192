//! The places that connections to modules have or had.

ghost use Rattle.std.specs.Prelude.{◌≡◌, ◌==◌, ◌<◌, ◌≤◌, ◌∷◌, [], ◌++◌, ◌^◌, true, false, Bool};
ghost use Rattle.std.specs.Prelude.{List};
ghost use Rattle.std.specs.Prelude.{IfSome, Some, length, take};
ghost use Rattle.std.specs.List.{position_from};
ghost use Rattle.std.specs.Vec.{vec_capacity, vec_len};
ghost use Rattle.gb_host.specs.declared.places.Place.{Place};
ghost use Rattle.gb_host.specs.Awaited.{waits_for};
ghost use Rattle.gb_host.specs.Places.{AllRise, has, there_in};

use gb_base::Link;

/// A place of a connection, which may be gone.
#[derive(Clone, Copy)]
pub struct Place {
    /// The connection. One that is gone has its number still.
    pub link: Link,
    /// It is there.
    pub there: bool,
}

/// The connections that are sought.
#[derive(Clone, Copy)]
pub enum Sought {
    /// That with a number.
    Number(u64),
    /// Those to a CPort of an interface.
    End(u8, u16),
    /// Those of an interface.
    Interface(u8),
    /// Those that wait for a request.
    Request(u64),
}

impl Sought {
    ghost use Rattle.gb_host.specs.Sought.{passes};

    /// A connection is one of these.
    #[inline(always)]
    pub fn is(self, link: Link) -> bool
        ensures { result ≡ passes self link }
    {
        match self {
            Sought::Number(connection) => link.connection == connection,
            Sought::End(intf, cport) => link.intf == intf && link.cport == cport,
            Sought::Interface(intf) => link.intf == intf,
            Sought::Request(number) => waits_for(number, link),
        }
    }

    /// Where the first of these that is there has its place.
    #[inline(always)]
    pub fn place(self, places: &[Place], rising: bool) -> Option<usize>
        ensures first { (rising ≡ true → AllRise places.now)
            → result ≡ position_from (has (passes self)) 0 places.now }
        ensures within { IfSome result (λ i. i < length places.now) }
    {
        match self {
            Sought::Number(connection) => place_of(places, rising, connection),
            _ => self.walked(places),
        }
    }

    /// Where the first of these that is there has its place, looked for one by one.
    #[inline(never)]
    fn walked(self, places: &[Place]) -> Option<usize>
        ensures first { result ≡ position_from (has (passes self)) 0 places.now }
        ensures within { IfSome result (λ i. i < length places.now) }
    {
        for (i, place) in places.iter().enumerate() {
            if place.there && self.is(place.link) {
                return Some(i);
            }
        }
        None
    }
}

/// A connection waits for a request.
#[inline]
fn waits_for(number: u64, link: Link) -> bool
    ensures { result ≡ waits_for number link }
{
    match link.awaits {
        Some((request, _)) => request == number,
        None => false,
    }
}

/// A place more is at the end, or nothing changes.
#[inline]
pub fn push(places: &mut Vec<Place>, place: Place) -> bool
    ensures added { result ≡ true → places.new.items ≡ places.old.items ++ place ∷ [] }
    ensures same { result ≡ false → places.new.items ≡ places.old.items }
    ensures room { vec_len places.old < vec_capacity places.old → result ≡ true }
    ensures few { length places.old.items < 2 ^ 63 }
{
    places.push(place).is_ok()
}

/// The place behind the last connection that is there.
#[inline]
pub fn end_there(places: &[Place]) -> usize
    ensures within { result ≤ length places.now }
    ensures same { there_in (take result places.now) ≡ there_in places.now }
{
    let mut end = places.len();
    while end > 0 {
        if places[end - 1].there {
            return end;
        }
        end -= 1;
    }
    end
}

/// The numbers of all rise to that of a connection that is about to go to the end, where they
/// rise. Nothing is said at false.
pub fn rises_to(places: &[Place], link: Link) -> bool
    ensures { (there : Bool) → result ≡ true → AllRise places.now
        → AllRise (places.now ++ record { link = link; there = there } ∷ []) }
{
    if places.is_empty() {
        return true;
    }
    places[places.len() - 1].link.connection < link.connection
}

/// Where the connection with a number that is there has its place.
#[inline(always)]
fn place_of(places: &[Place], rising: bool, connection: u64) -> Option<usize>
    ensures first { (rising ≡ true → AllRise places.now) → result
        ≡ position_from (has (λ l. l.connection == connection)) 0 places.now }
    ensures within { IfSome result (λ i. i < length places.now) }
{
    if !rising {
        return Sought::Number(connection).walked(places);
    }
    let place = place_rising(places, connection)?;
    if !places[place].there {
        return None;
    }
    Some(place)
}

/// The place with a number, where the numbers of all rise. Few are looked at, and four at most
/// where no number is missing from the first to it, or from it to the last.
#[inline(always)]
fn place_rising(places: &[Place], connection: u64) -> Option<usize>
    ensures first { AllRise places.now → result
        ≡ position_from (λ h. h.link.connection == connection) 0 places.now }
    ensures within { IfSome result (λ i. i < length places.now) }
{
    if places.is_empty() {
        return None;
    }
    if connection < places[0].link.connection {
        return None;
    }
    match place_counted(places, connection) {
        Some(place) => Some(place),
        None => place_uncounted(places, connection),
    }
}

/// The place with a number, where the numbers of all rise. Two at most are looked at where no
/// number from it to the last is missing.
#[inline(never)]
fn place_uncounted(places: &[Place], connection: u64) -> Option<usize>
    ensures first { AllRise places.now → result
        ≡ position_from (λ h. h.link.connection == connection) 0 places.now }
    ensures within { IfSome result (λ i. i < length places.now) }
{
    match place_counted_back(places, connection) {
        Some(place) => Some(place),
        None => place_halved(places, connection),
    }
}

/// The place with a number, where the numbers of all rise and none is missing from the first to it.
/// Nothing is said at None.
#[inline(always)]
fn place_counted(places: &[Place], connection: u64) -> Option<usize>
    ensures first { AllRise places.now → IfSome result (λ i.
        position_from (λ h. h.link.connection == connection) 0 places.now ≡ Some i) }
    ensures within { IfSome result (λ i. i < length places.now) }
{
    if places.is_empty() {
        return None;
    }
    let place = connection.saturating_sub(places[0].link.connection) as usize;
    if place < places.len() && places[place].link.connection == connection {
        return Some(place);
    }
    None
}

/// The place with a number, where the numbers of all rise and none is missing from it to the last.
/// Nothing is said at None.
#[inline]
fn place_counted_back(places: &[Place], connection: u64) -> Option<usize>
    ensures first { AllRise places.now → IfSome result (λ i.
        position_from (λ h. h.link.connection == connection) 0 places.now ≡ Some i) }
    ensures within { IfSome result (λ i. i < length places.now) }
{
    if places.is_empty() {
        return None;
    }
    let last = places.len() - 1;
    let back = places[last].link.connection.saturating_sub(connection) as usize;
    let place = last.saturating_sub(back);
    if places[place].link.connection == connection {
        return Some(place);
    }
    None
}

/// The place with a number, where the numbers of all rise, by halving.
#[inline(never)]
fn place_halved(places: &[Place], connection: u64) -> Option<usize>
    ensures first { AllRise places.now → result
        ≡ position_from (λ h. h.link.connection == connection) 0 places.now }
    ensures within { IfSome result (λ i. i < length places.now) }
{
    let place = places.partition_point(|at| at.link.connection < connection);
    if place == places.len() {
        return None;
    }
    let at = places[place];
    if at.link.connection == connection {
        Some(place)
    } else {
        None
    }
}
