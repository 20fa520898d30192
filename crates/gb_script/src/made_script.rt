//! The script that is made from a number, its seed.

ghost use Rattle.std.specs.Prelude.{◌≡◌, ◌<◌, ◌≤◌, ◌+◌, ◌-◌, ◌*◌, ◌/◌, ◌%◌, ℕ, IfOk, OnErr, OnOk};
ghost use Rattle.gb_base.specs.declared.event.Event.TheVariants as event;
ghost use Rattle.gb_formats.specs.Made.{made, made_drawn, made_lines};
ghost use Rattle.gb_script.specs.Making.{AreDrawn, further};

use crate::made_table::{by_row, row};
use gb_base::{Event, Kind, Kinds, OutOfMemory};
use std::alloc::Global;
use std::marker::Model;

/// How many lines the script has.
pub const MADE_LINES: u32 = 20_024;

/// How many lines stand before those that are drawn.
const FIRST_LINES: u32 = 23;

/// The generator multiplies its number by this.
const FACTOR: u64 = 1_103_515_245;

/// The generator then adds this.
const ADDEND: u64 = 12_345;

/// The generator's numbers are below this.
const MODULUS: u64 = 2_147_483_648;

/// At most so many deliveries for a settle that is to deliver all.
const ALL: u16 = 60_000;

/// The `k`-th event of the script that is made from a seed. The seed is at most 2,147,483,647, and
/// `k` from 1 to 20,024.
///
/// The script plugs four modules, connects their CPorts, and then has lines that are drawn. A call
/// draws from the seed on, so it takes longer for a line further back: a `Maker` gives all events
/// in order. It fails only where no memory is found.
pub fn made(alloc: Global, seed: u32, k: u32) -> Result<Event, OutOfMemory>
    requires seed { seed ≤ 2147483647 }
    requires first { 1 ≤ k }
    requires last { k ≤ made_lines }
    ensures { IfOk result (λ e. e ≡ made seed k) }
{
    let mut maker = Maker::new(seed);
    for _ in 1..k {
        maker.pass();
    }
    maker.next(alloc)
}

/// The events of a made script, one after the other.
#[derive(Drop)]
pub struct Maker {
    seed: u32,
    /// How many events were given.
    given: u32,
    generator: Generator,
}

impl Model for Maker {
    ghost use Rattle.std.specs.Prelude.{◌-◌};
    ghost use Rattle.gb_script.specs.Making.{AreDrawn, Making};

    ghost Value = { Making };

    ghost view = { λ m. record { seed = m.seed; given = m.given } };

    ghost invariant = { λ m.
        AreDrawn m.seed (m.given - 23) m.generator.number m.generator.named };
}

impl Maker {
    /// Before the first event. The seed is at most 2,147,483,647.
    pub fn new(seed: u32) -> Maker
        requires { seed ≤ 2147483647 }
        ensures seed { result.seed ≡ seed }
        ensures given { result.given ≡ 0 }
    {
        let generator = Generator {
            number: u64::from(seed),
            named: 0,
        };
        Maker {
            seed,
            given: 0,
            generator,
        }
    }

    /// The next event. It fails only where no memory is found, and then the maker is as before.
    pub fn next(&mut self, alloc: Global) -> Result<Event, OutOfMemory>
        requires { self.old.given < made_lines }
        ensures event { IfOk result (λ e. e ≡ made self.old.seed (self.old.given + 1)) }
        ensures ok { OnOk result (self.new ≡ further self.old) }
        ensures err { OnErr result (self.new ≡ self.old) }
    {
        let k = self.given + 1;
        if k <= FIRST_LINES {
            self.pass();
            return Ok(first(k));
        }
        if k == MADE_LINES {
            self.pass();
            return Ok(Event::Settle { most: ALL });
        }
        let line = k - FIRST_LINES;
        let number = next(self.generator.number);
        let event = by_row(alloc, line, self.generator.named, draw(number))?;
        self.generator.keep(line, number);
        self.given = k;
        Ok(event)
    }

    /// Passes over the next event.
    fn pass(&mut self)
        requires { self.old.given < made_lines }
        ensures { self.new ≡ further self.old }
    {
        self.given += 1;
        if self.given > FIRST_LINES {
            let number = next(self.generator.number);
            self.generator.keep(self.given - FIRST_LINES, number);
        }
    }
}

/// A state of the generator.
#[derive(Drop)]
struct Generator {
    /// Its number.
    number: u64,
    /// The last line drawn that names a request, 0 where there is none.
    named: u32,
}

impl Generator {
    /// Keeps the number that was drawn for line `k` of those that are drawn, and the line where it
    /// names a request.
    #[inline(always)]
    fn keep(&mut self, k: u32, number: u64)
        requires first { 1 ≤ k }
        requires small { number < 2147483648 }
        ensures { (seed : ℕ) → AreDrawn seed (k - 1) self.old.number self.old.named
            → number ≡ (self.old.number * 1103515245 + 12345) % 2147483648
            → AreDrawn seed k self.new.number self.new.named }
    {
        self.number = number;
        if row(draw(number)) <= 3 {
            self.named = k;
        }
    }
}

/// Line `k` of those before the first that is drawn.
fn first(k: u32) -> Event
    requires first { 1 ≤ k }
    requires last { k ≤ 23 }
    ensures { (seed : ℕ) → result ≡ made seed k }
{
    if k <= 4 {
        return Event::Insert {
            intf: (k + 1) as u8,
            kinds: Kinds::one(Kind::Bridge),
        };
    }
    if k == 5 {
        return Event::Boot;
    }
    if k == 6 || k == FIRST_LINES {
        return Event::Settle { most: ALL };
    }
    connect(k - 7)
}

/// `connect I C`, of the four CPorts of each of the four modules.
fn connect(place: u32) -> Event
    requires { place < 16 }
    ensures { result ≡ event.Connect (2 + place / 4) (1 + place % 4) }
{
    Event::Connect {
        intf: (2 + place / 4) as u8,
        cport: (1 + place % 4) as u16,
    }
}

/// The generator's number behind this one.
fn next(number: u64) -> u64
    requires { number < 2147483648 }
    ensures value { result ≡ (number * 1103515245 + 12345) % 2147483648 }
    ensures bound { result < 2147483648 }
{
    (number * FACTOR + ADDEND) % MODULUS
}

/// What is drawn by a number: its upper bits.
fn draw(number: u64) -> u64
    ensures { result ≡ number / 65536 }
{
    number / 65536
}
