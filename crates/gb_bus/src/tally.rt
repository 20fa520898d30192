//! How many requests there are, and how they stand.

ghost use Rattle.std.specs.Prelude.{◌≡◌, ◌≢◌, ℕ, ◌<◌, ◌≤◌, Some};
ghost use Rattle.gb_machine.specs.Bus as machine;
ghost use Rattle.gb_bus.specs.Counting.{Tells, counted_once, no_requests, one_ended, with_one};
ghost use Rattle.gb_bus.specs.Sending.{next_slot, slot_on};

use crate::Bus;
use gb_base::Outcome;

/// How many requests were made, and how many of these stand in each way. Each request is counted
/// once behind the first field.
#[derive(Clone, Copy)]
pub struct Tally {
    /// Requests of both sides.
    pub requests: u64,
    /// Requests that were answered, with whatever result.
    pub answered: u64,
    /// Requests that were given up by a cancel.
    pub cancelled: u64,
    /// Requests that were given up after their time.
    pub timeout: u64,
    /// Requests whose connection ended first.
    pub disconnected: u64,
    /// Unidirectional requests, which get no answer and were sent.
    pub sent: u64,
    /// Requests that are still open.
    pub left_open: u64,
}

impl Tally {
    /// No request was made.
    pub fn none() -> Tally
        ensures { result ≡ no_requests }
    {
        Tally {
            requests: 0,
            answered: 0,
            cancelled: 0,
            timeout: 0,
            disconnected: 0,
            sent: 0,
            left_open: 0,
        }
    }

    /// One more request was made, which ended so, or is open.
    pub fn add(&mut self, outcome: &Option<Outcome>)
        requires once { counted_once self.old ≡ self.old.requests }
        requires room { self.old.requests < 18446744073709551615 }
        ensures { self.new ≡ with_one outcome.now self.old }
    {
        self.requests += 1;
        match outcome {
            None => self.left_open += 1,
            Some(Outcome::Answered { .. }) => self.answered += 1,
            Some(Outcome::Cancelled) => self.cancelled += 1,
            Some(Outcome::Timeout) => self.timeout += 1,
            Some(Outcome::Disconnected) => self.disconnected += 1,
            Some(Outcome::Sent) => self.sent += 1,
        }
    }

    /// An open request ended so.
    pub fn end(&mut self, how: &Outcome)
        requires once { counted_once self.old ≡ self.old.requests }
        requires open { 1 ≤ self.old.left_open }
        ensures { self.new ≡ one_ended how.now self.old }
    {
        self.left_open -= 1;
        match how {
            Outcome::Answered { .. } => self.answered += 1,
            Outcome::Cancelled => self.cancelled += 1,
            Outcome::Timeout => self.timeout += 1,
            Outcome::Disconnected => self.disconnected += 1,
            Outcome::Sent => self.sent += 1,
        }
    }
}

impl Bus {
    ghost use Rattle.gb_bus.specs.Stands.{Around, Stands};

    /// How many requests were made, and how these stand.
    pub fn tally(&self) -> Tally
        ensures { (around : Around) (b : machine.Bus) → Stands around self.now b
            → Tells result b }
    {
        self.slots.tally()
    }

    /// The key of the slot that the next request gets. A slot is used again once nothing asks for
    /// its request.
    pub fn next_slot(&self) -> usize
        ensures next { result ≡ next_slot self.now }
        ensures free { (n : ℕ) → slot_on self.now n ≢ Some result }
    {
        self.slots.next_key()
    }
}
