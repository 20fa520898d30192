//! What a pass knows, the rule of the desk, and what each step tells. No value of a view is made.

use crate::journal::Journal;
use crate::stored::Stored;
use crate::ticket::Ticket;
use atomic_table::{Join, Play, Split, TableRule};
use gb_base::Numbers;
use gb_system::System;
use std::collections::LinkedList;
use std::marker::{Brand, PhantomData};
use std::snapshot::Snapshot;

/// What a pass knows. It exists in clauses alone.
pub struct View {
    /// The history that was seen.
    pub seen: Journal,
    /// What a pass that was joined has seen, until it is known which of the two is longer.
    pub beside: Journal,
    /// The places of its own entries in the history, and of those of passes that were joined.
    pub mine: Numbers,
    /// Its parts of the right to close the desk.
    pub parts: u64,
    /// How often it was answered Busy.
    pub met: u64,
    /// How often it was split.
    pub cuts: u64,
    /// Whether it knows that an event found no memory.
    pub told: bool,
    /// The tickets that it holds.
    pub tickets: LinkedList<Ticket>,
    /// The requests that it counts as found with tickets in its last turn.
    pub used: Numbers,
    /// While it holds the turn, a slot of which it found no ticket.
    pub clear: Option<u64>,
    /// The system with which the desk was made.
    pub first: Option<System>,
    /// While it holds the turn, what it took.
    pub out: Option<Stored>,
}

/// The rule of the desk.
pub struct Law;

impl TableRule<Stored, View, Snapshot<System>> for Law {
    ghost use Rattle.gb_desk.specs.Rules.{Kept};
    ghost use Rattle.gb_desk.specs.Calls.{first_view};

    ghost holds = { λ k s. Kept k.value s };

    ghost first = { λ k. first_view k.value };
}

/// One try to take the turn.
pub struct Take;

impl Play<Stored, View> for Take {
    ghost use Rattle.gb_desk.specs.Steps.{Takes};

    ghost then = { Takes };
}

/// The turn is given back.
pub struct Give;

impl Play<Stored, View> for Give {
    ghost use Rattle.gb_desk.specs.Steps.{Gives};

    ghost then = { Gives };
}

/// The turn is given back, and nothing was changed in it.
pub struct Leave;

impl Play<Stored, View> for Leave {
    ghost use Rattle.gb_desk.specs.Steps.{Leaves};

    ghost then = { Leaves };
}

/// In a turn the count of a slot's tickets is read.
pub struct Look;

impl Play<Stored, View> for Look {
    ghost use Rattle.gb_desk.specs.Steps.{Looks};

    ghost then = { Looks };
}

/// In a turn the first ticket of a request is made.
pub struct First;

impl Play<Stored, View> for First {
    ghost use Rattle.gb_desk.specs.Steps.{Opens};

    ghost then = { Opens };
}

/// One more ticket of a request is made.
pub struct Retain;

impl Play<Stored, View> for Retain {
    ghost use Rattle.gb_desk.specs.Steps.{Retains};

    ghost then = { Retains };
}

/// A ticket is given back.
pub struct Release;

impl Play<Stored, View> for Release {
    ghost use Rattle.gb_desk.specs.Steps.{Releases};

    ghost then = { Releases };
}

/// Of what two passes had seen the longer stays.
pub struct Settle;

impl Play<Stored, View> for Settle {
    ghost use Rattle.gb_desk.specs.Steps.{Settles};

    ghost then = { Settles };
}

/// How many parts are cut off. Each call picks it.
pub trait Count {
    ghost use Rattle.std.specs.Prelude.{ℕ};

    ghost count: { ℕ };
}

impl Count for Brand {
    ghost count = { 0 };
}

/// A pass is cut in two.
pub struct Cut<C> {
    of: PhantomData<C>,
}

impl<C: Count> Split<View> for Cut<C> {
    ghost use Rattle.gb_desk.specs.Steps.{goes, stays};

    ghost left = { λ v. stays C.count v };

    ghost right = { λ v. goes C.count v };
}

/// Two passes are made one.
pub struct Glue;

impl Join<View> for Glue {
    ghost use Rattle.gb_desk.specs.Rules.{spent};
    ghost use Rattle.gb_desk.specs.Steps.{both};

    ghost both = { both };

    ghost spent = { spent };
}
