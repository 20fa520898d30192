//! The ids under which images are lent.

ghost use Rattle.std.specs.Prelude.{◌≡◌, ◌==◌, true, false, [], ◌∷◌, ◌++◌, IfSome, MatchOption};
ghost use Rattle.std.specs.Prelude.{OnErr, OnOk, find, option_copied, option_map};
ghost use Rattle.std.specs.List.{list_any};
ghost use Rattle.gb_formats.specs.Images as formats;
ghost use Rattle.gb_formats.specs.Lists.{first_free, without};

use gb_base::{OutOfMemory, Tag, sum};
use std::alloc::Global;
use std::collections::BTreeMap;
use std::marker::Model;

/// What is lent under an id of a connection.
#[derive(Drop)]
struct Lent {
    number: u64,
    tag: Tag,
}

/// The ids of connections under which images are lent. Each loan has a number, which counts those
/// that were lent before it. It is found by its connection and its id, so no call goes over the
/// loans of other connections. A contract sees the loans in the order in which they were lent.
#[derive(Drop)]
pub struct Loans {
    lent: BTreeMap<(u64, u8), Lent>,
    count: u64,
}

impl Model for Loans {
    ghost use Rattle.std.specs.Prelude.{List};
    ghost use Rattle.gb_formats.specs.Images as formats;

    ghost Value = { List formats.Loan };

    ghost use Rattle.gb_firmware.specs.Numbered.{AreNumbered, loans_of};

    ghost view = { λ l. loans_of l.count l.lent.entries };

    ghost invariant = { λ l. AreNumbered l.count l.lent };
}

impl Loans {
    /// Nothing is lent. It takes memory from `alloc`, and none yet.
    pub fn new(alloc: Global) -> Loans
        ensures { result ≡ [] }
    {
        Loans {
            lent: BTreeMap::new(alloc),
            count: 0,
        }
    }

    /// The tag of the image that is lent under an id of a connection.
    pub fn tag(&self, connection: u64, id: u8) -> Option<&Tag>
        ensures { option_copied result
            ≡ option_map (λ l. l.tag) (find (formats.is_loan connection id) self.now) }
    {
        let lent = self.lent.get(&(connection, id))?;
        Some(&lent.tag)
    }

    /// The least id of a connection from 1 to 255 that isn't in use.
    pub fn free_id(&self, connection: u64) -> Option<u8>
        ensures least { result
            ≡ first_free (λ id. list_any (formats.is_loan connection id) self.now) 255 1 }
        ensures unused { IfSome result
            (λ id. list_any (formats.is_loan connection id) self.now ≡ false) }
    {
        for id in 1..=255 {
            if !self.is_lent(connection, id) {
                return Some(id);
            }
        }
        None
    }

    /// Lends the image of a tag under an id that isn't in use. After want of memory the loans are
    /// as before. It also comes where so many were lent that one more has no number of 64 bits.
    pub fn lend(&mut self, connection: u64, id: u8, tag: Tag) -> Result<(), OutOfMemory>
        requires { list_any (formats.is_loan connection id) self.old ≡ false }
        ensures ok { OnOk result (self.new ≡ self.old
            ++ record { connection = connection; id = id; tag = tag } ∷ []) }
        ensures err { OnErr result (self.new ≡ self.old) }
    {
        let count = sum(self.count, 1)?;
        let lent = Lent {
            number: self.count,
            tag,
        };
        self.lent.insert((connection, id), lent)?;
        self.count = count;
        Ok(())
    }

    /// Frees an id of a connection, and answers whether it was in use.
    pub fn free(&mut self, connection: u64, id: u8) -> bool
        ensures lent { result ≡ list_any (formats.is_loan connection id) self.old }
        ensures freed { self.new ≡ without (formats.is_loan connection id) self.old }
    {
        self.lent.remove(&(connection, id)).is_some()
    }

    /// Frees all ids of a connection.
    pub fn forget(&mut self, connection: u64)
        ensures { self.new ≡ without (λ l. l.connection == connection) self.old }
    {
        while let Some(id) = self.first_id(connection) {
            self.free(connection, id);
        }
    }

    /// Whether an image is lent under an id of a connection.
    fn is_lent(&self, connection: u64, id: u8) -> bool
        ensures { result ≡ list_any (formats.is_loan connection id) self.now }
    {
        self.lent.contains_key(&(connection, id))
    }

    /// The least id of a connection that is in use.
    fn first_id(&self, connection: u64) -> Option<u8>
        ensures { MatchOption result
            (list_any (λ l. l.connection == connection) self.now ≡ false)
            (λ id. list_any (formats.is_loan connection id) self.now ≡ true) }
    {
        let (key, _) = self.lent.range((connection, 0)..).next()?;
        if key.0 == connection {
            Some(key.1)
        } else {
            None
        }
    }
}
