//! Words that are the operations of a transfer.

ghost use Rattle.std.specs.Prelude.{◌≡◌, ℕ, List, Option, IfOk};
ghost use Rattle.gb_script.specs.Tells.{EachWord};

use crate::LineFault;
use crate::rest::Rest;
use gb_base::{OutOfMemory, Sequence};
use std::alloc::Global;

/// An operation of a transfer, as a word spells it.
pub trait OpWord: Drop {
    /// What a word means by the grammar.
    ghost meaning: { List ℕ → Option Self };

    /// The operation that a word spells, None where it spells none.
    fn read(alloc: Global, word: &[u8]) -> Result<Option<Self>, OutOfMemory>
        ensures { IfOk result (λ o. o ≡ meaning word.now) };
}

/// The operations that all words that are left spell.
pub fn operations<T: OpWord>(alloc: Global, rest: Rest<'_>) -> Result<Sequence<T>, LineFault>
    ensures { EachWord T.meaning rest.entry result }
{
    let mut operations = Sequence::new(alloc);
    let mut rest = rest;
    while let Some((word, behind)) = rest.split_first() {
        let Some(operation) = T::read(alloc, word)? else {
            return Err(LineFault::Bad(rest.bad_word()));
        };
        operations.push(operation)?;
        rest = behind;
    }
    Ok(operations)
}
