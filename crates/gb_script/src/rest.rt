//! The words of a line that are left, taken one by one.

ghost use Rattle.std.specs.Prelude.{◌≡◌, ◌≤◌, [], length, Some, None, IfOk, MatchOption};
ghost use Rattle.std.specs.Prelude.{MatchResult};
ghost use Rattle.gb_base.specs.declared.event.Event.{Event};
ghost use Rattle.gb_base.specs.declared.reasons.LineReason.TheVariants as bad;
ghost use Rattle.gb_formats.specs.BridgeForms.{literal_word};
ghost use Rattle.gb_formats.specs.Said.{at_end};
ghost use Rattle.gb_formats.specs.WordValues.{intf_word, cport_word, count_word, from_one_word};
ghost use Rattle.gb_formats.specs.WordValues.{hex_word, kind_word};
ghost use Rattle.gb_formats.specs.WordValues.{level_word, name_word, number_word};
ghost use Rattle.gb_formats.specs.WordValues.{pin_word, tag_word, type_word};
ghost use Rattle.gb_formats.specs.WordValues.{u8_word, u16_word, u32_word};
ghost use Rattle.gb_formats.specs.Words.{words};
ghost use Rattle.gb_script.specs.Tells.{GoesOn, GoesOnAt, IsSplit, StopsAt, StopsBy, StopsWith};

use crate::LineFault;
use crate::hex_words::{hex_word, type_word};
use crate::values::{kind_word, name_word, number_word};
use crate::words::{first_word, is};
use gb_base::{Bytes, Kind, LineReason, Name, Tag};
use std::alloc::Global;
use std::marker::Model;

/// The words of a line that are left, and the place of the first of them. Places count from 1.
#[derive(Drop)]
pub struct Rest<'a> {
    line: &'a [u8],
    place: u32,
}

impl<'a> Model for Rest<'a> {
    ghost use Rattle.std.specs.Prelude.{ℕ, List, ◌+◌, ◌≤◌, length};
    ghost use Rattle.gb_formats.specs.Words.{words};

    ghost Value = { ℕ × List (List ℕ) };

    ghost view = { λ r. (r.place, words r.line.now) };

    // a word takes at least one byte of a line of at most 8,192
    ghost invariant = { λ r. r.place + length r.line.now ≤ 8194 };
}

impl<'a> Rest<'a> {
    /// The words behind the first one of a line.
    pub fn behind_first(line: &'a [u8]) -> Rest<'a>
        requires { length line.now ≤ 8192 }
        ensures { result ≡ (2, words line.now) }
    {
        Rest { line, place: 2 }
    }

    /// The next word, and the words behind it. None where no word is left.
    pub fn split_first(&self) -> Option<(&'a [u8], Rest<'a>)>
        ensures { MatchOption result (self.now.1 ≡ []) (λ f. IsSplit self.now f.0.now f.1) }
    {
        let (word, line) = first_word(self.line)?;
        Some((
            word,
            Rest {
                line,
                place: self.place + 1,
            },
        ))
    }

    /// The next word, whatever it is.
    pub fn next(&self) -> Result<(&'a [u8], Rest<'a>), LineReason>
        ensures { MatchResult result
            (λ f. IsSplit self.now f.0.now f.1)
            (λ why. (self.now.1 ≡ []) × (why ≡ bad.MissingWord self.now.0)) }
    {
        self.split_first()
            .ok_or(LineReason::MissingWord(self.place))
    }

    /// Says that the next word is bad.
    pub fn bad_word(&self) -> LineReason
        ensures { result ≡ bad.BadWord self.now.0 }
    {
        LineReason::BadWord(self.place)
    }

    /// Says that the next word is one too many.
    pub fn extra_word(&self) -> LineReason
        ensures { result ≡ bad.ExtraWord self.now.0 }
    {
        LineReason::ExtraWord(self.place)
    }

    /// No word may be left.
    pub fn end(&self) -> Result<(), LineReason>
        ensures { MatchResult result
            (λ _. self.now.1 ≡ [])
            (λ why. (e : Event) → at_end self.now e ≡ Err why) }
    {
        match first_word(self.line) {
            Some(_) => Err(self.extra_word()),
            None => Ok(()),
        }
    }

    /// The word `word`, and no other.
    pub fn literal(&self, word: &str) -> Result<Rest<'a>, LineReason>
        ensures { MatchResult result
            (λ rest. GoesOn (literal_word word.now) self.now word.now rest)
            (λ why. StopsWith (literal_word word.now) self.now why) }
    {
        let (found, rest) = self.next()?;
        if is(found, word) {
            Ok(rest)
        } else {
            Err(self.bad_word())
        }
    }

    /// What the next word means, and the words behind it, or that the word is bad.
    pub fn fits<T: Drop>(
        &self,
        meaning: Option<T>,
        behind: Rest<'a>,
    ) -> Result<(T, Rest<'a>), LineReason>
        ensures { MatchResult result
            (λ f. (meaning ≡ Some f.0) × (f.1 ≡ behind.entry))
            (λ why. (meaning ≡ None) × (why ≡ bad.BadWord self.now.0)) }
    {
        match meaning {
            Some(value) => Ok((value, behind)),
            None => Err(self.bad_word()),
        }
    }

    /// A number from `least` to `greatest`.
    fn number(&self, least: u32, greatest: u32) -> Result<(u32, Rest<'a>), LineReason>
        ensures meaning { MatchResult result
            (λ f. GoesOn (number_word least greatest) self.now f.0 f.1)
            (λ why. StopsWith (number_word least greatest) self.now why) }
        ensures bound { IfOk result (λ f. f.0 ≤ greatest) }
    {
        let (word, rest) = self.next()?;
        self.fits(number_word(word, least, greatest), rest)
    }

    /// A number of one byte from `least` to `greatest`.
    fn u8_number(&self, least: u8, greatest: u8) -> Result<(u8, Rest<'a>), LineReason>
        ensures { MatchResult result
            (λ f. GoesOn (number_word least greatest) self.now f.0 f.1)
            (λ why. StopsWith (number_word least greatest) self.now why) }
    {
        let (number, rest) = self.number(u32::from(least), u32::from(greatest))?;
        Ok((number as u8, rest))
    }

    /// A number of two bytes from `least` to `greatest`.
    fn u16_number(&self, least: u16, greatest: u16) -> Result<(u16, Rest<'a>), LineReason>
        ensures { MatchResult result
            (λ f. GoesOn (number_word least greatest) self.now f.0 f.1)
            (λ why. StopsWith (number_word least greatest) self.now why) }
    {
        let (number, rest) = self.number(u32::from(least), u32::from(greatest))?;
        Ok((number as u16, rest))
    }

    /// I: an interface that a module can have, 2 to 31.
    pub fn intf(&self) -> Result<(u8, Rest<'a>), LineReason>
        ensures { MatchResult result
            (λ f. GoesOn intf_word self.now f.0 f.1)
            (λ why. StopsWith intf_word self.now why) }
    {
        self.u8_number(2, 31)
    }

    /// C or A: a CPort, 0 to 4,095.
    pub fn cport(&self) -> Result<(u16, Rest<'a>), LineReason>
        ensures { MatchResult result
            (λ f. GoesOn cport_word self.now f.0 f.1)
            (λ why. StopsWith cport_word self.now why) }
    {
        self.u16_number(0, 4095)
    }

    /// `I C`.
    pub fn intf_cport(&self) -> Result<(u8, u16, Rest<'a>), LineReason>
        ensures { MatchResult result
            (λ f. GoesOnAt self.now f.0 f.1 f.2)
            (λ why. StopsAt self.now why) }
    {
        let (intf, rest) = self.intf()?;
        let (cport, rest) = rest.cport()?;
        Ok((intf, cport, rest))
    }

    /// A number of one byte.
    pub fn byte(&self) -> Result<(u8, Rest<'a>), LineReason>
        ensures { MatchResult result
            (λ f. GoesOn u8_word self.now f.0 f.1)
            (λ why. StopsWith u8_word self.now why) }
    {
        self.u8_number(0, 255)
    }

    /// A number of two bytes.
    pub fn two_bytes(&self) -> Result<(u16, Rest<'a>), LineReason>
        ensures { MatchResult result
            (λ f. GoesOn u16_word self.now f.0 f.1)
            (λ why. StopsWith u16_word self.now why) }
    {
        self.u16_number(0, 65535)
    }

    /// A number of four bytes.
    pub fn four_bytes(&self) -> Result<(u32, Rest<'a>), LineReason>
        ensures { MatchResult result
            (λ f. GoesOn u32_word self.now f.0 f.1)
            (λ why. StopsWith u32_word self.now why) }
    {
        self.number(0, u32::MAX)
    }

    /// MS or K: a number of four bytes that isn't 0.
    pub fn from_one(&self) -> Result<(u32, Rest<'a>), LineReason>
        ensures { MatchResult result
            (λ f. GoesOn from_one_word self.now f.0 f.1)
            (λ why. StopsWith from_one_word self.now why) }
    {
        self.number(1, u32::MAX)
    }

    /// N: a number of two bytes that isn't 0.
    pub fn count(&self) -> Result<(u16, Rest<'a>), LineReason>
        ensures { MatchResult result
            (λ f. GoesOn count_word self.now f.0 f.1)
            (λ why. StopsWith count_word self.now why) }
    {
        self.u16_number(1, 65535)
    }

    /// A line of the GPIO device, 0 to 7.
    pub fn pin(&self) -> Result<(u8, Rest<'a>), LineReason>
        ensures { MatchResult result
            (λ f. GoesOn pin_word self.now f.0 f.1)
            (λ why. StopsWith pin_word self.now why) }
    {
        self.u8_number(0, 7)
    }

    /// The level of a GPIO line, 0 or 1.
    pub fn level(&self) -> Result<(u8, Rest<'a>), LineReason>
        ensures { MatchResult result
            (λ f. GoesOn level_word self.now f.0 f.1)
            (λ why. StopsWith level_word self.now why) }
    {
        self.u8_number(0, 1)
    }

    /// `@x`: a name of requester `who`.
    #[inline(always)]
    pub fn name(&self, who: u8) -> Result<(Name, Rest<'a>), LineReason>
        ensures { MatchResult result
            (λ f. GoesOn (name_word who) self.now f.0 f.1)
            (λ why. StopsWith (name_word who) self.now why) }
    {
        let (word, rest) = self.next()?;
        self.fits(name_word(word, who), rest)
    }

    /// A kind of interface.
    pub fn kind(&self) -> Result<(Kind, Rest<'a>), LineReason>
        ensures { MatchResult result
            (λ f. GoesOn kind_word self.now f.0 f.1)
            (λ why. StopsWith kind_word self.now why) }
    {
        let (word, rest) = self.next()?;
        self.fits(kind_word(word), rest)
    }

    /// TAG: the tag of a firmware image.
    pub fn tag(&self) -> Result<(Tag, Rest<'a>), LineReason>
        ensures { MatchResult result
            (λ f. GoesOn tag_word self.now f.0 f.1)
            (λ why. StopsWith tag_word self.now why) }
    {
        let (word, rest) = self.next()?;
        self.fits(Tag::from_bytes(word), rest)
    }

    /// TYPE: the type of a request, 00 to 7f.
    pub fn request_type(&self) -> Result<(u8, Rest<'a>), LineReason>
        ensures { MatchResult result
            (λ f. GoesOn type_word self.now f.0 f.1)
            (λ why. StopsWith type_word self.now why) }
    {
        let (word, rest) = self.next()?;
        self.fits(type_word(word), rest)
    }

    /// HEX: bytes.
    pub fn bytes(&self, alloc: Global) -> Result<(Bytes, Rest<'a>), LineFault>
        ensures { MatchResult result
            (λ f. GoesOn hex_word self.now f.0 f.1)
            (λ fault. StopsBy fault (StopsWith hex_word self.now)) }
    {
        let (word, rest) = self.next()?;
        match hex_word(alloc, word)? {
            Some(bytes) => Ok((bytes, rest)),
            None => Err(LineFault::Bad(self.bad_word())),
        }
    }
}
