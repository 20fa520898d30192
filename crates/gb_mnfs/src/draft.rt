//! What has been read of a manifest's text.

ghost use Rattle.std.specs.Prelude.{◌≡◌, None, OnOk};
ghost use Rattle.gb_formats.specs.Source.{Front, at_start, is_second, missing_line, sections_of};
ghost use Rattle.gb_formats.specs.Source.{with_key, with_line, with_section};
ghost use Rattle.gb_formats.specs.SourceLines as formats;
ghost use Rattle.gb_mnfs.specs.Drafts.{Finishes, Stands, Takes, lacking_or};
ghost use Rattle.gb_mnfs.specs.Sections.{section_of};

use crate::adding::{add, empty_spec};
use crate::form::{Form, form_of};
use crate::mnfs_fault::{LineStop, MnfsFault};
use crate::section::Section;
use gb_base::{MnfsReason, OutOfMemory};
use gb_manifest::ManifestSpec;
use std::alloc::Global;

/// A section that was opened.
#[derive(Drop)]
struct Opened {
    /// The number of its section line.
    line: u64,
    section: Section,
}

/// The sections that have been read.
#[derive(Drop)]
pub struct Draft {
    /// What all sections but the last one say.
    spec: ManifestSpec,
    /// The section line of the first of them that lacks a key.
    lacking: Option<u64>,
    /// There is a header.
    has_header: bool,
    /// There is an interface.
    has_interface: bool,
    /// The last section.
    last: Option<Opened>,
}

impl Draft {
    /// Nothing has been read.
    pub fn new(alloc: Global) -> Draft
        ensures { Stands result at_start }
    {
        Draft {
            spec: empty_spec(alloc),
            lacking: None,
            has_header: false,
            has_interface: false,
            last: None,
        }
    }

    /// Takes a line, which has this number.
    pub fn take(&mut self, alloc: Global, at: u64, line: &[u8]) -> Result<(), LineStop>
        ensures { (f : Front) → Stands self.old f
            → Takes (with_line at (formats.form_of line.now) f) self.new result }
    {
        match form_of(line) {
            Form::Nothing => Ok(()),
            Form::NoLine => Err(LineStop::Bad(MnfsReason::NotALine)),
            Form::Opens(None) => Err(LineStop::Bad(MnfsReason::BadValue)),
            Form::Opens(Some(section)) => self.open(at, section),
            Form::Says { key, value } => self.say(alloc, key, value),
        }
    }

    /// Takes a section line.
    fn open(&mut self, at: u64, section: Section) -> Result<(), LineStop>
        ensures { (f : Front) → Stands self.old f
            → Takes (with_section at (section_of section) (sections_of f)) self.new result }
    {
        if self.is_second(&section) {
            return Err(LineStop::Bad(MnfsReason::Twice));
        }
        self.close()?;
        match &section {
            Section::Header { .. } => self.has_header = true,
            Section::Interface { .. } => self.has_interface = true,
            Section::Words { .. } | Section::Bundle { .. } | Section::Cport { .. } => {}
        }
        self.last = Some(Opened { line: at, section });
        Ok(())
    }

    /// Whether a section can't stand here, since there is one header and one interface.
    fn is_second(&self, section: &Section) -> bool
        ensures { (f : Front) → Stands self.now f
            → result ≡ is_second (section_of section.now) (sections_of f) }
    {
        match section {
            Section::Header { .. } => self.has_header,
            Section::Interface { .. } => self.has_interface,
            Section::Words { .. } => false,
            Section::Bundle { .. } => false,
            Section::Cport { .. } => false,
        }
    }

    /// Takes a key line.
    fn say(&mut self, alloc: Global, key: &[u8], value: &[u8]) -> Result<(), LineStop>
        ensures { (f : Front) → Stands self.old f
            → Takes (with_key f.closed f.last key.now value.now) self.new result }
    {
        let Some(Opened { line, section }) = self.last.take() else {
            return Err(LineStop::Bad(MnfsReason::NotHere));
        };
        let section = section.with(alloc, key, value)?;
        self.last = Some(Opened { line, section });
        Ok(())
    }

    /// Closes the last section.
    fn close(&mut self) -> Result<(), OutOfMemory>
        ensures { (f : Front) → Stands self.old f
            → OnOk result (Stands self.new (record { closed = sections_of f; last = None })) }
    {
        let Some(Opened { line, section }) = self.last.take() else {
            return Ok(());
        };
        self.lacking = lacking_with(self.lacking, line, &section);
        add(section, &mut self.spec)
    }

    /// Where something is missing, once the last section is closed.
    fn missing(&self) -> Option<u64>
        ensures { (f : Front) → Stands self.now f → f.last ≡ None
            → result ≡ missing_line f.closed }
    {
        if self.has_header && self.has_interface {
            self.lacking
        } else {
            Some(0)
        }
    }

    /// The spec of the sections, unless something is missing.
    pub fn finish(mut self) -> Result<ManifestSpec, MnfsFault>
        ensures { (f : Front) → Stands self f → Finishes (sections_of f) result }
    {
        self.close()?;
        if let Some(line) = self.missing() {
            return Err(MnfsFault::Line {
                line,
                reason: MnfsReason::Missing,
            });
        }
        Ok(self.spec)
    }
}

/// The line of the first section that lacks a key, with one section more.
fn lacking_with(before: Option<u64>, line: u64, section: &Section) -> Option<u64>
    ensures { result ≡ lacking_or before line (section_of section.now) }
{
    if before.is_none() && section.lacks_key() {
        Some(line)
    } else {
        before
    }
}
