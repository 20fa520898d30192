//! The loader of a firmware device.

ghost use Rattle.std.specs.Prelude.{◌≡◌, true, false, None, Some, IsOk, MatchOption};
ghost use Rattle.gb_base.specs.Bytes.{AreFew};
ghost use Rattle.gb_firmware.specs.Loading.{BeginsAs, EndsAs, FinishesAs, bytes_after};
ghost use Rattle.gb_formats.specs.Loader.{first_loader, is_running, loader_ended, loader_failed};
ghost use Rattle.gb_formats.specs.Loader.{loader_tag};

use crate::asking::find_ask;
use crate::download::{Awaits, Download, Turn};
use crate::image::Image;
use gb_base::{Bytes, Next, OutOfMemory, Outcome, OwnAsk, Tag};
use std::alloc::Global;
use std::marker::Model;

/// Why no download begins.
#[derive(Clone, Copy, Debug, PartialEq, Eq)]
pub enum LoadFault {
    /// A download runs.
    Running,
    /// No memory was found.
    Memory(OutOfMemory),
}

/// The loader of a module's firmware device, which downloads images of the application processor
/// (Greybus Specification, "Firmware Download Protocol"): FIND, FETCH of one piece after another,
/// and RELEASE. It keeps the image that it downloaded last. A contract sees the running download
/// and that image.
#[derive(Drop)]
pub struct Loader {
    alloc: Global,
    running: Option<Download>,
    kept: Option<Image>,
}

impl Model for Loader {
    ghost use Rattle.gb_formats.specs.Loader as formats;

    ghost Value = { formats.Loader };

    ghost view = { λ l. record { running = l.running; kept = l.kept } };
}

impl Loader {
    /// A loader in its first state: nothing runs, and no image is kept. It takes memory from
    /// `alloc`, and none yet.
    pub fn new(alloc: Global) -> Loader
        ensures { result ≡ first_loader }
    {
        Loader {
            alloc,
            running: None,
            kept: None,
        }
    }

    /// Brings the loader back to its first state.
    pub fn restart(&mut self)
        ensures { self.new ≡ first_loader }
    {
        self.running = None;
        self.kept = None;
    }

    /// Whether a download runs.
    pub fn is_running(&self) -> bool
        ensures { result ≡ is_running self.now }
    {
        self.running.is_some()
    }

    /// Begins to download the image of a tag, and answers the first request. Running exactly where
    /// a download runs; the loader is then as before. It never answers want of memory.
    pub fn begin(&mut self, tag: &Tag) -> Result<OwnAsk, LoadFault>
        ensures step { BeginsAs tag.now self.old self.new result }
        ensures few { is_running self.old ≡ false → IsOk result }
    {
        if self.is_running() {
            return Err(LoadFault::Running);
        }
        self.running = Some(Download {
            tag: tag.copied(),
            awaits: Awaits::Find,
            bytes: Bytes::new(self.alloc),
        });
        Ok(find_ask(self.alloc, tag))
    }

    /// The request that the running download waits for has ended: answers what follows. Only where
    /// the download goes on with more than 16 bytes it takes memory. After want of memory the
    /// loader is as before.
    pub fn ended(&mut self, outcome: &Outcome) -> Result<Next, OutOfMemory>
        requires { is_running self.old ≡ true }
        ensures step { EndsAs outcome.now self.old self.new result }
        ensures few { AreFew (bytes_after (loader_ended outcome.now self.old)) → IsOk result }
    {
        let Some(download) = &mut self.running else {
            unreachable!()
        };
        match download.ended(self.alloc, outcome)? {
            Turn::Asks(own) => Ok(Next::Ask(own)),
            Turn::IsDone => Ok(self.finish()),
            Turn::Fails => Ok(Next::Failed { tag: self.fail() }),
        }
    }

    /// The running download is done: the image is kept.
    fn finish(&mut self) -> Next
        requires { is_running self.old ≡ true }
        ensures { FinishesAs self.old.running self.old self.new result }
    {
        let Some(download) = self.running.take() else {
            unreachable!()
        };
        let Download {
            tag,
            awaits: _,
            bytes,
        } = download;
        let done = Next::Done {
            tag: tag.copied(),
            size: bytes.items().len() as u32,
        };
        self.kept = Some(Image { tag, bytes });
        done
    }

    /// The running download fails: answers its tag. It takes no memory.
    pub fn fail(&mut self) -> Tag
        requires { is_running self.old ≡ true }
        ensures tag { result ≡ loader_tag self.old }
        ensures failed { self.new ≡ loader_failed self.old }
    {
        let Some(download) = self.running.take() else {
            unreachable!()
        };
        download.tag.copied()
    }

    /// The tag and the bytes of the image that was downloaded last, None exactly where no download
    /// is done since the first state. It takes no memory.
    pub fn kept(&self) -> Option<(&Tag, &[u8])>
        ensures { MatchOption result (self.now.kept ≡ None) (λ image. self.now.kept
            ≡ Some (record { tag = image.0.now; bytes = image.1.now })) }
    {
        let image = self.kept.as_ref()?;
        Some((&image.tag, image.bytes.items()))
    }
}
