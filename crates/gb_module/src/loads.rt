//! Firmware downloads of a module.

ghost use Rattle.std.specs.Prelude.{◌≡◌, None, Some, IsOk, IsOkAnd, MatchOption};
ghost use Rattle.gb_base.specs.Bytes.{AreFew};
ghost use Rattle.gb_firmware.specs.Loading.{bytes_after};
ghost use Rattle.gb_formats.specs.Loader.{find_ask};
ghost use Rattle.gb_formats.specs.ModuleLoads.{kept_at, loader_at, module_ended, module_fail};
ghost use Rattle.gb_formats.specs.ModuleLoads.{module_load, tag_at};
ghost use Rattle.gb_module.specs.Loading.{EndsAs, Runs, RunsOn, follows, load_refusal, refusal_in};

use crate::module::Module;
use gb_base::{Next, OutOfMemory, Outcome, OwnAsk, Refusal, Tag};

impl Module {
    /// Whether the firmware device of a CPort can begin a download. NoCport exactly where there is
    /// none, else NoConnection exactly where the CPort isn't on, else Occupied exactly where a
    /// download runs there. It takes no memory.
    pub fn may_load(&self, cport: u16) -> Result<(), Refusal>
        ensures { load_refusal self.now cport ≡ refusal_in result }
    {
        match self.ports.get(cport) {
            Some(port) => port.may_load(),
            None => Err(Refusal::NoCport),
        }
    }

    /// The firmware device of a CPort begins to download the image of a tag: answers its first
    /// request. It never answers want of memory.
    pub fn load(&mut self, cport: u16, tag: &Tag) -> Result<OwnAsk, OutOfMemory>
        requires { load_refusal self.old cport ≡ None }
        ensures ask { IsOkAnd result (λ own. own ≡ find_ask tag.now) }
        ensures module { self.new ≡ module_load self.old cport tag.now }
    {
        self.ports.load(cport, tag)
    }

    /// The request of a CPort that was made last has ended: answers what follows in the download
    /// that runs there, None exactly where none runs. Where the CPort isn't on, it fails in place
    /// of a next request. A next request is answered only where the download still runs. Only
    /// where it goes on with more than 16 bytes it takes memory. After want of memory the module
    /// is as before.
    pub fn ended(&mut self, cport: u16, outcome: &Outcome) -> Result<Option<Next>, OutOfMemory>
        ensures step { EndsAs (module_ended self.old cport outcome.now) self.old self.new result }
        ensures runs { RunsOn (loader_at self.new cport) result }
        ensures few { AreFew (bytes_after (follows outcome.now (loader_at self.old cport)))
            → IsOk result }
    {
        self.ports.ended(cport, outcome)
    }

    /// The download that runs at a CPort fails: answers its tag. It takes no memory.
    pub fn fail(&mut self, cport: u16) -> Tag
        requires { Runs (loader_at self.old cport) }
        ensures tag { result ≡ tag_at self.old cport }
        ensures module { self.new ≡ module_fail self.old cport }
    {
        self.ports.fail(cport)
    }

    /// The tag and the bytes of the image that the firmware device of a CPort keeps, None exactly
    /// where it keeps none or there is no such device. It takes no memory.
    pub fn kept(&self, cport: u16) -> Option<(&Tag, &[u8])>
        ensures { MatchOption result (kept_at self.now cport ≡ None) (λ image.
            kept_at self.now cport ≡ Some (record { tag = image.0.now; bytes = image.1.now })) }
    {
        let port = self.ports.get(cport)?;
        let loader = port.loader()?;
        loader.kept()
    }
}
