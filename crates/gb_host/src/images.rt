//! The firmware images of the application processor.

ghost use Rattle.std.specs.Prelude.{◌≡◌};
ghost use Rattle.gb_machine.specs.Host as machine;

use crate::Host;
use gb_base::Tag;
use gb_firmware::PutFault;

impl Host {
    ghost use Rattle.gb_host.specs.Images.{GivesAs};
    ghost use Rattle.gb_host.specs.Stands.{Stands};

    /// Gives an image, which firmware devices download by its tag. Taken exactly where the tag has
    /// one. After each refusal nothing has changed. Always the same connection is pending.
    pub fn image(&mut self, tag: &Tag, bytes: &[u8]) -> Result<(), PutFault>
        ensures step { (h : machine.Host) → Stands self.old h
            → GivesAs tag.now bytes.now h self.old self.new result }
        ensures pending { self.new.pending ≡ self.old.pending }
    {
        self.images.put(tag, bytes)
    }
}
