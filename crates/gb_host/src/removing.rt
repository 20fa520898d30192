//! The removal of a module.

ghost use Rattle.std.specs.Prelude.{◌≡◌, ◌==◌, ◌++◌, ◌∷◌, [], OnOk};
ghost use Rattle.std.specs.List.{list_any};
ghost use Rattle.gb_host.specs.Turning.{spelled};
ghost use Rattle.gb_machine.specs.Host.{interfaces_of};
ghost use Rattle.gb_machine.specs.HostTurns.{host_removed, links_left, links_of, one_by_one};

use crate::connecting::leave;
use crate::failing::tell_interface;
use crate::{Act, Acts, Host};
use gb_base::{IntfStage, Link, OutOfMemory};

impl Host {
    ghost use Rattle.gb_host.specs.Stands.{host_of};
    ghost use Rattle.gb_host.specs.Turning.{TurnsAfter};

    /// The interfaces of a module are absent from now on, one after another: the connections of
    /// each are closed in order of number.
    pub(crate) fn removed(&mut self, acts: &mut Acts, primary: u8) -> Result<(), OutOfMemory>
        ensures { TurnsAfter
            (one_by_one host_removed (interfaces_of primary (host_of self.old)) (host_of self.old))
            acts.old acts.new self.old self.new result }
    {
        let intfs = self.interfaces.of(self.alloc, primary)?;
        self.leave_module(acts, intfs.items())?;
        self.forget(intfs.items());
        Ok(())
    }

    /// Interfaces are left and told to be removed, one after another.
    fn leave_module(&self, acts: &mut Acts, intfs: &[u8]) -> Result<(), OutOfMemory>
        ensures { OnOk result (acts.new
            ≡ acts.old ++ spelled (one_by_one host_removed intfs.now (host_of self.now)).acts) }
    {
        for (i, intf) in intfs.iter().enumerate() {
            let (gone, _) = intfs.split_at(i);
            self.leave_interface(acts, gone, *intf)?;
        }
        Ok(())
    }

    /// An interface is left and told to be removed, once others are gone.
    fn leave_interface(&self, acts: &mut Acts, gone: &[u8], intf: u8) -> Result<(), OutOfMemory>
        ensures { OnOk result (acts.new ≡ acts.old ++ spelled (host_removed intf
            (one_by_one host_removed gone.now (host_of self.now)).host).acts) }
    {
        self.leave_rest(acts, gone, intf)?;
        tell_interface(acts, intf, IntfStage::Removed)?;
        Ok(())
    }

    /// The connections of an interface are closed and given up. One that is gone already has none
    /// left; no run leads to a host that knows a number twice, but each has its turn.
    fn leave_rest(&self, acts: &mut Acts, gone: &[u8], intf: u8) -> Result<(), OutOfMemory>
        ensures { OnOk result (acts.new ≡ acts.old ++ spelled (links_left (links_of intf
            (one_by_one host_removed gone.now (host_of self.now)).host))) }
    {
        if is_among(gone, intf) {
            return Ok(());
        }
        self.leave_all(acts, intf)?;
        Ok(())
    }

    /// The connections of an interface are closed and given up, one after another.
    fn leave_all(&self, acts: &mut Acts, intf: u8) -> Result<(), OutOfMemory>
        ensures { OnOk result (acts.new
            ≡ acts.old ++ spelled (links_left (links_of intf (host_of self.now)))) }
    {
        let links = self.links.of_interface(self.alloc, intf)?;
        close_all(acts, links.items())?;
        Ok(())
    }

    /// Interfaces and their connections are there no more, and the ids of these are free.
    fn forget(&mut self, intfs: &[u8])
        ensures { host_of self.new ≡ (one_by_one host_removed intfs.now (host_of self.old)).host }
    {
        for intf in intfs {
            self.interfaces.remove(*intf);
            self.links.remove_all(&mut self.images, *intf);
        }
    }
}

/// Connections are closed and given up, one after another.
fn close_all(acts: &mut Acts, links: &[Link]) -> Result<(), OutOfMemory>
    ensures { OnOk result (acts.new ≡ acts.old ++ spelled (links_left links.now)) }
{
    for link in links {
        close(acts, *link)?;
    }
    Ok(())
}

/// A connection is closed and given up.
fn close(acts: &mut Acts, link: Link) -> Result<(), OutOfMemory>
    ensures { OnOk result (acts.new ≡ acts.old ++ spelled (links_left (link ∷ []))) }
{
    acts.push(Act::Shut {
        connection: link.connection,
    })?;
    leave(acts, link)?;
    Ok(())
}

/// An interface is one of these.
fn is_among(intfs: &[u8], intf: u8) -> bool
    ensures { result ≡ list_any (λ i. intf == i) intfs.now }
{
    for one in intfs {
        if intf == *one {
            return true;
        }
    }
    false
}
