//! The parties and the bus between them.

ghost use Rattle.std.specs.Prelude.{◌≡◌, [], ◌∷◌, IfOk, OnOk, length};
ghost use Rattle.gb_base.specs.declared.entry.Entry.TheVariants as entry;
ghost use Rattle.gb_formats.specs.Results.{most_payload};
ghost use Rattle.gb_formats.specs.ValidEvents.{IsValid};
ghost use Rattle.gb_machine.specs.State.{State, first_state};

use crate::held::HeldRequests;
use crate::loads::Loads;
use crate::marks::Marks;
use crate::modules::Modules;
use crate::names::Names;
use crate::stop::Stop;
use gb_base::{Entries, Entry, Event, OutOfMemory, Refusal};
use gb_bus::Bus;
use gb_host::{Acts, Host};
use gb_module::Stir;
use gb_switch::Ladder;
use std::alloc::Global;

/// The application processor, the supervisory controller with the power levels of interfaces, the
/// modules, and the bus between them, with the names that requests have, the time, and
/// what is held.
#[derive(Drop)]
pub struct Parties {
    /// Where memory is taken.
    pub alloc: Global,
    /// The connections, the requests and the queues between the parties.
    pub bus: Bus,
    /// The power levels and device ids of interfaces.
    pub ladder: Ladder,
    /// The modules that are plugged.
    pub modules: Modules,
    /// The last requests of firmware devices.
    pub loads: Loads,
    /// The application processor.
    pub host: Host,
    /// The names that requests have.
    pub names: Names,
    /// The supervisory controller has started.
    pub booted: bool,
    /// The time in milliseconds.
    pub time: u64,
    /// The connections of which requests to the far side are held.
    pub holds: Marks,
    /// The requests that were delivered and wait to be answered.
    pub held: HeldRequests,
    /// Room for what the application processor is to do at one notice, whatever stands there.
    pub acts: Acts,
}

impl Parties {
    ghost use Rattle.gb_system.specs.Doing.{EventAs};
    ghost use Rattle.gb_system.specs.Stands.{PartiesStand, PartsStand, PartsStep};

    /// The first state: nothing is plugged, and nothing was sent.
    pub fn new(alloc: Global) -> Result<Parties, OutOfMemory>
        ensures { IfOk result (λ x. PartsStand [] x first_state) }
    {
        Ok(Parties {
            alloc,
            bus: Bus::new(alloc)?,
            ladder: Ladder::new(),
            modules: Modules::new(alloc),
            loads: Loads::new(alloc),
            host: Host::new(alloc)?,
            names: Names::new(alloc),
            booted: false,
            time: 0,
            holds: Marks::new(alloc),
            held: HeldRequests::new(alloc),
            acts: Acts::new(alloc),
        })
    }

    /// Steps one event. What it brings about stands in `told` then, whatever stood there. `room`
    /// has 2,040 bytes, whatever they are.
    pub fn event(
        &mut self,
        e: &Event,
        room: &mut [u8],
        told: &mut Entries,
    ) -> Result<(), OutOfMemory>
        requires valid { IsValid e.now }
        requires room { length room.old ≡ most_payload }
        ensures step { OnOk result ((s : State) → PartiesStand self.old s
            → PartsStep self.new s e.now told.new) }
    {
        tell_alone(told, Entry::Done)?;
        match self.does(e, room, told) {
            Ok(()) => Ok(()),
            Err(Stop::Refused(why)) => {
                tell_refused(why, told)?;
                Ok(())
            }
            Err(Stop::Memory(refused)) => Err(refused),
        }
    }

    /// Does an event and tells what it brings about, or answers why it isn't done. One that is
    /// refused changes nothing.
    #[inline(always)]
    fn does(&mut self, e: &Event, room: &mut [u8], told: &mut Entries) -> Result<(), Stop>
        requires valid { IsValid e.now }
        requires room { length room.old ≡ most_payload }
        ensures step { (s : State) → PartiesStand self.old s
            → EventAs self.new s e.now told.old told.new result }
    {
        match e {
            Event::Boot => self.boot(told),
            Event::Insert { intf, kinds } => self.insert(*intf, kinds, told),
            Event::InsertRaw { intf, manifest } => self.insert_raw(*intf, manifest.items(), told),
            Event::Pull { intf } => self.pull(*intf, told),
            Event::Connect { intf, cport } => self.connect(*intf, *cport, told),
            Event::Disconnect { intf, cport } => self.disconnect(*intf, *cport, told),
            Event::Drain { intf, cport } => self.drain(*intf, *cport, told),
            Event::Send {
                name,
                to,
                kind,
                payload,
                timeout,
            } => self.send(name, *to, *kind, payload.items(), *timeout, told),
            Event::Bridge {
                name,
                intf,
                cport,
                ask,
            } => self.bridge(name, *intf, *cport, ask, room, told),
            Event::Level {
                intf,
                cport,
                line,
                value,
            } => self.stir(
                *intf,
                *cport,
                Stir::Level {
                    line: *line,
                    value: *value,
                },
                told,
            ),
            Event::SerialState {
                intf,
                cport,
                control,
            } => self.stir(*intf, *cport, Stir::Serial { control: *control }, told),
            Event::Deliver { at } => self.deliver(*at, told),
            Event::Settle { most } => self.settle(*most, told),
            Event::Hold { intf, cport } => self.hold(*intf, *cport),
            Event::Answer { intf, cport, place } => self.answer_held(*intf, *cport, *place, told),
            Event::Tick { millis } => self.tick(*millis, told),
            Event::Cancel { name } => self.cancel(name, told),
            Event::Copy { from, to } => self.copy_name(from, to),
            Event::Forget { name } => self.forget_name(name),
            Event::Inject { intf, cport, bytes } => self.inject(*intf, *cport, bytes.items(), told),
            Event::Image { tag, bytes } => self.image(tag, bytes.items()),
            Event::Load { intf, cport, tag } => self.load(*intf, *cport, tag, told),
            Event::Show => self.show(told),
        }
    }
}

/// One entry is told, and nothing else.
#[inline(always)]
fn tell_alone(told: &mut Entries, one: Entry) -> Result<(), OutOfMemory>
    ensures { OnOk result (told.new ≡ one ∷ []) }
{
    told.clear();
    told.push(one)
}

/// It is told that an event is refused, and nothing else.
#[inline(always)]
fn tell_refused(why: Refusal, told: &mut Entries) -> Result<(), OutOfMemory>
    ensures { OnOk result (told.new ≡ entry.Refused why ∷ []) }
{
    tell_alone(told, Entry::Refused { why })
}
