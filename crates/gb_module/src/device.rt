//! The device behind a CPort.

ghost use Rattle.std.specs.Prelude.{◌≡◌, false, Some, IfOk, IsOk, IsOkAnd, option_copied};
ghost use Rattle.std.specs.Prelude.{option_map};
ghost use Rattle.gb_base.specs.Bytes.{AreFew};
ghost use Rattle.gb_bridge_payload.specs.Serving.{ServesAs};
ghost use Rattle.gb_firmware.specs.Loading.{bytes_after};
ghost use Rattle.gb_formats.specs.Devices.{device_of, device_step, device_stir, restarted_device};
ghost use Rattle.gb_formats.specs.Devices.{Firmware};
ghost use Rattle.gb_formats.specs.GpioDevice.{gpio_level_set};
ghost use Rattle.gb_formats.specs.Loader.{find_ask, is_running, loader_begun, loader_ended};
ghost use Rattle.gb_formats.specs.Loader.{loader_failed};
ghost use Rattle.gb_formats.specs.ModuleLoads.{loader_of, running_tag, with_loader};
ghost use Rattle.gb_module.specs.Few.{FewSucceed};
ghost use Rattle.gb_module.specs.Loading.{FollowsAs, IsIdle, Runs, RunsOn, follows};
ghost use Rattle.gb_module.specs.Stirring.{IsStir, SetsLevel, StirsAs};
ghost use Rattle.gb_module.specs.Views.{seen, stir_of};
ghost use Rattle.gb_module.specs.declared.stir.Stir.TheVariants as stir;

use crate::stir::{Stir, StirFault};
use gb_base::{Bytes, Next, OutOfMemory, Outcome, OwnAsk, OwnAsks, Served, Tag};
use gb_bridge_payload::gpio_kinds::IRQ_EVENT;
use gb_bridge_payload::{PROTOCOL_BAD, refused};
use gb_firmware::{LoadFault, Loader, Loopback};
use gb_payload::protocols::{FIRMWARE, GPIO, I2C, LOOPBACK, SPI, UART};
use std::alloc::Global;

/// The device behind a CPort, one for each protocol that has one.
#[derive(Drop)]
pub enum Device {
    /// Eight GPIO lines.
    Gpio(gb_gpio::Device),
    /// An I2C adapter with a memory.
    I2c(gb_i2c::Device),
    /// An SPI controller with an echo.
    Spi(gb_spi::Device),
    /// A UART that echoes.
    Uart(gb_uart::Device),
    /// A loopback.
    Loopback(Loopback),
    /// A firmware device, which downloads images.
    Firmware(Loader),
}

impl Device {
    /// The device of a protocol in its first state, None exactly where the protocol has none.
    #[inline(always)]
    pub fn of(alloc: Global, protocol: u8) -> Result<Option<Device>, OutOfMemory>
        ensures { IfOk result (λ device. option_map seen device ≡ device_of protocol) }
    {
        match protocol {
            GPIO => Ok(Some(Device::Gpio(gb_gpio::Device::new(alloc)?))),
            I2C => Ok(Some(Device::I2c(gb_i2c::Device::new(alloc)?))),
            SPI => Ok(Some(Device::Spi(gb_spi::Device::new(alloc)?))),
            UART => Ok(Some(Device::Uart(gb_uart::Device::new(alloc)?))),
            LOOPBACK => Ok(Some(Device::Loopback(Loopback))),
            FIRMWARE => Ok(Some(Device::Firmware(Loader::new(alloc)))),
            _ => Ok(None),
        }
    }

    /// Brings the device back to its first state, but that the levels of GPIO lines stay.
    pub fn restart(&mut self)
        ensures { seen self.new ≡ restarted_device (seen self.old) }
    {
        match self {
            Device::Gpio(gpio) => gpio.restart(),
            Device::I2c(i2c) => i2c.restart(),
            Device::Spi(spi) => spi.restart(),
            Device::Uart(uart) => uart.restart(),
            Device::Loopback(_) => {}
            Device::Firmware(loader) => loader.restart(),
        }
    }

    /// Serves a request of the application processor. An answer of few bytes without requests takes
    /// no memory. After want of memory the device is as before.
    pub fn serve(&mut self, alloc: Global, kind: u8, payload: &[u8]) -> Result<Served, OutOfMemory>
        ensures step { ServesAs (device_step (seen self.old) kind payload.now)
            (seen self.old) (seen self.new) result }
        ensures few { FewSucceed (device_step (seen self.old) kind payload.now).served result }
    {
        match self {
            Device::Gpio(gpio) => gpio.serve(kind, payload),
            Device::I2c(i2c) => i2c.serve(kind, payload),
            Device::Spi(spi) => spi.serve(kind, payload),
            Device::Uart(uart) => uart.serve(kind, payload),
            Device::Loopback(loopback) => loopback.serve(alloc, kind, payload),
            Device::Firmware(_) => Ok(refused(alloc, PROTOCOL_BAD)),
        }
    }

    /// What comes from outside: answers the requests that the device makes then. NoCport exactly
    /// where it isn't of the kind that is meant. After each refusal the device is as before.
    pub fn stir(&mut self, alloc: Global, what: Stir) -> Result<OwnAsks, StirFault>
        requires { IsStir what }
        ensures { StirsAs (device_stir (seen self.old) (stir_of what))
            (seen self.old) (seen self.new) result }
    {
        match self {
            Device::Gpio(gpio) => {
                let Stir::Level { line, value } = what else {
                    return Err(StirFault::NoCport);
                };
                let asks = set_level(alloc, gpio, line, value)?;
                Ok(asks)
            }
            Device::Uart(uart) => {
                let Stir::Serial { control } = what else {
                    return Err(StirFault::NoCport);
                };
                let mut asks = OwnAsks::new(alloc);
                asks.push(uart.state(control)?)?;
                Ok(asks)
            }
            Device::I2c(_) => Err(StirFault::NoCport),
            Device::Spi(_) => Err(StirFault::NoCport),
            Device::Loopback(_) => Err(StirFault::NoCport),
            Device::Firmware(_) => Err(StirFault::NoCport),
        }
    }

    /// The loader of a firmware device, None exactly where it is another device.
    pub fn loader(&self) -> Option<&Loader>
        ensures { option_copied result ≡ loader_of (seen self.now) }
    {
        match self {
            Device::Firmware(loader) => Some(loader),
            _ => None,
        }
    }

    /// A firmware device begins to download the image of a tag: answers its first request. It never
    /// answers want of memory.
    pub fn load(&mut self, tag: &Tag) -> Result<OwnAsk, OutOfMemory>
        requires { IsIdle (loader_of (seen self.old)) }
        ensures ask { IsOkAnd result (λ own. own ≡ find_ask tag.now) }
        ensures device { seen self.new ≡ with_loader (loader_begun tag.now) (seen self.old) }
    {
        match self {
            Device::Firmware(loader) => begin(loader, tag),
            _ => unreachable!(),
        }
    }

    /// The request that a download waits for has ended: answers what follows, None exactly where no
    /// download runs. Only where one goes on with more than 16 bytes it takes memory. After want of
    /// memory the device is as before.
    pub fn ended(&mut self, outcome: &Outcome) -> Result<Option<Next>, OutOfMemory>
        ensures step { FollowsAs Firmware (follows outcome.now (loader_of (seen self.old)))
            (seen self.old) (seen self.new) result }
        ensures runs { RunsOn (loader_of (seen self.new)) result }
        ensures few { AreFew (bytes_after (follows outcome.now (loader_of (seen self.old))))
            → IsOk result }
    {
        match self {
            Device::Firmware(loader) => ended(loader, outcome),
            _ => Ok(None),
        }
    }

    /// The running download fails: answers its tag. It takes no memory.
    pub fn fail(&mut self) -> Tag
        requires { Runs (loader_of (seen self.old)) }
        ensures tag { result ≡ running_tag (loader_of (seen self.old)) }
        ensures device { seen self.new ≡ with_loader loader_failed (seen self.old) }
    {
        match self {
            Device::Firmware(loader) => loader.fail(),
            _ => unreachable!(),
        }
    }
}

/// Sets the level of a line, and answers the request that tells the interrupt, if it is one. After
/// want of memory the level is as before.
fn set_level(
    alloc: Global,
    gpio: &mut gb_gpio::Device,
    line: u8,
    value: u8,
) -> Result<OwnAsks, OutOfMemory>
    requires { IsStir (stir.Level line value) }
    ensures { SetsLevel (gpio_level_set gpio.old line value) gpio.old gpio.new result }
{
    let mut asks = OwnAsks::new(alloc);
    asks.push(OwnAsk {
        kind: IRQ_EVENT,
        payload: Bytes::from_slice(alloc, &[line])?,
        oneway: true,
    })?;
    if gpio.level(line, value).is_some() {
        return Ok(asks);
    }
    Ok(OwnAsks::new(alloc))
}

/// A loader in which no download runs begins one: answers its first request. It never answers want
/// of memory.
fn begin(loader: &mut Loader, tag: &Tag) -> Result<OwnAsk, OutOfMemory>
    requires { is_running loader.old ≡ false }
    ensures ask { IsOkAnd result (λ own. own ≡ find_ask tag.now) }
    ensures loader { loader.new ≡ loader_begun tag.now loader.old }
{
    match loader.begin(tag) {
        Ok(own) => Ok(own),
        Err(LoadFault::Memory(refused)) => Err(refused),
        Err(LoadFault::Running) => unreachable!(),
    }
}

/// The request that a download waits for has ended: answers what follows, None exactly where no
/// download runs. After want of memory the loader is as before.
fn ended(loader: &mut Loader, outcome: &Outcome) -> Result<Option<Next>, OutOfMemory>
    ensures step { FollowsAs (λ l. l) (loader_ended outcome.now loader.old)
        loader.old loader.new result }
    ensures runs { RunsOn (Some loader.new) result }
    ensures few { AreFew (bytes_after (loader_ended outcome.now loader.old)) → IsOk result }
{
    if !loader.is_running() {
        return Ok(None);
    }
    let next = loader.ended(outcome)?;
    Ok(Some(next))
}
