//! Tests of shared types, formats and devices, by their public calls alone: that memory is found,
//! and that what was built does what the contracts say.
#![tactic(auto)]

#[cfg(test)]
mod bad_lines;
#[cfg(test)]
mod base;
#[cfg(test)]
mod bridge_payload;
#[cfg(test)]
mod checks;
#[cfg(test)]
mod firmware;
#[cfg(test)]
mod gpio;
#[cfg(test)]
mod i2c;
#[cfg(test)]
mod line_reader;
#[cfg(test)]
mod loopback;
#[cfg(test)]
mod manifest;
#[cfg(test)]
mod payload;
#[cfg(test)]
mod report;
#[cfg(test)]
mod script;
#[cfg(test)]
mod spi;
#[cfg(test)]
mod uart;
#[cfg(test)]
mod wire;
