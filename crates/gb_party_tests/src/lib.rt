//! Tests of the parties, of the bus and what it is made of, and of the desk, by their public calls
//! alone: that memory is found, that what was built does what the contracts say, and that threads
//! share a desk at once.
#![tactic(auto)]

#[cfg(test)]
mod bus;
#[cfg(test)]
mod bus_acts;
#[cfg(test)]
mod bus_injected;
#[cfg(test)]
mod desk;
#[cfg(test)]
mod desk_threads;
#[cfg(test)]
mod host;
#[cfg(test)]
mod labels;
#[cfg(test)]
mod module;
#[cfg(test)]
mod ops;
#[cfg(test)]
mod svc;
#[cfg(test)]
mod switch;
#[cfg(test)]
mod turning;
