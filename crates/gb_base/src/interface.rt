//! What the application processor knows of interfaces and of its connections to modules.

use crate::{Bytes, ConnState, IntfStage, SequenceStep};

/// An interface that a module was inserted at.
#[derive(Drop)]
pub struct Interface {
    /// The interface, 2 to 31.
    pub intf: u8,
    /// The primary interface of its module.
    pub primary: u8,
    /// Its stage.
    pub stage: IntfStage,
    /// The device id that it is to have, 2 to 31.
    pub device: Option<u8>,
    /// The supervisory controller gave it the device id.
    pub has_device: bool,
    /// The size of its manifest in bytes, as it was told.
    pub size: u16,
    /// Its manifest, empty until it is enumerated.
    pub manifest: Bytes,
    /// The request that its enumeration waits for, and the step.
    pub awaits: Option<(u64, SequenceStep)>,
}

/// A connection of the application processor to a CPort of a module.
#[derive(Clone, Copy, Debug, PartialEq, Eq)]
pub struct Link {
    /// Its number.
    pub connection: u64,
    /// The CPort of the application processor, 1 to 4,095.
    pub ap: u16,
    /// The interface, 2 to 31.
    pub intf: u8,
    /// The CPort of the module, 0 to 4,095.
    pub cport: u16,
    /// The protocol of that CPort.
    pub protocol: u8,
    /// Its state.
    pub state: ConnState,
    /// The bytes that may be sent to a UART before it gives more credits, 4,096 at most.
    pub credits: u16,
    /// The request that its connect or close waits for, and the step.
    pub awaits: Option<(u64, SequenceStep)>,
}
