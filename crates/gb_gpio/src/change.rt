//! Changes of an active line.

/// What a request changes at an active line.
#[derive(Clone, Copy)]
pub enum Change {
    /// Its direction is in.
    In,
    /// Its direction is out, and its value this.
    Out(u8),
    /// Its value is this.
    Value(u8),
    /// It is to be stable so many microseconds.
    Debounce(u16),
    /// Its interrupt type is that of this number.
    Irq(u8),
    /// Its interrupts are masked, or not.
    Mask(bool),
}
