//! Reads and writes the payloads of the bridged protocols, GPIO, I2C, SPI, UART and Loopback, and
//! of Firmware Download.
#![tactic(auto)]

mod bridge_fault;
mod carried;
mod firmware_ask;
pub mod firmware_kinds;
mod firmware_reply;
mod gpio_ask;
pub mod gpio_kinds;
mod gpio_reply;
mod i2c_ask;
pub mod i2c_kinds;
mod i2c_reply;
mod limits;
mod loopback_ask;
pub mod loopback_kinds;
mod loopback_reply;
mod reading;
mod served;
mod spi_ask;
pub mod spi_kinds;
mod spi_reply;
mod transfer_entry;
mod transfer_op;
mod uart_ask;
pub mod uart_kinds;
mod uart_reply;
mod writing;

pub use bridge_fault::BridgeFault;
pub use carried::Carried;
pub use firmware_ask::{FirmwareAsk, TAG_FIELD};
pub use firmware_reply::FirmwareReply;
pub use gb_payload::{
    INVALID, NONEXISTENT, OVERFLOW, PROTOCOL_BAD, PayloadFault, RETRY, SUCCESS, fault_result,
};
pub use gpio_ask::GpioAsk;
pub use gpio_reply::GpioReply;
pub use i2c_ask::I2cAsk;
pub use i2c_reply::I2cReply;
pub use limits::MOST_PAYLOAD;
pub use loopback_ask::LoopbackAsk;
pub use loopback_reply::LoopbackReply;
pub use served::{answered, done, refused};
pub use spi_ask::SpiAsk;
pub use spi_reply::SpiReply;
pub use transfer_entry::{ENTRY_SIZE, TransferEntry};
pub use transfer_op::{OP_SIZE, TransferOp};
pub use uart_ask::UartAsk;
pub use uart_reply::UartReply;
pub use writing::put_behind;
