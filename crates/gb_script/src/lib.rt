//! Reads lines of scripts and of captures.
#![tactic(auto)]

mod bridges;
mod captures;
mod deliveries;
mod firmware;
mod forms;
mod gpio;
mod held;
mod hex_words;
mod i2c;
mod interfaces;
mod line_buffer;
mod line_fault;
mod line_reader;
mod lines;
mod loopback;
mod made_script;
mod made_table;
mod ops;
mod piece;
mod plain_line;
mod requesters;
mod requests;
mod rest;
mod spi;
mod uart;
mod values;
mod words;

pub use captures::captured_bytes;
pub use forms::event;
pub use held::LineStop;
pub use line_fault::LineFault;
pub use line_reader::{Line, LineReader};
pub use lines::first_line;
pub use made_script::{MADE_LINES, Maker, made};
pub use plain_line::LONGEST_LINE;
pub use requesters::parts;
pub use values::number_word;
pub use words::is;
