//! Manifests as texts in sections, in the manner of Project Ara's manifesto.
#![tactic(auto)]

mod adding;
mod compiling;
mod decompiling;
mod draft;
mod escaped;
mod fault_text;
mod form;
mod heading;
mod laws;
mod lines;
mod mnfs_fault;
mod number;
mod parted;
mod section;
mod string;
mod trimmed;

pub use compiling::compile;
pub use decompiling::decompile;
pub use fault_text::put_fault;
pub use gb_base::MnfsReason;
pub use laws::texts_are_sources;
pub use mnfs_fault::MnfsFault;
