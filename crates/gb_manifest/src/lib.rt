//! Checks, reads and writes manifests.
#![tactic(auto)]

mod breach;
mod checks;
mod declared;
mod descriptor;
mod descriptors;
mod ids;
mod listed;
mod manifest;
mod plain_descriptor;
mod refusal;
mod rules;
mod spec;
mod undeclared;
mod walk;
mod writing;

pub use checks::check;
pub use descriptor::Descriptor;
pub use descriptors::Descriptors;
pub use manifest::{CportView, Manifest};
pub use refusal::Refused;
pub use spec::{BundleSpec, Bundles, CportSpec, Cports, ManifestSpec, StringSpec, Strings};
pub use writing::{WriteFault, write};
