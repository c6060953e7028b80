//! Look-ups by name for relocation engines: values of variants, and the relocations of a section.
#![tactic(auto)]

mod above;

pub use above::{relocations_of, variant_value};
