//! The loader's steps over an object file: its code with the CO-RE relocations of `.BTF.ext` applied for a target
//! table, and then its own table rewritten for the kernel.
#![tactic(auto)]

mod error;
mod loader;
mod names;
mod places;
mod prepare;
mod step;

pub use btf_relocate::{CandidatePolicy, Report, Target, Targets};
pub use error::{LoaderError, PrepareError};
pub use loader::{relocate_object, relocate_object_among, relocate_object_with};
pub use names::sections_by_name;
pub use prepare::{Prepared, prepare_object};
pub use step::{Refusals, SectionOutcomes};
