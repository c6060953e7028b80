//! Comparisons of the types of two tables, for relocation engines.
#![tactic(auto)]

mod entries;
mod fields;
mod frame;
mod pair_map;
mod pair_table;
mod position;
mod run;
mod types;

pub use crate::fields::fields_are_compatible;
pub use crate::types::{types_are_compatible, types_are_compatible_traced};
