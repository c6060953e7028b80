//! The layout of types in memory: alignments.
#![tactic(auto)]

mod alignments;
mod frame;
mod progress;
mod run;
mod shape;

pub use alignments::{Alignments, alignment_of};
