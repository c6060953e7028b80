//! The order in which a C header declares the types of a table.
#![tactic(auto)]

mod frame;
mod order;
mod progress;
mod referenced;
mod run;
mod shape;

pub use order::header_order;
