//! The command lines of `btftool`: their meaning and their output, over any reader and writers.
#![tactic(auto)]

mod comparison;
mod fault;
mod line;
mod listing;
mod number;
mod output;
mod program;
mod request;
mod rewrite;
mod word;

pub use program::run;
