//! A writer of text over a writer of bytes, with a buffer of fixed size.
#![tactic(auto)]

mod buffer;

pub use buffer::TextBuffer;
