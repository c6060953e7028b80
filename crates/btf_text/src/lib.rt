//! A table of BTF as text: each type in the form of `bpftool`, the types as a C header, the layout of a structure in
//! the form of `pahole`, and the contents of `.BTF.ext`.
//!
//! Each call writes to any `std::fmt::Write`. `TextBuffer` implements it over a writer of bytes.
#![tactic(auto)]

mod dump;
mod error;
mod ext;
mod header;
mod layout;
mod word;

pub use dump::{Selection, kind_name, write_dump, write_type_line};
pub use error::TextError;
pub use ext::write_ext;
pub use header::{HeaderTypes, write_header};
pub use layout::{find_layout, write_layout};
pub use text_buffer::TextBuffer;
