//! ELF object files: their sections and symbols, read from untrusted bytes.
//!
//! `Object::parse` checks a file once, in a fixed order, and what it returns borrows the file's bytes. The definitions
//! are in `btf_elf_model`.
#![tactic(auto)]

mod error;
mod header;
mod object;
mod replace;
mod section;
mod strings;
mod symbols;
mod table;
mod words;

pub use btf_elf_model::{FileHeader, ParseError, SectionHeader, Symbol};
pub use btf_model::Endianness;
pub use error::{ObjectError, ReplaceError};
pub use object::Object;
