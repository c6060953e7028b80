//! What an ELF object file is, the errors for bytes that are not one, and the laws of both.
//!
//! The definitions are in `specs/`. Each law is the contract of a function here that does nothing. The sources are the
//! BPF psABI for the machine, and the ELF gABI, chapter 4 "Object Files", for everything else.
#![tactic(auto)]

ghost use Rattle.btf_elf_model.specs.Laws.{ObjectIsDetermined, ObjectIsSound};

mod error;
mod file_header;
mod section_header;
mod symbol;

pub use error::ParseError;
pub use file_header::FileHeader;
pub use section_header::SectionHeader;
pub use symbol::Symbol;

/// Bytes represent one object, or are refused with one error, and never both.
pub fn object_is_determined()
    ensures { ObjectIsDetermined }
{}

/// In an object each section is in the file and shares no bytes with the headers, and each name ends.
pub fn object_is_sound()
    ensures { ObjectIsSound }
{}
