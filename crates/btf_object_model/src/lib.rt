//! What an object file becomes for an old kernel: the data that a rewrite of its table reads from it, the rewritten
//! object, and the laws of both.
//!
//! The definitions are in `specs/`. Each law is the contract of a function here that does nothing.
#![tactic(auto)]

ghost use Rattle.btf_object_model.specs.Laws.{TextsStay, ExtStays, SanitizedKeepsExt, FinalizedKeepsExt, IsFinalizedOnce, IsOpenedOnce};

mod reader;
mod version;

pub use reader::TableReader;
pub use version::Version;

/// A text that can be read in a table is read at the same offset of the rewritten table.
pub fn texts_stay()
    ensures { TextsStay }
{}

/// The bytes of `.BTF.ext` have the same contents with the rewritten table as with the old one. A refusal is the same
/// too, unless its reason is a name that cannot be read, because the rewrite may append this name.
pub fn ext_stays()
    ensures { ExtStays }
{}

/// The rewritten object has the section `.BTF.ext` of the old object. With the new table this section has the same
/// function, line and relocation records as with the old table.
pub fn sanitized_keeps_ext()
    ensures { SanitizedKeepsExt }
{}

/// The same for an object whose table is finalized before it is rewritten.
pub fn finalized_keeps_ext()
    ensures { FinalizedKeepsExt }
{}

/// A table is finalized in one way: an object determines the finalized table.
pub fn is_finalized_once()
    ensures { IsFinalizedOnce }
{}

/// A loader opens an object in one way: an object determines the table with `.kconfig` laid out, and finalized.
pub fn is_opened_once()
    ensures { IsOpenedOnce }
{}
