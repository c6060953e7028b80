//! The alignment of a type, and the laws of alignments.
//!
//! The definitions are in `specs/`. Each law is the contract of a function here that does nothing.
#![tactic(auto)]

ghost use Rattle.btf_layout_model.specs.Laws.{AlignmentIsDetermined, AlignmentIsSmall, AlignmentDividesSize, AlignmentStays};

/// A type has at most one alignment, or one error, and never both.
pub fn alignment_is_determined()
    ensures { AlignmentIsDetermined }
{}

/// An alignment is 1 to 8 bytes.
pub fn alignment_is_small()
    ensures { AlignmentIsSmall }
{}

/// The size of a STRUCT or UNION is a multiple of its alignment.
pub fn alignment_divides_size()
    ensures { AlignmentDividesSize }
{}

/// A type that has an alignment has it also in a table with further types. So the types of a base have their alignments
/// in each split table over it.
pub fn alignment_stays()
    ensures { AlignmentStays }
{}
