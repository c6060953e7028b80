//! The index of a section.

/// The index of a section of an object file.
#[derive(Clone, Copy, Debug, PartialEq, Eq)]
pub struct SectionIndex(pub usize);
