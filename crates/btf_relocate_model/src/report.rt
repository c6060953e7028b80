//! What was done for a record.

use crate::error::RelocationError;
use crate::instruction::Patched;

/// The type of the targets that matches what a record is about.
#[derive(Clone, Copy, Debug, PartialEq, Eq)]
pub enum Matched {
    /// No type matches.
    Nothing,
    /// A type of the kernel's table.
    InKernel {
        /// Its id.
        type_id: u32,
    },
    /// A type of the table of a module.
    InModule {
        /// The index of the module.
        index: u32,
        /// The id of the type.
        type_id: u32,
    },
}

/// The field of an instruction that a record is about, before and after.
#[derive(Clone, Copy, Debug, PartialEq, Eq)]
pub enum Change {
    /// The instruction is outside the code, or has no such field.
    NoField,
    /// The offset of a load or store, as its 16 bits, and the number of bytes that it reads or writes.
    Offset {
        /// The offset before.
        before: u16,
        /// The offset after.
        after: u16,
        /// The number of bytes before.
        size_before: u8,
        /// The number of bytes after.
        size_after: u8,
    },
    /// The immediate of an arithmetic instruction, as its 32 bits.
    Immediate {
        /// The immediate before.
        before: u32,
        /// The immediate after.
        after: u32,
    },
    /// The immediate of a load of 64 bits: its low half, and its high half.
    Wide {
        /// The halves before.
        before: (u32, u32),
        /// The halves after.
        after: (u32, u32),
    },
}

/// What was done for a relocation record.
#[derive(Clone, Copy, Debug, PartialEq, Eq)]
pub struct Report {
    /// Whether the instruction was patched or poisoned, or why nothing was written.
    pub outcome: Result<Patched, RelocationError>,
    /// The first type of the targets that matches. `Nothing` also if the record asks for the id of the program's own
    /// type, or has no value because of an error.
    pub matched: Matched,
    /// The field of the instruction, before as the records before this one have left it. `NoField` also if it was
    /// poisoned.
    pub change: Change,
}
