//! Why a record is not relocated.

ghost use Rattle.std.specs.Prelude.{◌≡◌};
ghost use Rattle.btf_relocate_model.specs.declared.error.RelocationError.TheVariants.{OutOfMemory};

use std::alloc::{AllocError, AllocFailed};
use thiserror::Error;

/// Why a record is not relocated. No byte of the program changes then.
#[derive(Clone, Copy, Debug, PartialEq, Eq, Error)]
pub enum RelocationError {
    /// The program's table and the target's have different byte orders.
    #[error("the tables have different byte orders")]
    OrderMismatch,

    /// The number of the record's kind is above 12.
    #[error("unknown relocation kind {kind}")]
    UnknownKind {
        /// The number.
        kind: u32,
    },

    /// A table has no type of this id.
    #[error("unknown BTF type {type_id}")]
    UnknownBtfType {
        /// The id.
        type_id: u32,
    },

    /// A name that is needed begins at an offset at which there is no text.
    #[error("invalid string offset {offset}")]
    InvalidStringOffset {
        /// The offset.
        offset: u32,
    },

    /// A walk over modifiers or arrays from this type on is longer than 32 types, or a comparison of types meets a pair
    /// again that it has not decided.
    #[error("maximum depth of types reached at {type_id}")]
    MaximumTypeDepthReached {
        /// The id of the type.
        type_id: u32,
    },

    /// The record's type has no name, so no type of the target can be found for it.
    #[error("type {type_id} has no name")]
    AnonymousType {
        /// The id of the type.
        type_id: u32,
    },

    /// The access string is outside the grammar, has another form than the kind needs, or ends in a member without a
    /// name.
    #[error("invalid access string")]
    BadAccess,

    /// An index of the access is past the members, elements or enumerators of its type, or its type has none.
    #[error("an index of the access is out of range")]
    BadIndex,

    /// A type whose size is needed has no size below 2^32.
    #[error("type {type_id} has no size")]
    NoSize {
        /// The id of the type.
        type_id: u32,
    },

    /// A field begins at bit 2^32 or after it.
    #[error("a field begins past bit 4294967295")]
    BitOffsetTooBig,

    /// The kind asks for the sign or the shifts of an array element or of the whole type, which only a member has.
    #[error("the relocation needs a member")]
    NotForElement,

    /// No load of at most 8 bytes holds the bit-field.
    #[error("no load of 8 bytes holds the bit-field")]
    BitfieldTooWide,

    /// The type of a bit-field is no INT, ENUM or ENUM64 of 1, 2, 4 or 8 bytes.
    #[error("type {type_id} cannot be the type of a bit-field")]
    BadBitfield {
        /// The id of the type.
        type_id: u32,
    },

    /// The kind asks for a shift of a member of more than 8 bytes.
    #[error("a member of more than 8 bytes has no shift")]
    ShiftTooWide,

    /// The path to a field of the target has more than 64 members and elements.
    #[error("the path to a field is deeper than 64 levels")]
    TooDeep,

    /// Two types of the target match, and give different values.
    #[error("candidates of the target give different values")]
    Ambiguous,

    /// The offset of the instruction is no multiple of 8.
    #[error("the instruction's offset is not a multiple of 8")]
    Misaligned,

    /// The instruction is not within the section.
    #[error("the instruction is outside the section")]
    NoInstruction,

    /// The second half of a 64-bit load is not within the section.
    #[error("the second slot of the instruction is outside the section")]
    NoSecondSlot,

    /// An arithmetic instruction has a register as its source, not an immediate.
    #[error("the instruction has no immediate")]
    NotImmediate,

    /// The field of the instruction does not have the value of the program's own table.
    #[error("the instruction does not have the value of the local type")]
    WrongImmediate,

    /// The 32-bit immediate of an arithmetic instruction cannot hold the value.
    #[error("the value does not fit in the immediate")]
    ImmediateOverflow,

    /// The 16-bit offset of a load or store cannot hold the value.
    #[error("the value does not fit in the offset")]
    OffsetTooBig,

    /// The size of a load or store is not the size of the local field.
    #[error("the size of the access is not the size of the local field")]
    WrongAccessSize,

    /// The size of the target's field is no size of a load or store.
    #[error("the size of the target's field is not 1, 2, 4 or 8")]
    BadAccessSize,

    /// The instruction loads a 64-bit value in another form than an immediate.
    #[error("the instruction is no load of a 64-bit immediate")]
    BadLdImm64,

    /// The instruction is a jump or a call, which has no field to patch.
    #[error("the instruction cannot be patched")]
    NotPatchable,

    /// The target has more than 256 types that the record's type may be.
    #[error("the target has more than 256 candidates")]
    TooManyCandidates,

    /// The kind compares members, and two STRUCTs or UNIONs have more than 2^20 pairs of them.
    #[error("two types have more than 1048576 pairs of members")]
    TooManyMembers,

    /// An allocation failed.
    #[error("out of memory")]
    OutOfMemory,
}

impl From<AllocError> for RelocationError {
    ghost from_gives = { λ _ e. e ≡ OutOfMemory };

    fn from(_e: AllocError) -> RelocationError {
        RelocationError::OutOfMemory
    }
}

impl<T: Drop> From<AllocFailed<T>> for RelocationError {
    ghost from_gives = { λ _ e. e ≡ OutOfMemory };

    fn from(_e: AllocFailed<T>) -> RelocationError {
        RelocationError::OutOfMemory
    }
}
