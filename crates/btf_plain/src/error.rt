//! The error of all BTF calls.

ghost use Rattle.std.specs.Prelude.{◌≡◌};
ghost use Rattle.btf_plain.specs.declared.error.BtfError.TheVariants.{OutOfMemory};

use std::alloc::{AllocError, AllocFailed};
use thiserror::Error;

/// Why a BTF call failed.
///
/// Offsets of strings count bytes from the beginning of the string section. The ids of types count from 0,
/// which is the type that has no bytes.
#[derive(Debug, Drop, Error)]
pub enum BtfError {
    /// The header is truncated, or the string section is not within the data.
    #[error("error parsing BTF header")]
    InvalidHeader,

    /// The type section is not within the data, or a record is truncated or too large.
    #[error("invalid BTF type info segment")]
    InvalidTypeInfo,

    /// A relocation record is truncated. No call of these crates returns it.
    #[error("invalid BTF relocation info segment")]
    InvalidRelocationInfo,

    /// A record is of a kind that does not exist.
    #[error("invalid BTF type kind `{kind}`")]
    InvalidTypeKind {
        /// The number of the kind.
        kind: u32,
    },

    /// A relocation is of a kind that does not exist. No call of these crates returns it.
    #[error("invalid BTF relocation kind `{kind}`")]
    InvalidRelocationKind {
        /// The number of the kind.
        kind: u32,
    },

    /// There is no text at an offset, or a text does not fit in the longest string section.
    #[error("invalid BTF string offset: {offset}")]
    InvalidStringOffset {
        /// The offset.
        offset: usize,
    },

    /// A part of `.BTF.ext` is outside its range, or truncated.
    #[error("invalid BTF info, offset: {offset} len: {len} section_len: {section_len}")]
    InvalidInfo {
        /// Where the part begins.
        offset: usize,
        /// The number of its bytes.
        len: usize,
        /// The number of bytes that there are.
        section_len: usize,
    },

    /// A line record is outside its range. No call of these crates returns it.
    #[error("invalid BTF line info, offset: {offset} len: {len} section_len: {section_len}")]
    InvalidLineInfo {
        /// Where the part begins.
        offset: usize,
        /// The number of its bytes.
        len: usize,
        /// The number of bytes that there are.
        section_len: usize,
    },

    /// An id names no type.
    #[error("unknown BTF type id `{type_id}`")]
    UnknownBtfType {
        /// The id.
        type_id: u32,
    },

    /// A type has a kind that is not allowed there.
    #[error("unexpected BTF type id `{type_id}`")]
    UnexpectedBtfType {
        /// The id of the type.
        type_id: u32,
    },

    /// No type of the kind has the name.
    #[error("unknown BTF type `{type_name}`")]
    UnknownBtfTypeName {
        /// The name.
        type_name: String,
    },

    /// A walk from type to type exceeded its limit of 32.
    #[error("maximum depth reached resolving BTF type")]
    MaximumTypeDepthReached {
        /// The id of the type at which the walk began, or of the next type of the walk.
        type_id: u32,
    },

    /// The offset of a symbol is unknown, or has more than 32 bits.
    #[error("Offset not found for symbol `{symbol_name}`")]
    SymbolOffsetNotFound {
        /// The name of the symbol.
        symbol_name: String,
    },

    /// An entry of a DATASEC is no VAR.
    #[error("BTF type that is not VAR was found in DATASEC")]
    InvalidDatasec,

    /// The size of a section is unknown, or has more than 32 bits.
    #[error("Unable to determine the size of section `{section_name}`")]
    UnknownSectionSize {
        /// The name of the section.
        section_name: String,
    },

    /// A symbol has no readable name. No call of these crates returns it.
    #[error("Unable to get symbol name")]
    InvalidSymbolName,

    /// The inner map of a map of maps is to be pinned. No call of these crates returns it.
    #[error("BTF map `{name}`: inner map definition cannot be pinned")]
    InnerMapCannotBePinned {
        /// The name of the map.
        name: String,
    },

    /// A map of maps contains maps of maps. No call of these crates returns it.
    #[error("BTF map `{name}`: multi-level map-in-map is not supported")]
    MultiLevelMapInMapNotSupported {
        /// The name of the map.
        name: String,
    },

    /// The `values` of a map of maps have a size. No call of these crates returns it.
    #[error("BTF map `{name}`: `values` spec is not a zero-sized array")]
    InvalidValuesSpec {
        /// The name of the map.
        name: String,
    },

    /// An allocation failed. The value that was to change is unchanged.
    #[error("out of memory")]
    OutOfMemory,
}

impl From<AllocError> for BtfError {
    ghost from_gives = { λ _ e. e ≡ OutOfMemory };

    fn from(_e: AllocError) -> BtfError {
        BtfError::OutOfMemory
    }
}

impl<T: Drop> From<AllocFailed<T>> for BtfError {
    ghost from_gives = { λ _ e. e ≡ OutOfMemory };

    fn from(_e: AllocFailed<T>) -> BtfError {
        BtfError::OutOfMemory
    }
}
