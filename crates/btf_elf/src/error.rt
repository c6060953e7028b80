//! The errors of calls in which an allocation may also fail.

ghost use Rattle.std.specs.Prelude.{◌≡◌};
ghost use Rattle.btf_elf.specs.declared.error.ObjectError.TheVariants.{Parse, OutOfMemory};
ghost use Rattle.btf_elf.specs.declared.error.ReplaceError.TheVariants.{OutOfMemory as ReplaceOutOfMemory};

use btf_elf_model::ParseError;
use std::alloc::{AllocError, AllocFailed};
use thiserror::Error;

/// Why a call failed.
#[derive(Clone, Copy, Debug, PartialEq, Eq, Error)]
pub enum ObjectError {
    /// The bytes represent no object.
    #[error("{0}")]
    Parse(ParseError),

    /// An allocation failed.
    #[error("out of memory")]
    OutOfMemory,
}

impl From<ParseError> for ObjectError {
    ghost from_gives = { λ e f. f ≡ Parse e };

    fn from(e: ParseError) -> ObjectError {
        ObjectError::Parse(e)
    }
}

impl From<AllocError> for ObjectError {
    ghost from_gives = { λ _ f. f ≡ OutOfMemory };

    fn from(_e: AllocError) -> ObjectError {
        ObjectError::OutOfMemory
    }
}

impl<T: Drop> From<AllocFailed<T>> for ObjectError {
    ghost from_gives = { λ _ f. f ≡ OutOfMemory };

    fn from(_e: AllocFailed<T>) -> ObjectError {
        ObjectError::OutOfMemory
    }
}

/// Why the bytes of a section are not replaced.
#[derive(Clone, Copy, Debug, PartialEq, Eq, Error)]
pub enum ReplaceError {
    /// There is no section with this index.
    #[error("there is no section {index}")]
    NoSuchSection {
        /// The index that was asked for.
        index: usize,
    },

    /// The section is section 0, or has type `SHT_NULL`, `SHT_NOBITS`, `SHT_STRTAB` or `SHT_SYMTAB`. Such a section has
    /// no bytes in the file, or the names of sections and the symbols depend on it.
    #[error("the bytes of section {index} can't be replaced")]
    NotReplaceable {
        /// The index of the section.
        index: usize,
    },

    /// An allocation failed, or the new file has more bytes than an allocation can have.
    #[error("out of memory")]
    OutOfMemory,
}

impl From<AllocError> for ReplaceError {
    ghost from_gives = { λ _ f. f ≡ ReplaceOutOfMemory };

    fn from(_e: AllocError) -> ReplaceError {
        ReplaceError::OutOfMemory
    }
}
