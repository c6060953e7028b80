//! Why an object is not rewritten.

ghost use Rattle.std.specs.Prelude.{◌≡◌};
ghost use Rattle.btf_object.specs.Errors.{from_object, from_table, of_section};
ghost use Rattle.btf_object.specs.declared.error.SanitizeError.TheVariants.{OutOfMemory};

use btf_elf::{ObjectError, ReplaceError};
use btf_plain::BtfError;
use std::alloc::AllocError;
use thiserror::Error;

/// Why an object is not rewritten. The variants are in the order of the tests, except for `OutOfMemory`, which any step
/// returns if an allocation fails.
#[derive(Debug, Drop, Error)]
pub enum SanitizeError {
    /// The bytes represent no object file that `btf_elf` reads. Never `ObjectError::OutOfMemory`.
    #[error(transparent)]
    Object(ObjectError),

    /// No section is named `.BTF`.
    #[error("the object has no section .BTF")]
    NoTable,

    /// The bytes of the section `.BTF` represent no table, or the rewrite of the table is refused. Never
    /// `BtfError::OutOfMemory`.
    #[error(transparent)]
    Table(BtfError),

    /// The bytes of the section `.BTF` cannot be replaced. Never `ReplaceError::OutOfMemory`.
    #[error(transparent)]
    Section(ReplaceError),

    /// An allocation failed.
    #[error("out of memory")]
    OutOfMemory,
}

impl From<AllocError> for SanitizeError {
    ghost from_gives = { λ _ f. f ≡ OutOfMemory };

    fn from(_error: AllocError) -> SanitizeError {
        SanitizeError::OutOfMemory
    }
}

impl From<ObjectError> for SanitizeError {
    ghost from_gives = { λ e f. f ≡ from_object e };

    fn from(error: ObjectError) -> SanitizeError {
        match error {
            ObjectError::OutOfMemory => SanitizeError::OutOfMemory,
            error => SanitizeError::Object(error),
        }
    }
}

impl From<BtfError> for SanitizeError {
    ghost from_gives = { λ e f. f ≡ from_table e };

    fn from(error: BtfError) -> SanitizeError {
        match error {
            BtfError::OutOfMemory => SanitizeError::OutOfMemory,
            error => SanitizeError::Table(error),
        }
    }
}

impl From<ReplaceError> for SanitizeError {
    ghost from_gives = { λ e f. f ≡ of_section e };

    fn from(error: ReplaceError) -> SanitizeError {
        match error {
            ReplaceError::OutOfMemory => SanitizeError::OutOfMemory,
            error => SanitizeError::Section(error),
        }
    }
}
