//! Why an object is not relocated, and why it is not prepared.

ghost use Rattle.std.specs.Prelude.{◌≡◌};
ghost use Rattle.btf_loader.specs.Errors.{of_object, of_table, of_ext};
ghost use Rattle.btf_loader.specs.declared.error.LoaderError.TheVariants.{OutOfMemory};
ghost use Rattle.btf_loader.specs.declared.error.PrepareError.TheVariants.{Relocate, Sanitize};

use btf_elf::ObjectError;
use btf_object::SanitizeError;
use btf_plain::BtfError;
use btf_relocate::RelocationError;
use std::alloc::AllocError;
use thiserror::Error;

/// Why an object is not relocated. The variants are in the order of the tests, except for `OutOfMemory`, which any step
/// returns if an allocation fails. The last three are tested for each section of relocation records in turn.
#[derive(Debug, Drop, Error)]
pub enum LoaderError {
    /// The bytes represent no object file that `btf_elf` reads. Never `ObjectError::OutOfMemory`.
    #[error(transparent)]
    Object(ObjectError),

    /// No section is named `.BTF`.
    #[error("the object has no section .BTF")]
    NoTable,

    /// The bytes of the section `.BTF` represent no table. Never `BtfError::OutOfMemory`.
    #[error(transparent)]
    Table(BtfError),

    /// The bytes of the section `.BTF.ext` are malformed. Never `BtfError::OutOfMemory`.
    #[error("the section .BTF.ext is malformed: {0}")]
    Ext(BtfError),

    /// The name of a section of relocation records cannot be read from the table.
    #[error("no section name at string offset {name_offset}")]
    SectionName {
        /// The string offset of the name.
        name_offset: u32,
    },

    /// Another section has bytes in the place of a section with relocations.
    #[error("section {index} shares its place with another section")]
    SharedPlace {
        /// The index of the section with relocations.
        index: usize,
    },

    /// A record has an error, and [`Refusals::Refuse`](crate::Refusals) is given.
    #[error("relocation {index} of the section named at string offset {name_offset}: {cause}")]
    Refused {
        /// The string offset of the section's name.
        name_offset: u32,
        /// The index of the record among those of the section.
        index: usize,
        /// The error of the record.
        cause: RelocationError,
    },

    /// An allocation failed.
    #[error("out of memory")]
    OutOfMemory,
}

impl From<AllocError> for LoaderError {
    ghost from_gives = { λ _ f. f ≡ OutOfMemory };

    fn from(_error: AllocError) -> LoaderError {
        LoaderError::OutOfMemory
    }
}

impl From<ObjectError> for LoaderError {
    ghost from_gives = { λ e f. f ≡ of_object e };

    fn from(error: ObjectError) -> LoaderError {
        match error {
            ObjectError::OutOfMemory => LoaderError::OutOfMemory,
            error => LoaderError::Object(error),
        }
    }
}

impl From<BtfError> for LoaderError {
    ghost from_gives = { λ e f. f ≡ of_table e };

    fn from(error: BtfError) -> LoaderError {
        match error {
            BtfError::OutOfMemory => LoaderError::OutOfMemory,
            error => LoaderError::Table(error),
        }
    }
}

/// The error of a `.BTF.ext` that is not read.
pub fn ext_error(error: BtfError) -> LoaderError
    ensures { result ≡ of_ext error }
{
    match error {
        BtfError::OutOfMemory => LoaderError::OutOfMemory,
        error => LoaderError::Ext(error),
    }
}

/// Why an object is not prepared for a kernel.
#[derive(Debug, Drop, Error)]
pub enum PrepareError {
    /// The object is not relocated.
    #[error(transparent)]
    Relocate(LoaderError),

    /// The table of the relocated object is not rewritten.
    #[error(transparent)]
    Sanitize(SanitizeError),
}

impl From<LoaderError> for PrepareError {
    ghost from_gives = { λ e f. f ≡ Relocate e };

    fn from(error: LoaderError) -> PrepareError {
        PrepareError::Relocate(error)
    }
}

impl From<SanitizeError> for PrepareError {
    ghost from_gives = { λ e f. f ≡ Sanitize e };

    fn from(error: SanitizeError) -> PrepareError {
        PrepareError::Sanitize(error)
    }
}
