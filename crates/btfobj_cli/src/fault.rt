//! The errors of commands.

use btf_elf::ObjectError;
use btf_loader::LoaderError;
use btf_object::SanitizeError;
use btf_plain::BtfError;
use btf_text::TextError;
use std::alloc::{AllocError, AllocFailed};
use std::fmt;
use thiserror::Error;

/// The error of a command on a file.
#[derive(Debug, Drop, Error)]
pub enum Fault {
    /// The file begins neither as an object nor as a table.
    #[error("neither an ELF object nor a BTF table")]
    UnknownFormat,

    /// The file is no valid object.
    #[error("{0}")]
    Object(ObjectError),

    /// The object has no section of this name.
    #[error("the object has no section {0}")]
    NoSection(&'static str),

    /// The file is a table alone, so it has no `.BTF.ext`.
    #[error("a BTF table has no section .BTF.ext")]
    NoExt,

    /// The table, or the section `.BTF.ext`, is invalid.
    #[error("{0}")]
    Table(BtfError),

    /// The names or ids of types are not in the table.
    #[error("names or ids are not in the table, as in split BTF, whose base --base names")]
    Split,

    /// The base does not have what this type names.
    #[error("the base seems to be of another kernel: a name of type {0} does not begin where a string begins, \
         or its type is missing")]
    OtherBase(u32),

    /// The object's table continues a part of its base, which is in the object too.
    #[error("the table continues a distilled base, the section .BTF.base, which is not read")]
    DistilledBase,

    /// The object cannot be rewritten.
    #[error("{0}")]
    Rewrite(SanitizeError),

    /// The target's byte order is not that of the object.
    #[error("the target's table has the other byte order")]
    OtherOrder,

    /// The size of a section is unknown, because another object defines variables of it.
    #[error("a variable is extern and not in the object: \
         link it with the object that has it, as bpftool gen object does")]
    Unlinked,

    /// The code of the object cannot be relocated.
    #[error("{0}")]
    Relocation(LoaderError),

    /// A relocation record of the object has an error: the record's line in a list, after the name of its section.
    #[error("{0}")]
    Record(String),

    /// No type of the table has the selected name.
    #[error("no type has this name")]
    NoType,

    /// No type of the table has a selected id; this is the last one.
    #[error("no type has such an id, the last one is {0}")]
    NoId(u32),

    /// The name is that of a type of this kind.
    #[error("{0} has no layout: name a structure, a union, or a typedef of one")]
    NoLayout(&'static str),

    /// The text would be too long.
    #[error("the text would be too long")]
    TooLong,

    /// Standard output fails.
    #[error("cannot write standard output")]
    Write,

    /// An allocation failed.
    #[error("out of memory")]
    OutOfMemory,
}

impl From<BtfError> for Fault {
    ghost use Rattle.std.specs.Prelude.{◌≡◌};
    ghost use Rattle.btfobj_cli.specs.Fault.{table_fault};

    ghost from_gives = { λ e fault. fault ≡ table_fault e };

    fn from(e: BtfError) -> Fault {
        match e {
            BtfError::OutOfMemory => Fault::OutOfMemory,
            e => Fault::Table(e),
        }
    }
}

impl From<ObjectError> for Fault {
    ghost use Rattle.std.specs.Prelude.{◌≡◌};
    ghost use Rattle.btfobj_cli.specs.Fault.{object_fault};

    ghost from_gives = { λ e fault. fault ≡ object_fault e };

    fn from(e: ObjectError) -> Fault {
        match e {
            ObjectError::OutOfMemory => Fault::OutOfMemory,
            e => Fault::Object(e),
        }
    }
}

impl From<SanitizeError> for Fault {
    fn from(e: SanitizeError) -> Fault {
        match e {
            SanitizeError::OutOfMemory => Fault::OutOfMemory,
            e => Fault::Rewrite(e),
        }
    }
}

impl From<LoaderError> for Fault {
    fn from(e: LoaderError) -> Fault {
        match e {
            LoaderError::OutOfMemory => Fault::OutOfMemory,
            e => Fault::Relocation(e),
        }
    }
}

impl From<TextError> for Fault {
    fn from(e: TextError) -> Fault {
        match e {
            TextError::Write => Fault::Write,
            TextError::Table(e) => Fault::Table(e),
            TextError::TooLong => Fault::TooLong,
            TextError::OutOfMemory => Fault::OutOfMemory,
        }
    }
}

impl From<fmt::Error> for Fault {
    fn from(_e: fmt::Error) -> Fault {
        Fault::Write
    }
}

impl From<AllocError> for Fault {
    fn from(_e: AllocError) -> Fault {
        Fault::OutOfMemory
    }
}

impl<T: Drop> From<AllocFailed<T>> for Fault {
    fn from(_e: AllocFailed<T>) -> Fault {
        Fault::OutOfMemory
    }
}
