//! The error of the calls that write text.

ghost use Rattle.std.specs.Prelude.{◌≡◌};
ghost use Rattle.btf_text.specs.declared.error.TextError.TheVariants.{Write};

use btf_plain::BtfError;
use std::alloc::{AllocError, AllocFailed};
use std::fmt;
use thiserror::Error;

/// The error of a text that was not written to its end.
#[derive(Debug, Drop, Error)]
pub enum TextError {
    /// The writer failed.
    #[error("cannot write the text")]
    Write,

    /// The table lacks something that the text needs.
    #[error("{0}")]
    Table(BtfError),

    /// The text would be too long: types without a name are used too often, or gaps are too large.
    #[error("the text would be too long")]
    TooLong,

    /// An allocation failed.
    #[error("out of memory")]
    OutOfMemory,
}

impl From<fmt::Error> for TextError {
    ghost from_gives = { λ _ e. e ≡ Write };

    fn from(_e: fmt::Error) -> TextError {
        TextError::Write
    }
}

impl From<AllocError> for TextError {
    fn from(_e: AllocError) -> TextError {
        TextError::OutOfMemory
    }
}

impl<T: Drop> From<AllocFailed<T>> for TextError {
    fn from(_e: AllocFailed<T>) -> TextError {
        TextError::OutOfMemory
    }
}

impl From<BtfError> for TextError {
    fn from(e: BtfError) -> TextError {
        match e {
            BtfError::OutOfMemory => TextError::OutOfMemory,
            e => TextError::Table(e),
        }
    }
}
