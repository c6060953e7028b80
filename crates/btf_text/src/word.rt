//! Names of a table.

use crate::error::TextError;
use btf_plain::BtfError;
use btf_table::{Btf, BtfStr};
use std::fmt::Write;

/// The text at a string offset; None if it can't be read. `OutOfMemory` is the only error.
pub fn text_at(table: &Btf, offset: u32) -> Result<Option<BtfStr<'_>>, TextError> {
    match table.string_at(offset) {
        Ok(text) => Ok(Some(text)),
        Err(BtfError::OutOfMemory) => Err(TextError::OutOfMemory),
        Err(_) => Ok(None),
    }
}

/// A text that was read; empty if it can't be read.
pub fn text_or_empty<'a>(read: &'a Option<BtfStr<'a>>) -> &'a str {
    match read {
        Some(text) => text.as_str(),
        None => "",
    }
}

/// Writes the text at a string offset in quotes, or a remark that the offset is invalid if no text can be read.
pub fn write_text<W: Write>(out: &mut W, table: &Btf, offset: u32) -> Result<(), TextError> {
    out.write_str("'")?;
    match text_at(table, offset)? {
        Some(text) => out.write_str(text.as_str())?,
        None => out.write_str("(invalid)")?,
    }
    out.write_str("'")?;
    Ok(())
}

/// Writes the name at a string offset in quotes, as `bpftool` does: offset 0 is no name.
pub fn write_quoted<W: Write>(out: &mut W, table: &Btf, offset: u32) -> Result<(), TextError> {
    if offset == 0 {
        out.write_str("'(anon)'")?;
        return Ok(());
    }
    write_text(out, table, offset)
}
