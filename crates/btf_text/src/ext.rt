//! The contents of `.BTF.ext` as text, by the sections of the program.

mod header;
mod record;

use crate::error::TextError;
use crate::ext::header::{Part, read_parts};
use crate::ext::record::write_record;
use crate::word::write_text;
use btf_ext::{SecInfo, SecInfoIter};
use btf_plain::{BtfError, Endianness};
use btf_table::Btf;
use std::alloc::Global;
use std::fmt::Write;

/// The topic of the records of a section of `.BTF.ext`.
#[derive(Clone, Copy, Debug, PartialEq, Eq, PartialOrd, Ord)]
pub(crate) enum Topic {
    /// Functions.
    Functions,
    /// Lines of source.
    Lines,
    /// Relocations.
    Relocations,
}

/// The records of one topic for one section of the program.
#[derive(Drop)]
struct Listed<'a> {
    /// The string offset of the name of the program's section.
    name_offset: u32,
    topic: Topic,
    /// The size of a record in bytes.
    record_size: usize,
    /// The records.
    bytes: &'a [u8],
}

/// Writes the functions, the lines and the relocations of a program, from the bytes of its `.BTF.ext` section: a line
/// for each section of the program, in the order of the string offsets of the section names, and a line for each
/// record. Offsets count bytes from the beginning of the program's section. A name that can't be read is written as
/// `(invalid)`.
///
/// The errors are as of `BtfExt::parse`: `Table` with `InvalidHeader` for fewer than 8 bytes, or fewer than the
/// header's length, and `Table` with `InvalidInfo` for an incomplete range of functions, lines or relocations, or an
/// incomplete section in one; further `Write` if the writer fails, and `OutOfMemory`.
pub fn write_ext<W: Write>(
    alloc: Global,
    table: &Btf,
    data: &[u8],
    endianness: Endianness,
    out: &mut W,
) -> Result<(), TextError> {
    let listed = list_all(alloc, data, endianness)?;
    let mut last = None;
    for section in listed.iter() {
        let name_offset = section.name_offset;
        if last != Some(name_offset) {
            out.write_str("section ")?;
            write_text(out, table, name_offset)?;
            out.write_str("\n")?;
            last = Some(name_offset);
        }
        write_section(table, section, endianness, out)?;
    }
    Ok(())
}

/// Lists the sections of the functions, lines and relocations of a `.BTF.ext`, by the offsets of their names.
fn list_all(
    alloc: Global,
    data: &[u8],
    endianness: Endianness,
) -> Result<Vec<Listed<'_>>, TextError> {
    let parts = read_parts(data, endianness)?;
    let mut listed = Vec::new(alloc);
    list_part(&mut listed, &parts.functions, endianness)?;
    list_part(&mut listed, &parts.lines, endianness)?;
    list_part(&mut listed, &parts.relocations, endianness)?;
    listed.sort_by_key(|x: &Listed<'_>| (x.name_offset, x.topic))?;
    Ok(listed)
}

/// Lists the sections of a part.
fn list_part<'a>(
    listed: &mut Vec<Listed<'a>>,
    part: &Part<'a>,
    endianness: Endianness,
) -> Result<(), TextError> {
    for section in SecInfoIter::new(part.sections, part.record_size, endianness) {
        let section = section?;
        listed.push(Listed {
            name_offset: section.name_offset,
            topic: part.topic,
            record_size: part.record_size,
            bytes: section.bytes,
        })?;
    }
    Ok(())
}

/// Writes a line for each record of a section.
fn write_section<W: Write>(
    table: &Btf,
    section: &Listed<'_>,
    endianness: Endianness,
    out: &mut W,
) -> Result<(), TextError> {
    if section.record_size == 0 {
        return Ok(());
    }
    for record in section.bytes.chunks_exact(section.record_size) {
        write_record(table, section.topic, record, endianness, out)?;
    }
    Ok(())
}
