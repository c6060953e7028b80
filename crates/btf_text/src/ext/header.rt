//! The header of `.BTF.ext` (the kernel's documentation, ".BTF.ext section", `struct btf_ext_header`).

use crate::ext::Topic;
use btf_plain::{BtfError, Endianness};

/// The records of one topic.
#[derive(Clone, Copy)]
pub struct Part<'a> {
    pub topic: Topic,
    /// The size of a record in bytes; 0 if there are none.
    pub record_size: usize,
    /// The sections of records, one after another.
    pub sections: &'a [u8],
}

/// The parts of a `.BTF.ext` section.
#[derive(Clone, Copy)]
pub struct Parts<'a> {
    pub functions: Part<'a>,
    pub lines: Part<'a>,
    pub relocations: Part<'a>,
}

/// The fields of the header for the range of a topic.
#[derive(Clone, Copy)]
struct Range {
    /// The position of the offset in the header, in bytes.
    offset: usize,
    /// The position of the length in the header, in bytes.
    len: usize,
    /// The least size of a record.
    least: usize,
}

/// The range of a topic.
fn range_of(topic: Topic) -> Range {
    match topic {
        Topic::Functions => Range {
            offset: 8,
            len: 12,
            least: 8,
        },
        Topic::Lines => Range {
            offset: 16,
            len: 20,
            least: 16,
        },
        Topic::Relocations => Range {
            offset: 24,
            len: 28,
            least: 16,
        },
    }
}

/// The word at a position of a header; 0 if the header is shorter.
fn word_at(header: &[u8], at: usize, endianness: Endianness) -> u32 {
    match header.get(at..) {
        Some(bytes) => match bytes.first_chunk::<4>() {
            Some(word) => endianness.read_u32(*word),
            None => 0,
        },
        None => 0,
    }
}

/// The parts in the bytes of a `.BTF.ext` section.
///
/// The error is `InvalidHeader` for fewer than 8 bytes, or fewer than the header's length. It is `InvalidInfo` for the
/// first range that passes the end, or that is not empty and is shorter than the word of its record size, or whose
/// record size is too small.
pub fn read_parts(data: &[u8], endianness: Endianness) -> Result<Parts<'_>, BtfError> {
    if data.len() < 8 {
        return Err(BtfError::InvalidHeader);
    }
    let header_len = word_at(data, 4, endianness) as usize;
    let Some((header, rest)) = data.split_at_checked(header_len) else {
        return Err(BtfError::InvalidHeader);
    };
    Ok(Parts {
        functions: read_part(header, rest, Topic::Functions, endianness)?,
        lines: read_part(header, rest, Topic::Lines, endianness)?,
        relocations: read_part(header, rest, Topic::Relocations, endianness)?,
    })
}

/// The part of a topic, in the bytes after the header.
fn read_part<'a>(
    header: &[u8],
    rest: &'a [u8],
    topic: Topic,
    endianness: Endianness,
) -> Result<Part<'a>, BtfError> {
    let range = range_of(topic);
    let offset = word_at(header, range.offset, endianness) as usize;
    let len = word_at(header, range.len, endianness) as usize;
    let invalid = BtfError::InvalidInfo {
        offset: header.len().saturating_add(offset),
        len,
        section_len: header.len().saturating_add(rest.len()),
    };
    let Some(bytes) = rest.get(offset..).and_then(|bytes| bytes.get(..len)) else {
        return Err(invalid);
    };
    let mut part = Part {
        topic,
        record_size: 0,
        sections: &[],
    };
    if bytes.is_empty() {
        return Ok(part);
    }
    let Some((size, sections)) = bytes.split_first_chunk::<4>() else {
        return Err(invalid);
    };
    part.record_size = endianness.read_u32(*size) as usize;
    part.sections = sections;
    if part.record_size < range.least {
        return Err(invalid);
    }
    Ok(part)
}
