//! The header of `.BTF.ext`, and the three ranges that it names.

ghost use Rattle.std.specs.Prelude.{◌≡◌, ◌++◌, ◌-◌, ◌≤◌, length, replicate};
ghost use Rattle.btf_model.specs.Ext.{HasHeader, HasPart, header_words};
ghost use Rattle.btf_plain.specs.Error.{Meets};
ghost use Rattle.btf_ext.specs.ExtHeader.{ext_header, range, part, FindsPart};

use crate::words::word_at;
use btf_plain::{BtfError, Endianness};

/// The length of the header with all its words.
const HEADER_LEN: usize = 32;

/// The length of a header up to and including the word `hdr_len`.
const MINIMAL_LEN: usize = 8;

/// A range of the data. Its offset counts from `hdr_len`.
#[derive(Clone, Copy)]
pub struct Range {
    hdr_len: u32,
    offset: u32,
    len: u32,
    /// The least size of a record.
    least: u32,
}

/// The header (the kernel's documentation, ".BTF.ext section", `struct btf_ext_header`).
#[derive(Clone, Copy)]
pub struct Header {
    pub func: Range,
    pub line: Range,
    pub core: Range,
}

/// The contents of a range.
#[derive(Clone, Copy)]
pub struct Part<'a> {
    /// The size of its records; 0 in an empty range.
    pub rec_size: usize,
    /// The bytes of its sections.
    pub sections: &'a [u8],
}

impl Header {
    /// The header at the start of data. The fields that a header shorter than 32 bytes leaves out are 0. If there are
    /// fewer than 8 bytes, or fewer than the header's length, the error is `InvalidHeader`.
    pub fn read(data: &[u8], endianness: Endianness) -> Result<Header, BtfError>
        ensures { Meets ext_header result (HasHeader endianness «data».now) }
    {
        if data.len() < MINIMAL_LEN {
            return Err(BtfError::InvalidHeader);
        }
        let hdr_len = word_at(data, 4, endianness) as usize;
        if data.len() < hdr_len {
            return Err(BtfError::InvalidHeader);
        }
        let bytes = pad(&data[..hdr_len.min(HEADER_LEN)]);
        Ok(Header::of_bytes(&bytes, endianness))
    }

    /// The header in these bytes.
    fn of_bytes(bytes: &[u8; 32], endianness: Endianness) -> Header
        ensures { ext_header result ≡ header_words endianness bytes.now }
    {
        let word = |at: usize| word_at(bytes, at, endianness);
        let hdr_len = word(4);
        Header {
            func: Range {
                hdr_len,
                offset: word(8),
                len: word(12),
                least: 8,
            },
            line: Range {
                hdr_len,
                offset: word(16),
                len: word(20),
                least: 16,
            },
            core: Range {
                hdr_len,
                offset: word(24),
                len: word(28),
                least: 16,
            },
        }
    }
}

/// Bytes, padded with zeros.
fn pad(given: &[u8]) -> [u8; 32]
    requires { length given.now ≤ 32 }
    ensures { result ≡ given.now ++ replicate (32 - length given.now) 0 }
{
    let mut bytes = [0; HEADER_LEN];
    bytes[..given.len()].copy_from_slice(given);
    bytes
}

impl Range {
    /// The contents of the range. The error is `InvalidInfo` if the range is not within the data, or if it is not empty
    /// and is shorter than a word, or has a record size below the least one.
    pub fn read<'a>(&self, data: &'a [u8], endianness: Endianness) -> Result<Part<'a>, BtfError>
        ensures { Meets part result (HasPart endianness «data».now (range self.now)) }
    {
        match self.find(data, endianness) {
            Some(part) => Ok(part),
            None => Err(BtfError::InvalidInfo {
                offset: self.start(),
                len: self.len as usize,
                section_len: data.len(),
            }),
        }
    }

    /// The start of the range.
    fn start(&self) -> usize
        ensures { result ≡ (range self.now).start }
    {
        self.hdr_len as usize + self.offset as usize
    }

    /// The contents of the range; None if it is not valid.
    fn find<'a>(&self, data: &'a [u8], endianness: Endianness) -> Option<Part<'a>>
        ensures { FindsPart self.now «data».now endianness result }
    {
        let start = self.start();
        let bytes = data.get(start..start + self.len as usize)?;
        if bytes.is_empty() {
            return Some(Part {
                rec_size: 0,
                sections: bytes,
            });
        }
        let (size, sections) = bytes.split_first_chunk::<4>()?;
        let size = endianness.read_u32(*size);
        if size < self.least {
            return None;
        }
        Some(Part {
            rec_size: size as usize,
            sections,
        })
    }
}
