//! Sections of records, one after another.

ghost use Rattle.std.specs.Prelude.{◌≡◌, ◌<◌, length, Some};
ghost use Rattle.btf_ext.specs.SecInfo.{SplitsHead, SplitsSection};

use btf_plain::{BtfError, Endianness};
use std::marker::Model;

/// The records of one section of the program (the kernel's documentation, ".BTF.ext section",
/// `struct btf_ext_info_sec`).
#[derive(Debug, Drop)]
pub struct SecInfo<'a> {
    /// The string offset of the name of the program's section.
    pub name_offset: u32,
    /// The number of records, above 0.
    pub num_info: u32,
    /// The records.
    pub bytes: &'a [u8],
}

/// The sections in bytes, in order. If the rest of the bytes is no section, the iterator returns an error, and then
/// ends.
///
/// The error is `InvalidInfo`, with the length of the rest as `section_len`. If fewer than two words are left, it has
/// offset 0 and length 8. If there is no record, or records have no bytes, or the records pass the end, it has offset 8
/// and the length of the records, which is at most `usize::MAX`.
#[derive(Drop)]
pub struct SecInfoIter<'a> {
    bytes: &'a [u8],
    rec_size: usize,
    endianness: Endianness,
}

impl<'a> Model for SecInfoIter<'a> {
    ghost use Rattle.btf_model.specs.Ext.{SectionBytes};

    ghost Value = { SectionBytes };

    ghost view = { λ i. record {
      order = i.endianness;
      size = i.rec_size;
      bytes =
          i.bytes.now;
    } };
}

impl<'a> SecInfoIter<'a> {
    /// The sections in bytes, with words in this byte order; `rec_size` is the number of bytes of a record.
    pub fn new(data: &'a [u8], rec_size: usize, endianness: Endianness) -> Self
        ensures { result ≡ record { order = endianness; size = rec_size; bytes = «data».now } }
    {
        SecInfoIter {
            bytes: data,
            rec_size,
            endianness,
        }
    }
}

impl<'a> Iterator for SecInfoIter<'a> {
    ghost use Rattle.std.specs.Prelude.{length};
    ghost use Rattle.std.specs.Iterator.{at_most};
    ghost use Rattle.btf_ext.specs.SecInfo.{GivesSection};

    type Item = Result<SecInfo<'a>, BtfError>;

    ghost next_gives = { GivesSection };

    ghost remaining = { λ i. at_most (length i.bytes) };

    fn next(&mut self) -> Option<Result<SecInfo<'a>, BtfError>> {
        if self.bytes.is_empty() {
            return None;
        }
        match split_section(self.bytes, self.rec_size, self.endianness) {
            Ok((section, behind)) => {
                self.bytes = behind;
                Some(Ok(section))
            }
            Err(e) => {
                self.bytes = &self.bytes[..0];
                Some(Err(e))
            }
        }
    }
}

/// The two words before a section's records, and the bytes after them; None if there are fewer than two words.
fn split_head(bytes: &[u8], endianness: Endianness) -> Option<(u32, u32, &[u8])>
    ensures { SplitsHead bytes.now endianness result }
{
    let (name_offset, rest) = bytes.split_first_chunk::<4>()?;
    let (num_info, rest) = rest.split_first_chunk::<4>()?;
    Some((
        endianness.read_u32(*name_offset),
        endianness.read_u32(*num_info),
        rest,
    ))
}

/// The section at the start of bytes, and the bytes after it, or the error if they begin with none.
fn split_section(
    bytes: &[u8],
    rec_size: usize,
    endianness: Endianness,
) -> Result<(SecInfo<'_>, &[u8]), BtfError>
    ensures { SplitsSection bytes.now rec_size endianness result }
{
    let section_len = bytes.len();
    let Some((name_offset, num_info, rest)) = split_head(bytes, endianness) else {
        return Err(BtfError::InvalidInfo {
            offset: 0,
            len: 8,
            section_len,
        });
    };
    let len = rec_size.saturating_mul(num_info as usize);
    if len == 0 || len > rest.len() {
        return Err(BtfError::InvalidInfo {
            offset: 8,
            len,
            section_len,
        });
    }
    let (bytes, behind) = rest.split_at(len);
    let section = SecInfo {
        name_offset,
        num_info,
        bytes,
    };
    Ok((section, behind))
}
