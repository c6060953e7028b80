//! The sections and the header of a blob.

ghost use Rattle.std.specs.Prelude.{All, ◌≡◌, ◌+◌, ◌<◌, ◌≤◌, ◌^◌, ◌++◌, ◌↔◌, IsTrue, length, OnOk};
ghost use Rattle.btf_model.specs.Blob as model;
ghost use Rattle.btf_model.specs.Blob.{header_of};
ghost use Rattle.btf_split_model.specs.Hint.{HasSections};
ghost use Rattle.btf_split.specs.Blob.{written_header, HoldsSection, held_section};

use btf_plain::Endianness;
use std::alloc::AllocError;

/// The length of the header in bytes.
pub const HEADER_LEN: usize = 24;

/// The sections of a blob.
#[derive(Clone, Copy)]
pub struct Sections<'a> {
    pub types: &'a [u8],
    pub strings: &'a [u8],
}

/// The word at an offset of a blob.
fn word_at(blob: &[u8], offset: usize, endianness: Endianness) -> u32
    requires { offset + 4 ≤ length blob.now }
    ensures { result ≡ model.word_at endianness offset blob.now }
{
    endianness.read_u32([
        blob[offset],
        blob[offset + 1],
        blob[offset + 2],
        blob[offset + 3],
    ])
}

/// The bytes of a section, whose offset counts from the end of the header and is in the word at `offset_at`. The word
/// after it is the length.
fn section(blob: &[u8], offset_at: usize, endianness: Endianness) -> &[u8]
    requires words { offset_at + 8 ≤ length blob.now }
    requires header { 24 ≤ length blob.now }
    requires fits { HoldsSection blob.now offset_at endianness }
    ensures { result.now ≡ held_section blob.now offset_at endianness }
{
    let header_len = word_at(blob, 4, endianness) as usize;
    let start = header_len + word_at(blob, offset_at, endianness) as usize;
    let len = word_at(blob, offset_at + 4, endianness) as usize;
    &blob[start..start + len]
}

/// Whether a section is in the blob. Its offset is in the word at `offset_at`.
fn is_within(blob: &[u8], offset_at: usize, endianness: Endianness) -> bool
    requires words { offset_at + 8 ≤ length blob.now }
    requires header { 24 ≤ length blob.now }
    ensures { IsTrue result ↔ HoldsSection blob.now offset_at endianness }
{
    let header_len = word_at(blob, 4, endianness) as usize;
    let start = header_len + word_at(blob, offset_at, endianness) as usize;
    start + word_at(blob, offset_at + 4, endianness) as usize <= blob.len()
}

/// Whether both sections are in the blob.
pub fn has_sections(blob: &[u8], endianness: Endianness) -> bool
    ensures { IsTrue result ↔ HasSections endianness blob.now }
{
    blob.len() >= HEADER_LEN && is_within(blob, 16, endianness) && is_within(blob, 8, endianness)
}

/// The sections of a blob. Each element of the blob is a byte.
pub fn sections_of(blob: &[u8], endianness: Endianness) -> Sections<'_>
    requires { HasSections endianness blob.now }
    ensures types { result.types.now ≡ model.type_section (header_of endianness blob.now) blob.now }
    ensures strings { result.strings.now
        ≡ model.string_section (header_of endianness blob.now) blob.now }
    ensures bytes { All (λ byte. byte < 2 ^ 8) blob.now }
{
    Sections {
        types: section(blob, 8, endianness),
        strings: section(blob, 16, endianness),
    }
}

/// Appends the header of a blob with these lengths of its sections. Magic, version and flags are the first four bytes
/// of `front`.
pub fn append_header(
    out: &mut Vec<u8>,
    front: &[u8],
    types: u32,
    strings: u32,
    endianness: Endianness,
) -> Result<(), AllocError>
    requires { 4 ≤ length front.now }
    ensures { OnOk result (out.new.items ≡ out.old.items
        ++ written_header endianness front.now types strings) }
{
    out.extend_from_slice(&front[..4])?;
    for word in [HEADER_LEN as u32, 0, types, types, strings] {
        out.extend_from_slice(&endianness.write_u32(word))?;
    }
    Ok(())
}
