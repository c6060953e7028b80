//! An object with other bytes in one section.

ghost use Rattle.std.specs.Prelude.{◌≡◌, ◌+◌, ◌*◌, ◌^◌, ◌<◌, ◌≤◌, length, IfOk};
ghost use Rattle.std.specs.Int.{w64};
ghost use Rattle.std.specs.List.{list_any};
ghost use Rattle.btf_model.specs.Word.{bytes_of};
ghost use Rattle.btf_elf_model.specs.Header.{file_header_len};
ghost use Rattle.btf_elf_model.specs.Replaced.{is_replaceable, shares_bytes, fits_in_place, alignment_of, aligned};
ghost use Rattle.btf_elf.specs.Writing.{put, up_to, place_words, file_with_section};

use crate::section::has_bytes;
use btf_elf_model::{FileHeader, SectionHeader};
use btf_model::Endianness;
use std::alloc::{AllocError, Global};

/// The largest alignment of a section at the end of a file.
const MAX_ALIGNMENT: u64 = 4096;

/// Whether the bytes of a section can be replaced.
#[tactic(auto, unfolding(btf_elf_model::specs::Replaced::is_replaceable))]
pub fn is_replaceable(index: usize, section: &SectionHeader) -> bool
    ensures { result ≡ is_replaceable index section.now }
{
    index > 0
        && has_bytes(section)
        && section.kind != SectionHeader::STRTAB
        && section.kind != SectionHeader::SYMTAB
}

/// Whether a section has one of the `len` bytes from an offset on.
#[tactic(auto, unfolding(btf_elf_model::specs::Replaced::shares_bytes))]
fn shares_bytes(section: &SectionHeader, offset: u64, len: u64) -> bool
    ensures { result ≡ shares_bytes offset len section.now }
{
    let (start, size) = (section.offset, section.size);
    let is_shared = if start <= offset {
        offset - start < size
    } else {
        start - offset < len
    };
    has_bytes(section) && len > 0 && size > 0 && is_shared
}

/// Whether a section of a list has one of the `len` bytes from an offset on.
fn any_shares(sections: &[SectionHeader], offset: u64, len: u64) -> bool
    ensures { result ≡ list_any (shares_bytes offset len) sections.now }
{
    sections.iter().any(|s| shares_bytes(s, offset, len))
}

/// Whether `len` bytes fit in the place of a section.
#[tactic(auto, unfolding(btf_elf_model::specs::Replaced::fits_in_place))]
pub fn fits(sections: &[SectionHeader], index: usize, section: &SectionHeader, len: u64) -> bool
    requires { index < length sections.now }
    ensures { result ≡ fits_in_place sections.now index section.now len }
{
    let offset = section.offset;
    let before = &sections[..index];
    let after = &sections[index + 1..];
    len <= section.size && !any_shares(before, offset, len) && !any_shares(after, offset, len)
}

/// The least multiple of a section's alignment that is not below a length.
pub fn aligned_end(len: usize, section: &SectionHeader) -> u64
    requires { len < 2 ^ 63 }
    ensures { result ≡ aligned len (alignment_of section.now) }
{
    let alignment = section.alignment.max(1).min(MAX_ALIGNMENT);
    let len = len as u64;
    match len % alignment {
        0 => len,
        rest => len + (alignment - rest),
    }
}

/// Overwrites the bytes from an offset on.
pub fn put(file: &mut [u8], at: usize, bytes: &[u8])
    requires { at + length bytes.now ≤ length file.old }
    ensures { file.new ≡ put at bytes.now file.old }
{
    file[at..at + bytes.len()].copy_from_slice(bytes);
}

/// The eight bytes of a number.
fn xword(value: u64, order: Endianness) -> [u8; 8]
    ensures { result ≡ bytes_of w64 order value }
{
    match order {
        Endianness::Little => value.to_le_bytes(),
        Endianness::Big => value.to_be_bytes(),
    }
}

/// The bytes of the two words of a section header that give the place of the section in the file.
fn place_words(header: &FileHeader, offset: u64, size: u64) -> [u8; 16]
    ensures { result ≡ place_words header.now offset size }
{
    let mut words = [0; 16];
    words[..8].copy_from_slice(&xword(offset, header.order));
    words[8..].copy_from_slice(&xword(size, header.order));
    words
}

/// A copy of the bytes, with zeros after them up to an end.
fn copy_up_to(alloc: Global, bytes: &[u8], end: usize) -> Result<Vec<u8>, AllocError>
    ensures { IfOk result (λ file. file.items ≡ up_to end bytes.now) }
{
    let len = bytes.len().max(end);
    let mut file = Vec::with_capacity(alloc, len)?;
    file.extend_from_slice(bytes)?;
    file.resize(len, 0)?;
    Ok(file)
}

/// The bytes of a file in which the bytes of a section, at an offset, and two words of the section's header are
/// replaced.
pub fn write_replaced(
    alloc: Global,
    header: &FileHeader,
    bytes: &[u8],
    index: usize,
    offset: u64,
    given: &[u8],
) -> Result<Vec<u8>, AllocError>
    requires header { header.now.section_headers + file_header_len * index + 40 ≤ length bytes.now }
    requires end { offset + length given.now < 2 ^ 64 }
    ensures { IfOk result (λ file.
        file.items ≡ file_with_section header.now bytes.now index offset given.now) }
{
    let offset = offset as usize;
    let mut file = copy_up_to(alloc, bytes, offset + given.len())?;
    put(&mut file, offset, given);
    let words = place_words(header, offset as u64, given.len() as u64);
    put(
        &mut file,
        header.section_headers as usize + 64 * index + 24,
        &words,
    );
    Ok(file)
}
