//! The bytes of sections, and their tests.

ghost use Rattle.std.specs.Prelude.{◌≡◌, drop, position};
ghost use Rattle.btf_elf_model.specs.Section.{table_end, has_bytes, contents, is_past_end, is_over_headers};
ghost use Rattle.btf_elf_model.specs.Object.{section_error};
ghost use Rattle.btf_elf.specs.Results.{HasError};

use btf_elf_model::{FileHeader, ParseError, SectionHeader};

/// Whether the file has bytes of a section.
pub fn has_bytes(section: &SectionHeader) -> bool
    ensures { result ≡ has_bytes section.now }
{
    section.kind != SectionHeader::NULL && section.kind != SectionHeader::NOBITS
}

/// The bytes of a section in the file; empty for a section of type `SHT_NULL` or `SHT_NOBITS`. Bytes after the end of
/// the file are left out.
#[tactic(auto, unfolding(btf_elf_model::specs::Section::contents))]
pub fn contents<'a>(bytes: &'a [u8], section: &SectionHeader) -> &'a [u8]
    ensures { result.now ≡ contents bytes.now section.now }
{
    if !has_bytes(section) {
        return &[];
    }
    let rest = tail(bytes, section.offset);
    let len = rest.len().min(section.size as usize);
    &rest[..len]
}

/// The bytes from an offset on; empty if the offset is after the end.
pub fn tail(bytes: &[u8], offset: u64) -> &[u8]
    ensures { result.now ≡ drop offset bytes.now }
{
    bytes.get(offset as usize..).unwrap_or(&[])
}

/// Whether a section ends after the end of a file.
#[tactic(auto, unfolding(btf_elf_model::specs::Section::is_past_end))]
fn is_past_end(section: &SectionHeader, len: u64) -> bool
    ensures { result ≡ is_past_end len section.now }
{
    has_bytes(section) && (len < section.offset || len - section.offset < section.size)
}

/// Whether a section shares bytes with the file header, or with the section header table, which has this start and end.
#[tactic(auto, unfolding(btf_elf_model::specs::Section::is_over_headers))]
fn is_over_headers(section: &SectionHeader, table: u64, end: u64) -> bool
    ensures { result ≡ is_over_headers table end section.now }
{
    let offset = section.offset;
    let ends_after = |place: u64| place < offset || place - offset < section.size;
    has_bytes(section) && section.size > 0 && (offset < 64 || (offset < end && ends_after(table)))
}

/// The first section that ends after the end of a file.
fn first_past_end(sections: &[SectionHeader], len: u64) -> Option<usize>
    ensures { result ≡ position (is_past_end len) sections.now }
{
    sections.iter().position(|s| is_past_end(s, len))
}

/// The first section that shares bytes with a header.
fn first_over_headers(sections: &[SectionHeader], table: u64, end: u64) -> Option<usize>
    ensures { result ≡ position (is_over_headers table end) sections.now }
{
    sections.iter().position(|s| is_over_headers(s, table, end))
}

/// Checks all sections. Fails with `SectionOutOfRange` of the first section that ends after the end, or else with
/// `SectionOverHeaders` of the first that overlaps a header. The table of section headers ends at `end`.
#[tactic(auto, unfolding(btf_elf_model::specs::Object::section_error))]
pub fn check_sections(
    bytes: &[u8],
    header: &FileHeader,
    end: u64,
    sections: &[SectionHeader],
) -> Result<(), ParseError>
    requires { end ≡ table_end header.now bytes.now }
    ensures { HasError result (section_error header.now bytes.now sections.now) }
{
    if let Some(index) = first_past_end(sections, bytes.len() as u64) {
        return Err(ParseError::SectionOutOfRange { index });
    }
    if let Some(index) = first_over_headers(sections, header.section_headers, end) {
        return Err(ParseError::SectionOverHeaders { index });
    }
    Ok(())
}
