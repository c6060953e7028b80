//! The table of section headers.

ghost use Rattle.std.specs.Prelude.{◌≡◌, ◌≢◌, ◌+◌, ◌-◌, ◌*◌, max, ◌/◌, ◌<◌, ◌^◌, length, map, IfOk, OnOk};
ghost use Rattle.btf_elf_model.specs.Section.{section_header, section_count, table_end};
ghost use Rattle.btf_elf_model.specs.Object.{table_error};
ghost use Rattle.btf_elf.specs.Results.{HasError};
ghost use Rattle.btf_elf.specs.Table.{section_header_bytes, count_by_first, IsEntriesAt, FindsTable};

use crate::words::{word_at, xword_at};
use btf_elf_model::{FileHeader, ParseError, SectionHeader};
use btf_model::Endianness;
use std::alloc::{AllocError, Global};

/// The section header that 64 bytes spell.
#[tactic(auto, unfolding(btf_elf_model::specs::Section::section_header))]
fn section_header(entry: &[u8; 64], order: Endianness) -> SectionHeader
    ensures { result ≡ section_header order entry.now }
{
    SectionHeader {
        name: word_at(entry, 0, order),
        kind: word_at(entry, 4, order),
        flags: xword_at(entry, 8, order),
        address: xword_at(entry, 16, order),
        offset: xword_at(entry, 24, order),
        size: xword_at(entry, 32, order),
        link: word_at(entry, 40, order),
        info: word_at(entry, 44, order),
        alignment: xword_at(entry, 48, order),
        entry_size: xword_at(entry, 56, order),
    }
}

/// The number of sections that a file header and the header of section 0 state.
#[tactic(auto, unfolding(crate::specs::Table::count_by_first))]
fn stated_count(header: &FileHeader, first: &[u8; 64]) -> u64
    ensures { result ≡ count_by_first header.now first.now }
{
    if header.section_header_count == 0 {
        section_header(first, header.order).size
    } else {
        u64::from(header.section_header_count)
    }
}

/// All complete section headers from `e_shoff` on; none if `e_shoff` is after the end.
fn entries_at(bytes: &[u8], offset: u64) -> Option<&[[u8; 64]]>
    ensures { IsEntriesAt bytes.now offset result }
{
    let rest = bytes.get(offset as usize..)?;
    let (entries, _) = rest.as_chunks::<64>();
    Some(entries)
}

/// The table of section headers, or `SectionTableOutOfRange`.
#[tactic(auto, unfolding(btf_elf_model::specs::Object::table_error, btf_elf_model::specs::Section::section_count))]
pub fn section_table<'a>(bytes: &'a [u8], header: &FileHeader) -> Result<&'a [[u8; 64]], ParseError>
    ensures error { HasError result (table_error header.now bytes.now) }
    ensures ok { IfOk result (λ t. (t.now ≡ section_header_bytes header.now bytes.now)
        × (length t.now ≡ section_count header.now bytes.now)) }
    ensures end { OnOk result (table_end header.now bytes.now < 2 ^ 63) }
{
    if header.section_headers == 0 {
        return Ok(&[]);
    }
    find_table(bytes, header).ok_or(ParseError::SectionTableOutOfRange)
}

/// The table of section headers, if it begins after the file header and ends within the bytes.
fn find_table<'a>(bytes: &'a [u8], header: &FileHeader) -> Option<&'a [[u8; 64]]>
    requires { header.now.section_headers ≢ 0 }
    ensures { FindsTable bytes.now header.now result }
{
    if header.section_headers < 64 {
        return None;
    }
    let entries = entries_at(bytes, header.section_headers)?;
    let first = entries.first()?;
    entries.get(..stated_count(header, first) as usize)
}

/// The end of the table of section headers.
pub fn table_end(header: &FileHeader, table: &[[u8; 64]]) -> u64
    requires { header.now.section_headers + 64 * max 1 (length table.now) < 2 ^ 63 }
    ensures { result ≡ header.now.section_headers + 64 * max 1 (length table.now) }
{
    header.section_headers + 64 * table.len().max(1) as u64
}

/// The section headers of a table.
pub fn read_sections(
    alloc: Global,
    table: &[[u8; 64]],
    order: Endianness,
) -> Result<Vec<SectionHeader>, AllocError>
    ensures { IfOk result (λ v. v.items ≡ map (section_header order) table.now) }
{
    let mut sections = Vec::with_capacity(alloc, table.len())?;
    for entry in table {
        sections.push(section_header(entry, order))?;
    }
    Ok(sections)
}
