//! String tables, and names in them.

ghost use Rattle.std.specs.Prelude.{◌≡◌, ◌<◌, ◌≤◌, Some, not, position, take, length, IfOk, IfSome, IfNone};
ghost use Rattle.std.specs.List.{before_first};
ghost use Rattle.std.specs.Option.{option_copied};
ghost use Rattle.std.specs.Str.{bytes_eq};
ghost use Rattle.btf_elf_model.specs.Section.{ends_name, is_string_table, is_name_offset, string_from, string_table, names_index};
ghost use Rattle.btf_elf_model.specs.Object.{names_of, name_error};
ghost use Rattle.btf_elf.specs.Results.{HasError};

use crate::section::{contents, tail};
use btf_elf_model::{FileHeader, ParseError, SectionHeader};

/// `SHN_XINDEX`: the header of section 0 has the index.
const XINDEX: u16 = 0xffff;

/// The index of the section with the names of sections; 0 for none.
#[tactic(auto, unfolding(btf_elf_model::specs::Section::names_index))]
pub fn names_index(header: &FileHeader, sections: &[SectionHeader]) -> u32
    ensures { result ≡ names_index header.now sections.now }
{
    if header.section_names != XINDEX {
        return u32::from(header.section_names);
    }
    match sections.first() {
        Some(first) => first.link,
        None => 0,
    }
}

/// Whether bytes are empty, or begin and end with a zero byte.
#[tactic(auto, unfolding(btf_elf_model::specs::Section::is_string_table))]
fn is_string_table(strings: &[u8]) -> bool
    ensures { result ≡ is_string_table strings.now }
{
    strings.is_empty() || (strings[0] == 0 && strings[strings.len() - 1] == 0)
}

/// The string table that an index names, and an empty one for index 0. None if there is no such section, or if it is no
/// string table.
#[tactic(auto, unfolding(btf_elf_model::specs::Section::string_table))]
pub fn string_table<'a>(bytes: &'a [u8], sections: &[SectionHeader], index: u32) -> Option<&'a [u8]>
    ensures { option_copied result ≡ string_table bytes.now sections.now index }
{
    if index == 0 {
        return Some(&[]);
    }
    let section = sections.get(index as usize)?;
    if section.kind != SectionHeader::STRTAB {
        return None;
    }
    let strings = contents(bytes, section);
    if is_string_table(strings) {
        Some(strings)
    } else {
        None
    }
}

/// Whether a name begins at an offset.
pub fn is_name(strings: &[u8], offset: u32) -> bool
    ensures { result ≡ is_name_offset strings.now offset }
{
    offset == 0 || (offset as usize) < strings.len()
}

/// The index of the first zero byte.
fn first_zero(bytes: &[u8]) -> Option<usize>
    ensures { result ≡ position ends_name bytes.now }
{
    bytes.iter().position(|&byte| byte == 0)
}

/// The bytes up to the first zero byte; all bytes if there is none.
fn before_zero(bytes: &[u8]) -> &[u8]
    ensures { result.now ≡ before_first ends_name bytes.now }
{
    match first_zero(bytes) {
        Some(len) => &bytes[..len],
        None => bytes,
    }
}

/// The name at an offset: the bytes up to the first zero byte.
#[tactic(auto, unfolding(btf_elf_model::specs::Section::string_from))]
pub fn name_at(strings: &[u8], offset: u32) -> &[u8]
    ensures { result.now ≡ string_from strings.now offset }
{
    before_zero(tail(strings, u64::from(offset)))
}

/// At most as many bytes from the front.
fn front(bytes: &[u8], most: usize) -> &[u8]
    ensures { result.now ≡ take most bytes.now }
{
    let len = most.min(bytes.len());
    &bytes[..len]
}

/// The name at an offset; None if it has `limit` bytes or more. Reads at most `limit` bytes.
pub fn short_name(strings: &[u8], offset: u32, limit: usize) -> Option<&[u8]>
    ensures some { IfSome result (λ name. (name.now ≡ string_from strings.now offset)
        × (length name.now < limit)) }
    ensures none { IfNone result (limit ≤ length (string_from strings.now offset)) }
{
    let rest = tail(strings, u64::from(offset));
    match first_zero(front(rest, limit)) {
        Some(len) => Some(&rest[..len]),
        None if rest.len() < limit => Some(rest),
        None => None,
    }
}

/// Whether the name at an offset is this one. It reads at most one byte more than the name has.
pub fn has_name(strings: &[u8], offset: u32, name: &[u8]) -> bool
    ensures { result ≡ bytes_eq (string_from strings.now offset) name.now }
{
    let rest = tail(strings, u64::from(offset));
    let len = (name.len() + 1).min(rest.len());
    before_zero(&rest[..len]) == name
}

/// The first section whose name doesn't begin in a string table.
fn first_unnamed(names: &[u8], sections: &[SectionHeader]) -> Option<usize>
    ensures { result ≡ position (λ s. not (is_name_offset names.now s.name)) sections.now }
{
    sections.iter().position(|s| !is_name(names, s.name))
}

/// Checks the names of all sections. Fails with `BadSectionName` of the first section whose name doesn't begin in the
/// table.
#[tactic(auto, unfolding(btf_elf_model::specs::Object::name_error))]
pub fn check_names(names: &[u8], sections: &[SectionHeader]) -> Result<(), ParseError>
    ensures { HasError result (name_error (Some names.now) sections.now) }
{
    match first_unnamed(names, sections) {
        Some(index) => Err(ParseError::BadSectionName { index }),
        None => Ok(()),
    }
}

/// The string table with the names of sections, in which each name begins. Fails with `BadNameTable` or
/// `BadSectionName`, tested in this order.
#[tactic(auto, unfolding(btf_elf_model::specs::Object::name_error))]
pub fn read_names<'a>(
    bytes: &'a [u8],
    header: &FileHeader,
    sections: &[SectionHeader],
) -> Result<&'a [u8], ParseError>
    ensures error { HasError result (name_error (names_of header.now bytes.now sections.now)
        sections.now) }
    ensures ok { IfOk result (λ names.
        names_of header.now bytes.now sections.now ≡ Some names.now) }
{
    let index = names_index(header, sections);
    match string_table(bytes, sections, index) {
        Some(names) => {
            check_names(names, sections)?;
            Ok(names)
        }
        None => Err(ParseError::BadNameTable),
    }
}
