//! Sections and their names, and the sections of relocation records.

ghost use Rattle.std.specs.Prelude.{◌≡◌, ◌<◌, ◌≤◌, length, map, string_bytes, IfOk};
ghost use Rattle.std.specs.List.{AllByRecursion};
ghost use Rattle.btf_model.specs.Ext.{AreSections, IsSection, relocation_section};
ghost use Rattle.btf_model.specs.Text.{text_at};
ghost use Rattle.btf_plain.specs.Error.{MeetsOrNoMemory, IsOrNoMemory};
ghost use Rattle.btf_ext.specs.SecInfo.{section_of, ReadsSections};
ghost use Rattle.btf_ext.specs.Relocation.{relocation};

use crate::header::Part;
use crate::records::read_records;
use crate::sections::{SecInfo, SecInfoIter};
use btf_plain::{BtfError, Endianness};
use btf_table::{Btf, BtfStr};
use std::alloc::{AllocError, Global};
use std::collections::BTreeSet;

/// A copy of the text at a string offset. The error is `InvalidStringOffset` if it can't be read.
pub fn name_at(alloc: Global, btf: &Btf, offset: u32) -> Result<String, BtfError>
    ensures { IsOrNoMemory string_bytes result (text_at btf.now.strings offset) }
{
    match btf.string_at(offset)? {
        BtfStr::Borrowed(text) => Ok(text.to_string(alloc)?),
        BtfStr::Owned(text) => Ok(text),
    }
}

/// The sections of a part, in order.
pub fn read_sections<'a>(
    alloc: Global,
    part: &Part<'a>,
    endianness: Endianness,
) -> Result<Vec<SecInfo<'a>>, BtfError>
    ensures { MeetsOrNoMemory (λ v. map section_of v.items) result
        (AreSections endianness part.now.rec_size part.now.sections.now) }
{
    let mut sections = Vec::new(alloc);
    for section in SecInfoIter::new(part.sections, part.rec_size, endianness) {
        sections.push(section?)?;
    }
    Ok(sections)
}

/// The sections of a part, in order, after a check that each name can be read. The check reads a name once for each
/// string offset, however many sections share it, and drops it.
///
/// For each section in turn, the error is `InvalidInfo` as `SecInfoIter` reports it, or `InvalidStringOffset` if its
/// name can't be read.
pub fn readable_sections<'a>(
    alloc: Global,
    part: &Part<'a>,
    endianness: Endianness,
    btf: &Btf,
) -> Result<Vec<SecInfo<'a>>, BtfError>
    ensures { MeetsOrNoMemory (λ v. map section_of v.items) result (ReadsSections
        endianness part.now.rec_size btf.now.strings part.now.sections.now) }
{
    let mut sections = Vec::new(alloc);
    let mut met = BTreeSet::new(alloc);
    for section in SecInfoIter::new(part.sections, part.rec_size, endianness) {
        let section = section?;
        let is_new = met.insert(section.name_offset)?;
        if is_new {
            btf.string_at(section.name_offset)?;
        }
        sections.push(section)?;
    }
    Ok(sections)
}

/// The relocation records of sections, each with the string offset of its section's name.
pub fn read_relocations(
    alloc: Global,
    sections: &[SecInfo<'_>],
    rec_size: usize,
    endianness: Endianness,
) -> Result<Vec<(u32, Vec<[u32; 4]>)>, AllocError>
    requires whole { AllByRecursion (IsSection rec_size) (map section_of sections.now) }
    requires wide { 0 < length sections.now → 16 ≤ rec_size }
    ensures { IfOk result (λ v. map relocation v.items ≡ map
        (relocation_section endianness rec_size) (map section_of sections.now)) }
{
    let mut relocations = Vec::with_capacity(alloc, sections.len())?;
    for section in sections {
        let records = read_records(alloc, section, rec_size, endianness)?;
        relocations.push((section.name_offset, records))?;
    }
    Ok(relocations)
}

/// Equal relocation records.
pub fn clone_relocations(
    relocations: &Vec<(u32, Vec<[u32; 4]>)>,
) -> Result<Vec<(u32, Vec<[u32; 4]>)>, AllocError>
    ensures { IfOk result (λ v. map relocation v.items ≡ map relocation relocations.now.items) }
{
    let alloc = *relocations.allocator();
    let mut copies = Vec::with_capacity(alloc, relocations.len())?;
    for (name_offset, records) in relocations {
        copies.push((*name_offset, Vec::from_slice(alloc, records)?))?;
    }
    Ok(copies)
}
