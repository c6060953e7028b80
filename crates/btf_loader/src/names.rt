//! The sections of code, by their names.

ghost use Rattle.std.specs.Prelude.{◌≡◌, ◌+◌, ◌<◌, ◌∷◌, drop, length, if◌then◌else◌, nat_lt, None, IfOk, OnOk};
ghost use Rattle.btf_elf_model.specs.Section.{has_bytes};
ghost use Rattle.btf_object_model.specs.Layout.{name_limit};
ghost use Rattle.btf_loader.specs.Names.{HasIndices, HasIndicesFrom, name_index_in};

use btf_elf::{Object, SectionHeader};
use btf_object::NAME_LIMIT;
use std::alloc::{AllocError, Global};
use std::collections::BTreeMap;

/// Whether the file has bytes of a section.
pub fn has_bytes(section: &SectionHeader) -> bool
    ensures { result ≡ has_bytes section.now }
{
    section.kind != SectionHeader::NULL && section.kind != SectionHeader::NOBITS
}

/// The header at an index.
fn header_at(sections: &[SectionHeader], index: usize) -> &SectionHeader
    requires { index < length sections.now }
    ensures { drop index sections.now ≡ result.now ∷ drop (index + 1) sections.now }
{
    &sections[index]
}

/// Adds a section by its index, if the file has bytes of it, and its name is not too long.
fn add<'a>(
    named: &mut BTreeMap<&'a [u8], usize>,
    object: &Object<'a>,
    index: usize,
) -> Result<(), AllocError>
    requires { index < length object.now.sections }
    ensures { OnOk result (HasIndicesFrom named.old object.now (index + 1)
        → HasIndicesFrom named.new object.now index) }
{
    let section = header_at(object.sections(), index);
    if !has_bytes(section) {
        return Ok(());
    }
    if let Some(name) = object.short_section_name(section, NAME_LIMIT) {
        let _ = named.insert(name, index)?;
    }
    Ok(())
}

/// The first section of each name that has bytes in the file, by its index. Names of `NAME_LIMIT` bytes or more are
/// left out, so each name takes a bounded time.
pub fn sections_by_name<'a>(
    alloc: Global,
    object: &Object<'a>,
) -> Result<BTreeMap<&'a [u8], usize>, AllocError>
    ensures { IfOk result (λ named. HasIndices named object.now) }
{
    let mut named = BTreeMap::new(alloc);
    let count = object.sections().len();
    // From the last section to the first, so that the first one of a name remains.
    for done in 0..count {
        add(&mut named, object, count - 1 - done)?;
    }
    Ok(named)
}

/// The index that a map has for a name; None for a name of `NAME_LIMIT` bytes or more.
pub fn index_in(named: &BTreeMap<&[u8], usize>, name: &[u8]) -> Option<usize>
    ensures { result ≡ (if nat_lt (length name.now) name_limit
        then name_index_in named.now name.entry else None) }
{
    if name.len() < NAME_LIMIT {
        named.get(name).copied()
    } else {
        None
    }
}
