//! The sections and symbols of a program, as C names them.

ghost use Rattle.std.specs.Prelude.{◌≡◌, ℕ, List, IfOk, IfSome, IfNone};
ghost use Rattle.btf.specs.Layout.{sizes_of, offsets_of, layout_of};
ghost use Rattle.vbtf.specs.Program.{name_in, number_named, layout_named, IsReadable, AreReadableEntries, AreReadable, program_layout};

use crate::seed::Keys;
use btf::SectionIndex;
use std::alloc::{AllocError, Global};
use std::collections::HashMap;
use std::str;

/// A name in a buffer of names, and its number: the size of a section, or the offset of a symbol.
#[repr(C)]
#[derive(Drop)]
pub struct Named {
    /// The offset of the name in the buffer, in bytes.
    pub at: u32,
    /// The length of the name in bytes.
    pub len: u32,
    /// The size of the section, or the offset of the symbol.
    pub number: u64,
}

/// The sizes of sections and the offsets of symbols, by name.
#[derive(Drop)]
pub(crate) struct Program {
    pub(crate) sections: HashMap<String, (SectionIndex, u64), Keys>,
    pub(crate) symbols: HashMap<String, u64, Keys>,
}

impl Program {
    /// The sections and symbols of these entries, in maps whose hashers have these keys. If several entries have one
    /// name, the last one counts. None if a name is not in its buffer, or is not UTF-8.
    pub(crate) fn read(
        alloc: Global,
        keys: Keys,
        section_names: &[u8],
        sections: &[Named],
        symbol_names: &[u8],
        symbols: &[Named],
    ) -> Result<Option<Program>, AllocError>
        ensures some { IfOk result (λ o. IfSome o (λ p. program_layout p
            ≡ layout_named section_names.now sections.now symbol_names.now symbols.now)) }
        ensures readable { IfOk result (λ found. IfSome found
            (λ _. AreReadable section_names.now sections.now symbol_names.now symbols.now)) }
        ensures none { IfOk result (λ found. IfNone found
            (AreReadable section_names.now sections.now symbol_names.now symbols.now → ⊥)) }
    {
        let Some(sections) = read_sections(alloc, keys, section_names, sections)? else {
            return Ok(None);
        };
        let Some(symbols) = read_symbols(alloc, keys, symbol_names, symbols)? else {
            return Ok(None);
        };
        Ok(Some(Program { sections, symbols }))
    }
}

/// The name of an entry. None if it is not in the buffer, or is not UTF-8.
fn name_of<'a>(names: &'a [u8], entry: &Named) -> Option<&'a str>
    ensures some { IfSome result (λ name. (name.now ≡ name_in names.now entry.now)
        × IsReadable names.now entry.now) }
    ensures none { IfNone result (IsReadable names.now entry.now → ⊥) }
{
    let at = entry.at as usize;
    let bytes = names.get(at..at + entry.len as usize)?;
    str::from_utf8(bytes).ok()
}

/// The sizes of the sections of these entries. Their indices are not used. None if a name cannot be read.
fn read_sections(
    alloc: Global,
    keys: Keys,
    names: &[u8],
    entries: &[Named],
) -> Result<Option<HashMap<String, (SectionIndex, u64), Keys>>, AllocError>
    ensures some { IfOk result (λ found. IfSome found (λ map. (name : List ℕ)
        → sizes_of map name ≡ number_named names.now entries.now name)) }
    ensures readable { IfOk result (λ found. IfSome found
        (λ _. AreReadableEntries names.now entries.now)) }
    ensures none { IfOk result
        (λ found. IfNone found (AreReadableEntries names.now entries.now → ⊥)) }
{
    let mut map = HashMap::with_hasher(alloc, keys);
    for entry in entries {
        let Some(name) = name_of(names, entry) else {
            return Ok(None);
        };
        map.insert(name.to_string(alloc)?, (SectionIndex(0), entry.number))?;
    }
    Ok(Some(map))
}

/// The offsets of the symbols of these entries. None if a name cannot be read.
fn read_symbols(
    alloc: Global,
    keys: Keys,
    names: &[u8],
    entries: &[Named],
) -> Result<Option<HashMap<String, u64, Keys>>, AllocError>
    ensures some { IfOk result (λ found. IfSome found (λ map. (name : List ℕ)
        → offsets_of map name ≡ number_named names.now entries.now name)) }
    ensures readable { IfOk result (λ found. IfSome found
        (λ _. AreReadableEntries names.now entries.now)) }
    ensures none { IfOk result
        (λ found. IfNone found (AreReadableEntries names.now entries.now → ⊥)) }
{
    let mut map = HashMap::with_hasher(alloc, keys);
    for entry in entries {
        let Some(name) = name_of(names, entry) else {
            return Ok(None);
        };
        map.insert(name.to_string(alloc)?, entry.number)?;
    }
    Ok(Some(map))
}
