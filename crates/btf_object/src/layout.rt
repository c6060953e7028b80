//! The data that the rewrite of a table needs from an object.

ghost use Rattle.std.specs.HashMap.{hasher_of};
ghost use Rattle.std.specs.Prelude.{◌≡◌, List, ℕ, IfOk, IfSome, IfNone};
ghost use Rattle.btf_table.specs.Layout.{layout_of, sizes_of, offsets_of};
ghost use Rattle.btf_object_model.specs.Layout as model;
ghost use Rattle.btf_object.specs.Names.{name_indices, IsReadSection, IsSectionLeftOut, IsReadSymbol, IsSymbolLeftOut};

use crate::names::{section_text, symbol_text};
use btf_elf::{Object, Symbol};
use btf_plain::SectionIndex;
use std::alloc::{AllocError, Global};
use std::collections::HashMap;
use std::hash::{BuildHasher, BuildHasherDefault, FoldHasher};

/// The data that the rewrite of a table needs from an object: the sizes of its sections, and the offsets of its
/// symbols.
///
/// A name that is not UTF-8, or has 512 bytes or more, is left out, because no table that a kernel accepts has it. The
/// symbols are the ones that aya uses: all that are not local, and local ones of type `STT_OBJECT`. Undefined symbols
/// are included, with the value 0. libbpf uses only symbols of type `STT_OBJECT` that are global or weak. No section of
/// an object is named `.kconfig`; libbpf and `sanitize_finalized` give this DATASEC a size of its own.
///
/// Names are hashed by an `H`. The default has a fixed seed, so an attacker can choose names that collide, and n of
/// them take time in proportion to n squared. For an untrusted object, pass a hasher with random keys, as
/// `RandomState`.
#[derive(Drop)]
pub struct ObjectLayout<H: BuildHasher = BuildHasherDefault<FoldHasher>> {
    /// The index and `sh_size` of the last section of each name.
    pub sections: HashMap<String, (SectionIndex, u64), H>,
    /// `st_value` of the last symbol of each name.
    pub symbols: HashMap<String, u64, H>,
}

impl<H: BuildHasher> ObjectLayout<H> {
    /// The layout of an object, in maps whose hashers are this one and a clone of it. `AllocError` is the only error.
    pub fn read(
        alloc: Global,
        object: &Object<'_>,
        hash_builder: H,
    ) -> Result<ObjectLayout<H>, AllocError>
    where
        H: Clone + Drop,
        ensures layout { IfOk result (λ l.
            layout_of l.sections l.symbols ≡ model.object_layout object.now) }
        ensures indices { IfOk result (λ l. (name : List ℕ)
            → name_indices l.sections name ≡ model.last_index_of object.now name) }
        ensures hashers { IfOk result (λ l. H.is_clone hash_builder (hasher_of l.sections)
            × (hasher_of l.symbols ≡ hash_builder)) }
    {
        let sections = read_sections(alloc, object, hash_builder.clone()?)?;
        let symbols = read_symbols(alloc, object, hash_builder)?;
        Ok(ObjectLayout { sections, symbols })
    }
}

/// `STB_LOCAL`: the binding of a symbol that is not visible in other objects.
pub const STB_LOCAL: u8 = 0;

/// `STT_OBJECT`: the type of a symbol of a variable.
pub const STT_OBJECT: u8 = 1;

/// Whether the offset of a symbol is read.
fn is_read(symbol: &Symbol) -> bool
    ensures { result ≡ model.is_read_symbol symbol.now }
{
    symbol.binding != STB_LOCAL || symbol.kind == STT_OBJECT
}

/// The name and the value of the symbol of an index, if they are read.
fn read_symbol<'a>(object: &Object<'a>, index: usize) -> Option<(&'a str, u64)>
    ensures some { IfSome result (λ named. IsReadSymbol object.now index named.0.now named.1) }
    ensures none { IfNone result (IsSymbolLeftOut object.now index) }
{
    let symbol = object.symbol(index)?;
    if !is_read(&symbol) {
        return None;
    }
    let name = symbol_text(object, &symbol)?;
    Some((name, symbol.value))
}

/// The name and the size of the section of an index, if a rewrite may ask for the name.
fn read_section<'a>(object: &Object<'a>, index: usize) -> Option<(&'a str, u64)>
    ensures some { IfSome result (λ named. IsReadSection object.now index named.0.now named.1) }
    ensures none { IfNone result (IsSectionLeftOut object.now index) }
{
    let section = object.sections().get(index)?;
    let name = section_text(object, section)?;
    Some((name, section.size))
}

/// The index and the size of the last section of each name, in a map with this hasher.
fn read_sections<H: BuildHasher + Drop>(
    alloc: Global,
    object: &Object<'_>,
    hash_builder: H,
) -> Result<HashMap<String, (SectionIndex, u64), H>, AllocError>
    ensures sizes { IfOk result (λ map. (name : List ℕ)
        → sizes_of map name ≡ model.last_section_size object.now name) }
    ensures indices { IfOk result (λ map. (name : List ℕ)
        → name_indices map name ≡ model.last_index_of object.now name) }
    ensures hasher { IfOk result (λ map. hasher_of map ≡ hash_builder) }
{
    let mut map = HashMap::with_hasher(alloc, hash_builder);
    for index in 0..object.sections().len() {
        if let Some((name, size)) = read_section(object, index) {
            map.insert(name.to_string(alloc)?, (SectionIndex(index), size))?;
        }
    }
    Ok(map)
}

/// The value of the last symbol of each name, in a map with this hasher.
fn read_symbols<H: BuildHasher + Drop>(
    alloc: Global,
    object: &Object<'_>,
    hash_builder: H,
) -> Result<HashMap<String, u64, H>, AllocError>
    ensures values { IfOk result (λ map. (name : List ℕ)
        → offsets_of map name ≡ model.offset_of object.now name) }
    ensures hasher { IfOk result (λ map. hasher_of map ≡ hash_builder) }
{
    let mut map = HashMap::with_hasher(alloc, hash_builder);
    for index in 0..object.symbol_count() {
        if let Some((name, value)) = read_symbol(object, index) {
            map.insert(name.to_string(alloc)?, value)?;
        }
    }
    Ok(map)
}
