//! A caller of three lines for each of the most important calls. `docs/API.md` shows them.

use btf::{
    Btf, BtfError, BtfExt, BtfFeature, BtfFeatureResolver, BtfKind, BtfType, Endianness, KsymsIds,
    Ptr, fields_are_compatible, relocations_of, rewrite_bytes, types_are_compatible,
    types_are_compatible_traced, variant_value,
};
use std::alloc::Global;
use std::collections::HashMap;

/// For `Btf::parse`: the number of types in the bytes of a `.BTF` section, including the void type.
pub fn count(alloc: Global, section: &[u8]) -> Result<usize, BtfError> {
    let table = Btf::parse(alloc, section, Endianness::Little)?;
    Ok(table.types().len())
}

/// For `Btf::to_bytes`: whether the written table equals the bytes that it was read from.
pub fn is_written_so(table: &Btf, section: &[u8]) -> Result<bool, BtfError> {
    let written = table.to_bytes()?;
    Ok(written.as_slice() == section)
}

/// For `Btf::add_string`: the string offset of a new name.
pub fn add_name(table: &mut Btf) -> Result<u32, BtfError> {
    let offset = table.add_string("dummy_ksym")?;
    Ok(offset)
}

/// For `Btf::add_type`: the id of a new pointer to a type.
pub fn add_pointer(table: &mut Btf, target: u32) -> Result<u32, BtfError> {
    let id = table.add_type(BtfType::Ptr(Ptr::new(0, target)))?;
    Ok(id)
}

/// For `Btf::type_by_id`: the kind of a type.
pub fn kind(table: &Btf, id: u32) -> Result<BtfKind, BtfError> {
    let record = table.type_by_id(id)?;
    Ok(record.kind())
}

/// For `Btf::type_name`: whether a type has a name.
pub fn is_named(table: &Btf, record: &BtfType) -> Result<bool, BtfError> {
    let name = table.type_name(record)?;
    Ok(!name.as_str().is_empty())
}

/// For `Btf::id_by_type_name_kind`: the id of a structure.
pub fn find(table: &Btf) -> Result<u32, BtfError> {
    let id = table.id_by_type_name_kind("task_struct", BtfKind::Struct)?;
    Ok(id)
}

/// For `Btf::resolve_type`: whether a type is a pointer, after typedefs and modifiers.
pub fn is_pointer(table: &Btf, id: u32) -> Result<bool, BtfError> {
    let end = table.resolve_type(id)?;
    Ok(kind(table, end)? == BtfKind::Ptr)
}

/// For `Btf::type_size`: the size of a value of a type in bytes.
pub fn size(table: &Btf, id: u32) -> Result<usize, BtfError> {
    let bytes = table.type_size(id)?;
    Ok(bytes)
}

/// For `Btf::fixup_ksyms_datasec`: makes ordinary variables of the entries of `.ksyms`.
pub fn fix_ksyms(table: &mut Btf) -> Result<(), BtfError> {
    let id = table.id_by_type_name_kind(".ksyms", BtfKind::DataSec)?;
    table.fixup_ksyms_datasec(id, None)
}

/// For `Btf::fixup_and_sanitize`: rewrites a table for a kernel that has functions and data sections.
pub fn sanitize(alloc: Global, table: &mut Btf) -> Result<usize, BtfError> {
    let has = |feature| matches!(feature, BtfFeature::Func | BtfFeature::DataSec);
    let mut kernel = BtfFeatureResolver::new(has);
    let (sections, symbols) = (HashMap::new(alloc), HashMap::new(alloc));
    let answers = table.fixup_and_sanitize(&sections, &symbols, None, &mut kernel)?;
    Ok(answers.len())
}

/// For `rewrite_bytes`: the bytes of a `.BTF` section for a kernel that has none of the features.
pub fn rewrite(alloc: Global, section: &[u8]) -> Result<Vec<u8>, BtfError> {
    let mut kernel = BtfFeatureResolver::new(|_feature| false);
    let (sections, symbols) = (HashMap::new(alloc), HashMap::new(alloc));
    let order = Endianness::Little;
    let (bytes, _) = rewrite_bytes(
        alloc,
        section,
        order,
        &sections,
        &symbols,
        None,
        &mut kernel,
    )?;
    Ok(bytes)
}

/// For `types_are_compatible`: whether a type of a program fits one of a kernel.
pub fn fits(program: &Btf, id: u32, kernel: &Btf, other: u32) -> Result<bool, BtfError> {
    let is_compatible = types_are_compatible(program, id, kernel, other)?;
    Ok(is_compatible)
}

/// For `fields_are_compatible`: whether the type of a field of a program fits that of a kernel.
pub fn field_fits(program: &Btf, id: u32, kernel: &Btf, other: u32) -> Result<bool, BtfError> {
    let is_compatible = fields_are_compatible(program, id, kernel, other)?;
    Ok(is_compatible)
}

/// For `types_are_compatible_traced`: the number of pairs of types that a comparison starts.
pub fn pairs(alloc: Global, table: &Btf, id: u32, other: u32) -> Result<usize, BtfError> {
    let mut started = Vec::new(alloc);
    types_are_compatible_traced(table, id, table, other, &mut started)?;
    Ok(started.len())
}

/// For `variant_value`: the value of a variant, if the enumeration has it.
pub fn value(table: &Btf, id: u32) -> Result<Option<u64>, BtfError> {
    let value = variant_value(table, id, "BPF_PROG_TYPE_XDP")?;
    Ok(value)
}

/// For `BtfExt::parse`: the number of relocation sections in the bytes of a `.BTF.ext` section.
pub fn relocation_sections(section: &[u8], table: &Btf) -> Result<usize, BtfError> {
    let ext = BtfExt::parse(section, Endianness::Little, table)?;
    Ok(ext.relocations().len())
}

/// For `relocations_of`: the number of relocations of the instructions of a section.
pub fn relocations(alloc: Global, ext: &BtfExt, table: &Btf) -> Result<usize, BtfError> {
    let records = relocations_of(alloc, ext, table, "xdp")?;
    Ok(records.len())
}
