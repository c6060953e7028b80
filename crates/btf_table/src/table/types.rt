//! The type section: records, one after another.

ghost use Rattle.std.specs.Prelude.{◌≡◌, ◌≤◌, ◌++◌, length, map, Ok, OnOk};
ghost use Rattle.std.specs.List.{flat_map, AllByRecursion};
ghost use Rattle.btf_model.specs.Spelling.{spell, IsWhole};
ghost use Rattle.btf_model.specs.Table.{no_fallbacks, section_limit};
ghost use Rattle.btf_plain.specs.Error.{MeetsOrNoMemory, IsOrNoMemory};
ghost use Rattle.btf_records.specs.BtfType.{record_of, fallback_of};
ghost use Rattle.btf_table.specs.Records.{ReadsTypes};

use btf_plain::{BtfError, Endianness};
use btf_records::{BtfType, without_fallback};
use std::alloc::{AllocError, Global};

/// The number of types for which a parsed table or a copy has room beside its own: a rewrite seldom appends more.
const SPARE: usize = 4;

/// The length in bytes of the records for which a parse first makes room. The records of a kernel's table have 25 to 34
/// bytes on average, so their vector never grows, which would cost page faults.
const USUAL_LEN: usize = 22;

/// The length in bytes of the shortest record.
const LEAST_LEN: usize = 12;

/// The types of a type section, by id; the type of id 0 is first.
///
/// Fails if the section does not consist of records: with `InvalidTypeInfo` if a record is truncated, and with
/// `InvalidTypeKind` if the library does not read its kind.
pub fn read_types(
    alloc: Global,
    data: &[u8],
    endianness: Endianness,
) -> Result<Vec<BtfType>, BtfError>
    ensures { MeetsOrNoMemory (λ v. v.items) result (ReadsTypes endianness «data».now) }
{
    let mut types = Vec::with_capacity(alloc, 1 + data.len() / USUAL_LEN + SPARE)?;
    types.push(BtfType::Unknown)?;
    let mut rest = data;
    while !rest.is_empty() {
        make_room(&mut types, rest)?;
        let size = BtfType::read_onto(&mut types, rest, endianness)?;
        let (_, behind) = rest.split_at(size);
        rest = behind;
    }
    Ok(types)
}

/// Makes room for one more type. A full vector grows once: to the most types that the rest of the section can hold.
fn make_room(types: &mut Vec<BtfType>, rest: &[u8]) -> Result<(), AllocError>
    ensures { types.new.items ≡ types.old.items }
{
    if types.len() == types.capacity() {
        types.reserve_exact(rest.len() / LEAST_LEN + SPARE)?;
    }
    Ok(())
}

/// Appends records to bytes, in this byte order.
pub fn append_types(
    out: &mut Vec<u8>,
    types: &[BtfType],
    endianness: Endianness,
) -> Result<(), AllocError>
    ensures written { OnOk result (out.new.items ≡ out.old.items
        ++ flat_map (spell endianness) (map record_of types.now)) }
    // The written bytes are read as these records.
    ensures whole { OnOk result (AllByRecursion IsWhole (map record_of types.now)) }
{
    for record in types {
        record.append_to(out, endianness)?;
    }
    Ok(())
}

/// Copies of the types, in a vector that has room for a few more, so that a rewrite of a copied table does not move all
/// types to append an INT.
pub fn clone_types(types: &Vec<BtfType>) -> Result<Vec<BtfType>, BtfError>
    ensures records { IsOrNoMemory (λ v. map record_of v.items) result
        (Ok (map record_of types.now.items)) }
    ensures fallbacks { IsOrNoMemory (λ v. map fallback_of v.items) result
        (Ok (map fallback_of types.now.items)) }
{
    let mut copies = Vec::with_capacity(*types.allocator(), types.len() + SPARE)?;
    for record in types.as_slice() {
        copies.push(record.try_clone()?)?;
    }
    Ok(copies)
}

/// Copies of the types without their fallbacks, in a vector that has room for this number of further types.
pub fn clone_records(types: &Vec<BtfType>, more: usize) -> Result<Vec<BtfType>, BtfError>
    ensures records { IsOrNoMemory (λ v. map record_of v.items) result
        (Ok (map record_of types.now.items)) }
    ensures fallbacks { IsOrNoMemory (λ v. map fallback_of v.items) result
        (Ok (no_fallbacks (map record_of types.now.items))) }
{
    let mut copies = Vec::with_capacity(*types.allocator(), types.len().saturating_add(more))?;
    for record in types.as_slice() {
        copies.push(without_fallback(record.try_clone()?))?;
    }
    Ok(copies)
}

/// The length of types in bytes, for the crates that use this one.
pub fn types_len(types: &[BtfType], endianness: Endianness) -> usize
    requires { length (flat_map (spell endianness) (map record_of types.now)) ≤ section_limit }
    ensures { result ≡ length (flat_map (spell endianness) (map record_of types.now)) }
{
    let mut len = 0;
    for btf_type in types {
        len += btf_type.type_info_size();
    }
    len
}
