//! Sizes of types, in a table whose pointers have a given size.

ghost use Rattle.std.specs.Prelude.{◌≡◌, ◌<◌, ◌*◌, ◌^◌, ◌≤◌, MatchResult};
ghost use Rattle.btf_model.specs.Record.{kind_of};
ghost use Rattle.btf_records.specs.BtfType.{record_of};
ghost use Rattle.btf_view.specs.TypeRef.{record_in};
ghost use Rattle.btf_relocate_model.specs.Types as model;
ghost use Rattle.btf_table.specs.Extent.{extent_of};

use crate::kinds::array_of;
use btf_plain::BtfKind;
use btf_records::BtfType;
use btf_relocate_model::RelocationError;
use btf_table::{Extent, WALK_LIMIT};
use btf_view::{TableRef, TypeRef};

/// The size of a type in bytes, where a pointer has this size.
pub fn size_of(
    table: &TableRef<'_>,
    pointer_size: u32,
    type_id: u32,
) -> Result<u32, RelocationError>
    ensures { result ≡ model.size_of pointer_size table.now type_id }
{
    let no_size = RelocationError::NoSize { type_id };
    let mut id = type_id;
    let mut count: u32 = 1;
    for _ in 0..WALK_LIMIT {
        let Some(btf_type) = table.type_at(id) else {
            return Err(no_size);
        };
        match extent_at(&btf_type, pointer_size) {
            Extent::Bytes(bytes) => return bytes.checked_mul(count).ok_or(no_size),
            Extent::Times(times, next) => {
                let Some(product) = count.checked_mul(times) else {
                    return Err(no_size);
                };
                count = product;
                id = next;
            }
            Extent::Nothing => return Err(no_size),
        }
    }
    Err(no_size)
}

/// What a type gives for its size.
#[inline(always)]
fn extent_at(btf_type: &TypeRef<'_>, pointer_size: u32) -> Extent
    ensures { extent_of result ≡ model.extent_with pointer_size
        (kind_of (record_in btf_type.now).info) (record_in btf_type.now) }
{
    match btf_type {
        TypeRef::Parsed(parsed) => parsed_extent(parsed, pointer_size),
        TypeRef::Viewed(_) => viewed_extent(*btf_type, pointer_size),
    }
}

/// The same of a type that was parsed.
#[inline(always)]
fn parsed_extent(btf_type: &BtfType, pointer_size: u32) -> Extent
    ensures { extent_of result ≡ model.extent_with pointer_size
        (kind_of (record_of btf_type.now).info) (record_of btf_type.now) }
{
    // Only a use of the kind proves that the info word has it.
    let _ = btf_type.kind();
    match btf_type {
        BtfType::Int(t) => Extent::Bytes(t.size()),
        BtfType::Ptr(_) => Extent::Bytes(pointer_size),
        BtfType::Array(t) => {
            let array = t.array();
            Extent::Times(array.len, array.element_type)
        }
        BtfType::Struct(t) => Extent::Bytes(t.size()),
        BtfType::Union(t) => Extent::Bytes(t.size()),
        BtfType::Enum(t) => Extent::Bytes(t.size()),
        BtfType::DataSec(t) => Extent::Bytes(t.size()),
        BtfType::Float(t) => Extent::Bytes(t.size()),
        BtfType::Enum64(t) => Extent::Bytes(t.size()),
        BtfType::Typedef(t) => Extent::Times(1, t.btf_type()),
        BtfType::Volatile(t) => Extent::Times(1, t.btf_type()),
        BtfType::Const(t) => Extent::Times(1, t.btf_type()),
        BtfType::Restrict(t) => Extent::Times(1, t.btf_type()),
        BtfType::Var(t) => Extent::Times(1, t.btf_type()),
        BtfType::DeclTag(t) => Extent::Times(1, t.btf_type()),
        BtfType::TypeTag(t) => Extent::Times(1, t.btf_type()),
        BtfType::Unknown | BtfType::Fwd(_) | BtfType::Func(_) | BtfType::FuncProto(_) => {
            Extent::Nothing
        }
    }
}

/// The same, by the words of the type. It takes a copy of the type, so that one that was parsed stays in registers.
fn viewed_extent(btf_type: TypeRef<'_>, pointer_size: u32) -> Extent
    ensures { extent_of result ≡ model.extent_with pointer_size
        (kind_of (record_in btf_type.entry).info) (record_in btf_type.entry) }
{
    match btf_type.kind() {
        BtfKind::Int => Extent::Bytes(btf_type.third()),
        BtfKind::Ptr => Extent::Bytes(pointer_size),
        BtfKind::Array => match array_of(&btf_type) {
            Some(array) => Extent::Times(array.len, array.element_type),
            None => Extent::Nothing,
        },
        BtfKind::Struct => Extent::Bytes(btf_type.third()),
        BtfKind::Union => Extent::Bytes(btf_type.third()),
        BtfKind::Enum => Extent::Bytes(btf_type.third()),
        BtfKind::DataSec => Extent::Bytes(btf_type.third()),
        BtfKind::Float => Extent::Bytes(btf_type.third()),
        BtfKind::Enum64 => Extent::Bytes(btf_type.third()),
        BtfKind::Typedef => Extent::Times(1, btf_type.third()),
        BtfKind::Volatile => Extent::Times(1, btf_type.third()),
        BtfKind::Const => Extent::Times(1, btf_type.third()),
        BtfKind::Restrict => Extent::Times(1, btf_type.third()),
        BtfKind::Var => Extent::Times(1, btf_type.third()),
        BtfKind::DeclTag => Extent::Times(1, btf_type.third()),
        BtfKind::TypeTag => Extent::Times(1, btf_type.third()),
        BtfKind::Unknown | BtfKind::Fwd | BtfKind::Func | BtfKind::FuncProto => Extent::Nothing,
    }
}
