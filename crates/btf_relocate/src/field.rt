//! Places in a type that a path of indices leads to.

ghost use Rattle.std.specs.Prelude.{◌≡◌, ◌∷◌, []};
ghost use Rattle.btf_view.specs.TypeRef.{record_in};
ghost use Rattle.btf_relocate_model.specs.Field as model;
ghost use Rattle.btf_relocate.specs.Members.{member_of, member_bits};
ghost use Rattle.btf_relocate.specs.Placed.{resolved_placed};

use crate::kinds::{Members, array_of};
use crate::lookup::{resolve_id, resolve_to_type, type_at};
use crate::size::size_of;
use btf_plain::{BtfArray, BtfMember};
use btf_relocate_model::{Field, RelocationError};
use btf_view::{TableRef, TypeRef};

/// The first bit after a number of bits.
pub fn move_bit(bit: u32, by: u64) -> Result<u32, RelocationError>
    ensures { result ≡ model.moved_bit bit by }
{
    match u64::from(bit).checked_add(by) {
        Some(sum) if sum < 0x1_0000_0000 => Ok(sum as u32),
        _ => Err(RelocationError::BitOffsetTooBig),
    }
}

/// The value at an index of values of the type that an id resolves to, where the first value begins at a bit.
pub fn place(
    table: &TableRef<'_>,
    pointer_size: u32,
    type_id: u32,
    bit: u32,
    index: u32,
) -> Result<Field, RelocationError>
    ensures { result ≡ resolved_placed pointer_size table.now type_id bit index }
{
    let type_id = resolve_id(table, type_id)?;
    let size = size_of(table, pointer_size, type_id)?;
    let bytes = u64::from(index) * u64::from(size);
    // The number of bits would exceed 32 bits.
    if bytes >= 0x2000_0000 {
        return Err(RelocationError::BitOffsetTooBig);
    }
    let bit = move_bit(bit, bytes * 8)?;
    Ok(Field {
        type_id,
        bit,
        bits: 0,
        is_member: false,
        is_last: false,
    })
}

/// The element at an index of the ARRAY at a place; `None` if there is no ARRAY, or no such element.
pub fn element(
    table: &TableRef<'_>,
    pointer_size: u32,
    field: &Field,
    index: u32,
) -> Result<Option<Field>, RelocationError>
    ensures { result ≡ model.element pointer_size table.now field.now index }
{
    let id = resolve_id(table, field.type_id)?;
    let btf_type = type_at(table, id)?;
    match array_of(&btf_type) {
        Some(array) => element_of(table, pointer_size, field, &array, index),
        None => Ok(None),
    }
}

/// The element at an index of an ARRAY; `None` if there is none. An array of length 0 that is the last member of its
/// type has elements at all indices, because C uses it as a flexible array member.
fn element_of(
    table: &TableRef<'_>,
    pointer_size: u32,
    field: &Field,
    array: &BtfArray,
    index: u32,
) -> Result<Option<Field>, RelocationError>
    ensures { result ≡ model.element_of pointer_size table.now field.now index
        (array.now.element_type ∷ array.now.index_type ∷ array.now.len ∷ []) }
{
    let is_flexible = array.len == 0 && field.is_member && field.is_last;
    if index >= array.len && !is_flexible {
        return Ok(None);
    }
    let element = place(table, pointer_size, array.element_type, field.bit, index)?;
    Ok(Some(element))
}

/// The member at an index of the STRUCT or UNION at a place, with the string offset of its name; `None` if there is no
/// STRUCT or UNION, or no such member.
pub fn member(
    table: &TableRef<'_>,
    field: &Field,
    index: u32,
) -> Result<Option<(Field, u32)>, RelocationError>
    ensures { result ≡ model.member table.now field.now index }
{
    let btf_type = resolve_to_type(table, field.type_id)?;
    let index = index as usize;
    let members = Members::of(&btf_type);
    let Some(member) = members.get(index) else {
        return Ok(None);
    };
    let is_last = index + 1 == members.len();
    let found = member_field(&btf_type, &member, field.bit, is_last)?;
    Ok(Some((found, member.name_offset)))
}

/// The bit of a STRUCT or UNION at which a member begins, and the number of bits of a bit-field, else 0.
pub fn bits_of(btf_type: &TypeRef<'_>, member: &BtfMember) -> (u32, u32)
    ensures { result ≡ member_bits (record_in btf_type.now).info member.now.offset }
{
    if btf_type.info() / 0x8000_0000 == 1 {
        (member.offset % 0x100_0000, member.offset / 0x100_0000)
    } else {
        (member.offset, 0)
    }
}

/// A member of a STRUCT or UNION that begins at this bit.
pub fn member_field(
    btf_type: &TypeRef<'_>,
    member: &BtfMember,
    bit: u32,
    is_last: bool,
) -> Result<Field, RelocationError>
    ensures { result ≡ model.member_field (record_in btf_type.now).info bit is_last
        (member_of member.now) }
{
    let (offset, bits) = bits_of(btf_type, member);
    let first = move_bit(bit, u64::from(offset))?;
    Ok(Field {
        type_id: member.btf_type,
        bit: first,
        bits,
        is_member: true,
        is_last,
    })
}
