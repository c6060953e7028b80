//! The value of a field for each kind.

ghost use Rattle.std.specs.Prelude.{◌≡◌, ◌∷◌, []};
ghost use Rattle.btf_model.specs.Record.{kind_of};
ghost use Rattle.btf_view.specs.TypeRef.{record_in};
ghost use Rattle.btf_relocate_model.specs.Value as model;

use crate::kinds::int_word;
use crate::lookup::{resolve_id, type_at};
use crate::size::size_of;
use btf_model::Endianness;
use btf_plain::BtfKind;
use btf_relocate_model::{Field, Load, RelocationError, RelocationKind, Value};
use btf_view::{TableRef, TypeRef};

/// A value that sets no size of a load or store.
pub fn plain(value: u64) -> Value
    ensures { result ≡ model.plain value }
{
    Value {
        value,
        size: 0,
        type_id: 0,
    }
}

/// The value of a field for a kind. Kinds that are not about fields have the value 0.
pub fn field_value(
    table: &TableRef<'_>,
    pointer_size: u32,
    kind: RelocationKind,
    field: &Field,
) -> Result<Value, RelocationError>
    ensures { result ≡ model.field_value pointer_size table.now kind field.now }
{
    if kind == RelocationKind::FieldExists {
        return Ok(plain(1));
    }
    if !field.is_member {
        return element_value(table, pointer_size, kind, field);
    }
    let id = resolve_id(table, field.type_id)?;
    // A member without a size is refused for all of these kinds.
    let load = load_of(table, pointer_size, field, id)?;
    member_value(table, kind, field, id, &load)
}

/// The value of an element, or of the type itself.
fn element_value(
    table: &TableRef<'_>,
    pointer_size: u32,
    kind: RelocationKind,
    field: &Field,
) -> Result<Value, RelocationError>
    ensures { result ≡ model.element_value pointer_size table.now kind field.now }
{
    match kind {
        RelocationKind::FieldByteOffset => {
            let size = size_of(table, pointer_size, field.type_id)?;
            Ok(Value {
                value: u64::from(field.bit / 8),
                size,
                type_id: field.type_id,
            })
        }
        RelocationKind::FieldByteSize => {
            let size = size_of(table, pointer_size, field.type_id)?;
            Ok(plain(u64::from(size)))
        }
        _ => Err(RelocationError::NotForElement),
    }
}

/// The value of a member by its load; its type resolves to this id.
fn member_value(
    table: &TableRef<'_>,
    kind: RelocationKind,
    field: &Field,
    type_id: u32,
    load: &Load,
) -> Result<Value, RelocationError>
    ensures { result ≡ model.member_value table.now kind field.now type_id load.now }
{
    match kind {
        // The load of a bit-field sets no size.
        RelocationKind::FieldByteOffset if field.bits != 0 => Ok(plain(u64::from(load.offset))),
        RelocationKind::FieldByteOffset => Ok(Value {
            value: u64::from(load.offset),
            size: load.size,
            type_id,
        }),
        RelocationKind::FieldByteSize => Ok(plain(u64::from(load.size))),
        RelocationKind::FieldSigned => {
            let btf_type = type_at(table, type_id)?;
            Ok(plain(u64::from(is_signed(&btf_type))))
        }
        RelocationKind::FieldLShift64 => {
            let shift = left_shift(table.endianness(), load)?;
            Ok(plain(shift))
        }
        RelocationKind::FieldRShift64 => {
            let shift = 64_u64
                .checked_sub(load.bits)
                .ok_or(RelocationError::ShiftTooWide)?;
            Ok(plain(shift))
        }
        _ => Ok(plain(0)),
    }
}

/// The load of a member whose type resolves to this id. The load of a bit-field is the least of 1, 2, 4 and 8 bytes,
/// from the size of its type on, that is aligned and holds all of its bits.
fn load_of(
    table: &TableRef<'_>,
    pointer_size: u32,
    field: &Field,
    type_id: u32,
) -> Result<Load, RelocationError>
    ensures { result ≡ model.load_of pointer_size table.now field.now type_id }
{
    if field.bits == 0 {
        let size = size_of(table, pointer_size, type_id)?;
        return Ok(Load {
            offset: field.bit / 8,
            size,
            start: field.bit % 8,
            bits: u64::from(size) * 8,
        });
    }
    let btf_type = type_at(table, type_id)?;
    let size = match btf_type.kind() {
        BtfKind::Int => btf_type.third(),
        BtfKind::Enum => btf_type.third(),
        BtfKind::Enum64 => btf_type.third(),
        _ => 0,
    };
    if size == 1 || size == 2 || size == 4 || size == 8 {
        first_holding(field, size)
    } else {
        Err(RelocationError::BadBitfield { type_id })
    }
}

/// The first aligned load of 1, 2, 4 or 8 bytes, from a size on, that holds a bit-field.
fn first_holding(field: &Field, from: u32) -> Result<Load, RelocationError>
    ensures { result ≡ model.first_holding field.now from (1 ∷ 2 ∷ 4 ∷ 8 ∷ []) }
{
    for size in [1, 2, 4, 8] {
        let offset = field.bit / 8 / size * size;
        let start = field.bit - offset * 8;
        let bits = u64::from(field.bits);
        if from <= size && u64::from(start) + bits <= u64::from(size) * 8 {
            return Ok(Load {
                offset,
                size,
                start,
                bits,
            });
        }
    }
    Err(RelocationError::BitfieldTooWide)
}

/// The left shift that moves the last bit of a loaded field to the top of a register of 64 bits.
fn left_shift(order: Endianness, load: &Load) -> Result<u64, RelocationError>
    ensures { result ≡ model.left_shift order load.now }
{
    let start = u64::from(load.start);
    match order {
        Endianness::Little => {
            let end = load.bits.saturating_add(start);
            64_u64.checked_sub(end).ok_or(RelocationError::ShiftTooWide)
        }
        Endianness::Big => match 8_u64.checked_sub(u64::from(load.size)) {
            Some(bytes) => Ok(start + bytes * 8),
            None => Err(RelocationError::ShiftTooWide),
        },
    }
}

/// Whether a type is a signed INT, ENUM or ENUM64.
pub fn is_signed(btf_type: &TypeRef<'_>) -> bool
    ensures { result ≡ model.is_signed_type (kind_of (record_in btf_type.now).info)
        (record_in btf_type.now) }
{
    match btf_type.kind() {
        BtfKind::Int => int_word(btf_type) / 0x100_0000 % 16 % 2 == 1,
        BtfKind::Enum => btf_type.info() / 0x8000_0000 == 1,
        BtfKind::Enum64 => btf_type.info() / 0x8000_0000 == 1,
        _ => false,
    }
}
