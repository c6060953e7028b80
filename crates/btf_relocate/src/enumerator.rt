//! Enumerators, by index and by name.

ghost use Rattle.std.specs.Prelude.{◌≡◌, ◌<◌, ◌^◌, length, slice_get};
ghost use Rattle.std.specs.Option.{option_map};
ghost use Rattle.btf_records.specs.BtfType.{record_of};
ghost use Rattle.btf_view.specs.TypeRef.{record_in};
ghost use Rattle.btf_relocate_model.specs.Enumerator as model;
ghost use Rattle.btf_relocate.specs.Enumerators.{enumerator_variant, narrow_variant, type_enumerators, wide_variant};
ghost use Rattle.btf_relocate.specs.Gives.{IsBy};

use crate::instruction::sign_extended_32;
use crate::lookup::{name_at, resolve_to_type};
use crate::name::essential_name;
use btf_plain::{BtfEnum, BtfEnum64, BtfKind};
use btf_records::BtfType;
use btf_relocate_model::RelocationError;
use btf_view::{TableRef, TypeRef};

/// An enumerator: the string offset of its name, and its value as a 64-bit pattern.
#[derive(Clone, Copy, Debug)]
pub struct Enumerator {
    /// The string offset of the name.
    pub name_offset: u32,
    /// The value. The 32 bits of an ENUM are sign-extended, even if the ENUM is unsigned, as in libbpf.
    pub value: u64,
}

impl Enumerator {
    /// The enumerator of a type at an index; `None` if the type has none there.
    pub fn at(btf_type: &TypeRef<'_>, index: usize) -> Option<Enumerator>
        ensures { option_map enumerator_variant result
            ≡ slice_get (type_enumerators (record_in btf_type.now)) index }
    {
        match btf_type {
            TypeRef::Parsed(parsed) => parsed_at(parsed, index),
            TypeRef::Viewed(_) => viewed_at(btf_type, index),
        }
    }
}

/// The enumerator of an ENUM.
#[inline(always)]
fn narrow(variant: &BtfEnum) -> Enumerator
    ensures { enumerator_variant result ≡ narrow_variant variant.now }
{
    Enumerator {
        name_offset: variant.name_offset,
        value: sign_extended_32(variant.value),
    }
}

/// The enumerator of an ENUM64.
#[inline(always)]
fn wide(variant: &BtfEnum64) -> Enumerator
    ensures { enumerator_variant result ≡ wide_variant variant.now }
{
    Enumerator {
        name_offset: variant.name_offset,
        value: u64::from(variant.value_high) * 0x1_0000_0000 + u64::from(variant.value_low),
    }
}

/// The enumerator of a type that was parsed.
#[inline(always)]
fn parsed_at(btf_type: &BtfType, index: usize) -> Option<Enumerator>
    ensures { option_map enumerator_variant result
        ≡ slice_get (type_enumerators (record_of btf_type.now)) index }
{
    // Only a use of the kind proves that the info word has it.
    let _ = btf_type.kind();
    match btf_type {
        BtfType::Enum(t) => t.variants().get(index).map(|variant| narrow(variant)),
        BtfType::Enum64(t) => t.variants().get(index).map(|variant| wide(variant)),
        _ => None,
    }
}

/// The same by the words of the type.
#[inline(never)]
fn viewed_at(btf_type: &TypeRef<'_>, index: usize) -> Option<Enumerator>
    ensures { option_map enumerator_variant result
        ≡ slice_get (type_enumerators (record_in btf_type.now)) index }
{
    if index >= count(btf_type) {
        return None;
    }
    match btf_type.kind() {
        BtfKind::Enum => narrow_at(btf_type, index as u16),
        BtfKind::Enum64 => wide_at(btf_type, index as u16),
        _ => None,
    }
}

/// The enumerator of an ENUM at an index.
fn narrow_at(btf_type: &TypeRef<'_>, index: u16) -> Option<Enumerator>
    ensures { option_map enumerator_variant result
        ≡ slice_get (model.narrow_enumerators (record_in btf_type.now).tail) index }
{
    match btf_type.item::<BtfEnum>(index) {
        Some(variant) => Some(narrow(&variant)),
        None => None,
    }
}

/// The enumerator of an ENUM64 at an index.
fn wide_at(btf_type: &TypeRef<'_>, index: u16) -> Option<Enumerator>
    ensures { option_map enumerator_variant result
        ≡ slice_get (model.wide_enumerators (record_in btf_type.now).tail) index }
{
    match btf_type.item::<BtfEnum64>(index) {
        Some(variant) => Some(wide(&variant)),
        None => None,
    }
}

/// The enumerator at an index of the enumeration that an id resolves to, and its name.
pub fn enumerator_at<'t>(
    table: &TableRef<'t>,
    type_id: u32,
    index: u32,
) -> Result<(Enumerator, &'t [u8]), RelocationError>
    ensures { IsBy (λ p. (enumerator_variant p.0, p.1.now))
        (model.enumerator_at table.now type_id index) result }
{
    let btf_type = resolve_to_type(table, type_id)?;
    let Some(enumerator) = Enumerator::at(&btf_type, index as usize) else {
        return Err(RelocationError::BadIndex);
    };
    Ok((enumerator, name_at(table, enumerator.name_offset)?))
}

/// The first enumerator of the enumeration that an id resolves to whose name has the essential name of the given one;
/// `None` if there is none, or if the type is no enumeration.
pub fn find_enumerator(
    table: &TableRef<'_>,
    type_id: u32,
    name: &[u8],
) -> Result<Option<Enumerator>, RelocationError>
    ensures { IsBy (option_map enumerator_variant)
        (model.find_enumerator table.now type_id name.now) result }
{
    let btf_type = resolve_to_type(table, type_id)?;
    for index in 0..count(&btf_type) {
        let Some(enumerator) = Enumerator::at(&btf_type, index) else {
            return Ok(None);
        };
        let other = name_at(table, enumerator.name_offset)?;
        if essential_name(other) == essential_name(name) {
            return Ok(Some(enumerator));
        }
    }
    Ok(None)
}

/// The number of enumerators of a type.
pub fn count(btf_type: &TypeRef<'_>) -> usize
    ensures value { result ≡ length (type_enumerators (record_in btf_type.now)) }
    ensures small { result < 2 ^ 16 }
{
    match btf_type.kind() {
        BtfKind::Enum => btf_type.vlen(),
        BtfKind::Enum64 => btf_type.vlen(),
        _ => 0,
    }
}
