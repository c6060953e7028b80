//! The definitions of enumerations.

use crate::error::TextError;
use crate::header::draft::Draft;
use btf_records::{BtfType, Enum, Enum64};
use itoa::Buffer;
use std::fmt::Write;

/// Writes the definition of an ENUM or an ENUM64, or its declaration if it has no variants.
pub fn write_enumeration<W: Write>(
    draft: &mut Draft<'_, W>,
    type_id: u32,
    btf_type: &BtfType,
    level: usize,
) -> Result<(), TextError> {
    draft.out.write_str("enum")?;
    if btf_type.name_offset() != 0 {
        draft.out.write_str(" ")?;
        draft.write_type_name(type_id)?;
    }
    match btf_type {
        BtfType::Enum(t) => write_variants(draft, t, level),
        BtfType::Enum64(t) => write_variants64(draft, t, level),
        _ => Ok(()),
    }
}

/// Writes the variants of an ENUM in braces.
fn write_variants<W: Write>(
    draft: &mut Draft<'_, W>,
    enumeration: &Enum,
    level: usize,
) -> Result<(), TextError> {
    if enumeration.variants().is_empty() {
        return Ok(());
    }
    draft.out.write_str(" {")?;
    let mut digits = Buffer::new();
    for variant in enumeration.variants() {
        let value = if enumeration.is_signed() {
            digits.format(variant.value.cast_signed())
        } else {
            digits.format(variant.value)
        };
        write_variant(draft, variant.name_offset, level, value, ",")?;
    }
    end_variants(draft, level)?;
    write_mode(draft, enumeration.size(), true)
}

/// Writes the variants of an ENUM64 in braces.
fn write_variants64<W: Write>(
    draft: &mut Draft<'_, W>,
    enumeration: &Enum64,
    level: usize,
) -> Result<(), TextError> {
    if enumeration.variants().is_empty() {
        return Ok(());
    }
    draft.out.write_str(" {")?;
    let mut digits = Buffer::new();
    for variant in enumeration.variants() {
        let value = u64::from(variant.value_high) << 32 | u64::from(variant.value_low);
        if enumeration.is_signed() {
            let value = digits.format(value.cast_signed());
            write_variant(draft, variant.name_offset, level, value, "LL,")?;
        } else {
            let value = digits.format(value);
            write_variant(draft, variant.name_offset, level, value, "ULL,")?;
        }
    }
    end_variants(draft, level)?;
    write_mode(draft, enumeration.size(), is_narrow(enumeration))
}

/// Whether a compiler gives an ENUM64 a type of 32 bits: all values are numbers of an `int`, or all of an `unsigned
/// int`.
fn is_narrow(enumeration: &Enum64) -> bool {
    let variants = enumeration.variants();
    let is_unsigned = variants.iter().all(|variant| variant.value_high == 0);
    let is_int = variants.iter().all(|variant| {
        let is_negative = variant.value_low.cast_signed() < 0;
        variant.value_high == 0 && !is_negative || variant.value_high == u32::MAX && is_negative
    });
    is_unsigned || enumeration.is_signed() && is_int
}

/// Writes the attribute that gives an enumeration its size in bytes, if a compiler would give it another one.
/// `bpftool` 7.1 leaves the attribute out.
fn write_mode<W: Write>(
    draft: &mut Draft<'_, W>,
    size: u32,
    is_narrow: bool,
) -> Result<(), TextError> {
    let mode = match size {
        1 => "byte",
        2 => "HI",
        8 if is_narrow => "word",
        _ => return Ok(()),
    };
    write!(draft.out, " __attribute__((mode({mode})))")?;
    Ok(())
}

/// Writes the line of a variant: its name, its value, and what ends the value.
fn write_variant<W: Write>(
    draft: &mut Draft<'_, W>,
    name_offset: u32,
    level: usize,
    value: &str,
    end: &str,
) -> Result<(), TextError> {
    draft.count_step()?;
    draft.begin_line(level.saturating_add(1))?;
    draft
        .names
        .write_value(draft.table, name_offset, &mut draft.out)?;
    draft.out.write_str(" = ")?;
    draft.out.write_str(value)?;
    draft.out.write_str(end)?;
    Ok(())
}

/// Writes the brace after the last variant.
fn end_variants<W: Write>(draft: &mut Draft<'_, W>, level: usize) -> Result<(), TextError> {
    draft.begin_line(level)?;
    draft.out.write_str("}")?;
    Ok(())
}
