//! The lines of a single member.

use crate::error::TextError;
use crate::layout::declarator::Declarator;
use crate::layout::group::Place;
use crate::layout::members::Level;
use crate::layout::page::Page;
use crate::layout::type_text::{PROTOTYPE_LIMIT, add_base, add_declared, add_stars};
use crate::word::text_at;
use btf_plain::BtfMember;
use btf_records::{BtfType, Enum, Enum64};
use btf_table::{Btf, BtfStr};
use std::alloc::{AllocError, Global};
use std::fmt::Write;

/// The name of a member; empty if it can't be read.
pub fn member_name<'a>(table: &'a Btf, member: &BtfMember) -> Result<BtfStr<'a>, TextError> {
    match text_at(table, member.name_offset)? {
        Some(name) => Ok(name),
        None => Ok(BtfStr::Borrowed("")),
    }
}

/// Whether a type has no name.
pub fn is_nameless(table: &Btf, btf_type: &BtfType) -> Result<bool, TextError> {
    match text_at(table, btf_type.name_offset())? {
        Some(name) => Ok(name.as_str().is_empty()),
        None => Ok(true),
    }
}

/// Writes the line of a member.
pub fn write_plain<W: Write>(
    page: &mut Page<'_, W>,
    level: &Level<'_>,
    declarator: &Declarator<'_>,
    name: &str,
    place: &Place,
) -> Result<(), TextError> {
    let columns = level.columns;
    add_base(&mut page.line, page.table, declarator)?;
    columns.pad_type(&mut page.line)?;
    page.line.push_str(" ")?;
    add_declared(
        &mut page.line,
        page.table,
        &declarator.steps,
        name,
        place.is_flexible,
        PROTOTYPE_LIMIT,
    )?;
    add_bits(&mut page.line, place)?;
    columns.pad_name(&mut page.line)?;
    add_offset(&mut page.line, place, level.base)?;
    page.end_line()?;
    Ok(())
}

/// Writes the end of a member after the lines of its type: the name, and the position of the member.
pub fn write_closing<W: Write>(
    page: &mut Page<'_, W>,
    level: &Level<'_>,
    declarator: &Declarator<'_>,
    name: &str,
    place: &Place,
) -> Result<(), TextError> {
    let line = &mut page.line;
    if !name.is_empty() {
        line.push_str(" ")?;
    }
    add_stars(line, declarator)?;
    add_declared(
        line,
        page.table,
        &declarator.steps,
        name,
        place.is_flexible,
        PROTOTYPE_LIMIT,
    )?;
    let len = line.len();
    add_bits(line, place)?;
    if declarator.steps.is_empty() {
        level.columns.pad_closing(line, len)?;
    } else {
        line.push_str(" ")?;
    }
    add_offset(line, place, level.base)?;
    page.end_line()?;
    Ok(())
}

/// Adds the number of bits of a bit-field, and the end of a declaration.
fn add_bits(line: &mut String, place: &Place) -> Result<(), TextError> {
    let bits = place.bits;
    if bits > 0 {
        write!(line, ":{bits}")?;
    }
    line.push_str(";")?;
    Ok(())
}

/// Adds the remark with the offset and the size of a member, in a structure that begins at the byte `base` of the
/// outermost one.
fn add_offset(line: &mut String, place: &Place, base: u64) -> Result<(), TextError> {
    let (size, byte) = (place.size, base.saturating_add(place.byte));
    if place.bits > 0 {
        let bit = place.bit.saturating_sub(place.byte.saturating_mul(8));
        write!(line, "/* {byte:5}:{bit:2} {size:2} */")?;
    } else {
        write!(line, "/* {byte:5} {size:5} */")?;
    }
    Ok(())
}

/// A variant of an enumeration, and its value in C.
#[derive(Clone, Copy)]
struct Variant {
    name_offset: u32,
    value: Value,
}

/// The value of a variant.
#[derive(Clone, Copy)]
enum Value {
    Signed(i64),
    Unsigned(u64),
}

impl Value {
    /// The value of a variant of an ENUM.
    fn of_word(word: u32, is_signed: bool) -> Value {
        if is_signed {
            Value::Signed(i64::from(word.cast_signed()))
        } else {
            Value::Unsigned(u64::from(word))
        }
    }

    /// The value of a variant of an ENUM64.
    fn of_words(low: u32, high: u32, is_signed: bool) -> Value {
        let value = u64::from(high) << 32 | u64::from(low);
        if is_signed {
            Value::Signed(value.cast_signed())
        } else {
            Value::Unsigned(value)
        }
    }
}

/// The variants of an ENUM or an ENUM64; None for a type of another kind.
fn variants_of(alloc: Global, btf_type: &BtfType) -> Result<Option<Vec<Variant>>, AllocError> {
    match btf_type {
        BtfType::Enum(t) => Ok(Some(narrow_variants(alloc, t)?)),
        BtfType::Enum64(t) => Ok(Some(wide_variants(alloc, t)?)),
        _ => Ok(None),
    }
}

/// The variants of an ENUM.
fn narrow_variants(alloc: Global, enumeration: &Enum) -> Result<Vec<Variant>, AllocError> {
    let mut variants = Vec::with_capacity(alloc, enumeration.variants().len())?;
    for variant in enumeration.variants() {
        variants.push(Variant {
            name_offset: variant.name_offset,
            value: Value::of_word(variant.value, enumeration.is_signed()),
        })?;
    }
    Ok(variants)
}

/// The variants of an ENUM64.
fn wide_variants(alloc: Global, enumeration: &Enum64) -> Result<Vec<Variant>, AllocError> {
    let mut variants = Vec::with_capacity(alloc, enumeration.variants().len())?;
    for variant in enumeration.variants() {
        let (low, high) = (variant.value_low, variant.value_high);
        variants.push(Variant {
            name_offset: variant.name_offset,
            value: Value::of_words(low, high, enumeration.is_signed()),
        })?;
    }
    Ok(variants)
}

/// Writes the lines of an enumeration, with the names of the variants in a column, and the parenthesis after them. For
/// a type of another kind it writes nothing, and returns false.
pub fn write_enumeration<W: Write>(
    page: &mut Page<'_, W>,
    indent: usize,
    btf_type: &BtfType,
) -> Result<bool, TextError> {
    let Some(variants) = variants_of(page.alloc, btf_type)? else {
        return Ok(false);
    };
    page.out.write_str("enum {\n")?;
    write_variants(page, indent, &variants)?;
    page.indent(indent)?;
    page.out.write_str("}")?;
    Ok(true)
}

/// Writes the lines of variants.
fn write_variants<W: Write>(
    page: &mut Page<'_, W>,
    indent: usize,
    variants: &[Variant],
) -> Result<(), TextError> {
    let width = longest_name(page.table, variants)?;
    for variant in variants {
        page.indent(indent.saturating_add(1))?;
        add_variant_name(page, variant, width)?;
        match variant.value {
            Value::Signed(value) => write!(page.line, " = {value},")?,
            Value::Unsigned(value) => write!(page.line, " = {value},")?,
        }
        page.end_line()?;
    }
    Ok(())
}

/// Adds the name of a variant, in a column of this width.
fn add_variant_name<W: Write>(
    page: &mut Page<'_, W>,
    variant: &Variant,
    width: usize,
) -> Result<(), TextError> {
    if let Some(name) = text_at(page.table, variant.name_offset)? {
        page.line.push_str(name.as_str())?;
    }
    for _ in page.line.len()..width {
        page.line.push_str(" ")?;
    }
    Ok(())
}

/// The length of the longest name of a variant in bytes.
fn longest_name(table: &Btf, variants: &[Variant]) -> Result<usize, TextError> {
    let mut longest = 0;
    for variant in variants {
        if let Some(name) = text_at(table, variant.name_offset)? {
            longest = name.as_str().len().max(longest);
        }
    }
    Ok(longest)
}
