//! The types of a table, as a reader of any table sees them.

use crate::words::Words;
use btf::{BtfMember, BtfParam, Endianness};
use btf_view::{TableRef, TypeRef, index};
use std::alloc::{AllocError, Global};
use std::fmt::Write;

/// The first words of a type, and its second item as one of two and of three words; the id that its id resolves to, and
/// its name.
fn write_type(
    text: &mut String,
    table: &TableRef<'_>,
    id: u32,
    btf_type: &TypeRef<'_>,
) -> Result<(), AllocError> {
    let (kind, vlen, third) = (btf_type.kind(), btf_type.vlen(), btf_type.third());
    let (name, info) = (btf_type.name_offset(), btf_type.info());
    let word = btf_type.word(0);
    let (two, three) = (btf_type.item::<BtfParam>(1), btf_type.item::<BtfMember>(1));
    let (to, letters) = (table.resolve(id).ok(), table.name(name));
    write!(
        text,
        "{kind} {name} {info:x} {vlen} {third} {word:?} {two:?} {three:?}; {to:?} {letters:?}; "
    )
}

/// Each type of a table.
fn types_text(alloc: Global, table: &TableRef<'_>) -> Result<String, AllocError> {
    let mut text = String::new(alloc);
    for id in 0..table.type_count() {
        if let Some(btf_type) = table.type_at(id) {
            write_type(&mut text, table, id, &btf_type)?;
        }
    }
    Ok(text)
}

/// What two tables give for each type, and nothing unless both give the same and have this byte order.
fn same_text(
    alloc: Global,
    one: &TableRef<'_>,
    other: &TableRef<'_>,
    order: Endianness,
) -> Result<String, AllocError> {
    let (text, other_text) = (types_text(alloc, one)?, types_text(alloc, other)?);
    let in_order = one.endianness() == order;
    let is_same = text.as_str() == other_text.as_str();
    if in_order & (other.endianness() == order) & is_same {
        return Ok(text);
    }
    Ok(String::new(alloc))
}

/// `viewed ORDER BLOB`: what a parsed table and a view give for each type.
pub fn types(words: &mut Words<'_>) -> anyhow::Result<String> {
    let (alloc, order) = (words.alloc, words.order());
    let blob = words.bytes()?;
    let mut places = vec![in alloc; 0; blob.len() / 12 + 1]?;
    let table = btf::Btf::parse(alloc, &blob, order)?;
    let Ok(sections) = index(&blob, order, &mut places) else {
        return Ok(String::new(alloc));
    };
    let view = TableRef::of_blob(&blob, order, &sections, &places);
    Ok(same_text(alloc, &TableRef::of_table(&table), &view, order)?)
}
