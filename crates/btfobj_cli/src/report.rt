//! The commands that write the contents of a file.

use crate::fault::Fault;
use crate::input_file::InputFile;
use crate::split::check_base;
use btf_plain::{BtfError, BtfKind};
use btf_table::{Btf, allocator_of, type_count};
use btf_text::{
    HeaderTypes, Selection, TextBuffer, find_layout, kind_name, write_dump, write_ext,
    write_header, write_layout,
};
use std::alloc::Global;
use std::fmt;
use std::io::Write;

/// The kinds of types that have a name and no layout.
const OTHERS: [BtfKind; 8] = [
    BtfKind::Enum,
    BtfKind::Enum64,
    BtfKind::Int,
    BtfKind::Float,
    BtfKind::Fwd,
    BtfKind::Func,
    BtfKind::Var,
    BtfKind::DataSec,
];

/// Writes the selected types of a file's table, as `write_dump` does; with a base, those that the file adds to it. The
/// table is parsed before anything is written. The error is `NoId` if ids are selected, and no type has one of them.
/// After the types are written it is `Split` without a base, and `OtherBase` with one, if names or ids are not in the
/// table. It is `NoType` if a name is selected, and no type has it and meets the other conditions.
pub fn dump<W: Write>(
    alloc: Global,
    bytes: &[u8],
    base: Option<&Btf>,
    selection: &Selection<'_>,
    out: &mut W,
) -> Result<(), Fault> {
    let table = InputFile::read(alloc, bytes)?.table_over(alloc, base)?;
    let selection = above(base, selection);
    check_ids(&table, &selection)?;
    let mut text = TextBuffer::new(out);
    let is_any = write_dump(&table, &selection, &mut text)?;
    text.flush()?;
    check_base(&table, base)?;
    if selection.name.is_some() && !is_any {
        return Err(Fault::NoType);
    }
    Ok(())
}

/// The types of a selection that are above a base.
fn above<'a>(base: Option<&Btf>, selection: &Selection<'a>) -> Selection<'a> {
    let Some(base) = base else {
        return *selection;
    };
    let first = type_count(base);
    Selection {
        from: Some(selection.from.unwrap_or(first).max(first)),
        ..*selection
    }
}

/// The error is `NoId` if ids are selected, and no type has one of them. A table without types has no error.
fn check_ids(table: &Btf, selection: &Selection<'_>) -> Result<(), Fault> {
    let count = type_count(table);
    let from = selection.from.unwrap_or(0).max(1);
    let to = selection.to.unwrap_or(count).min(count);
    if from < to || count == 1 {
        return Ok(());
    }
    Err(Fault::NoId(count.saturating_sub(1)))
}

/// Writes what a text still holds.
fn finish<W: Write>(mut text: TextBuffer<'_, W>) -> Result<(), Fault> {
    text.flush()?;
    Ok(())
}

/// Writes types of a file's table as a C header, as `write_header` does: the types of these names and this kind, and
/// the types that they need; without names and a kind, all types. With a base, its types come first. The table is
/// parsed before anything is written, and then the bytes of the file are freed. The error is `NoType` if no type has
/// one of the names, and the kind.
pub fn header<W: Write>(
    alloc: Global,
    bytes: Vec<u8>,
    base: Option<&Btf>,
    names: &[&str],
    kind: Option<BtfKind>,
    out: &mut W,
) -> Result<(), Fault> {
    let table = InputFile::read(alloc, &bytes)?.whole_table_over(alloc, base)?;
    drop(bytes);
    let mut text = TextBuffer::new(out);
    write_selected(alloc, &table, names, kind, &mut text)?;
    finish(text)
}

/// Writes the types of these names and this kind, and the types that they need; without names and a kind, all types.
fn write_selected<W: fmt::Write>(
    alloc: Global,
    table: &Btf,
    names: &[&str],
    kind: Option<BtfKind>,
    out: &mut W,
) -> Result<(), Fault> {
    if names.is_empty() && kind.is_none() {
        write_header(alloc, table, &HeaderTypes::All, out)?;
    } else {
        let type_ids = selected(table, names, kind)?;
        write_header(alloc, table, &HeaderTypes::Needed(&type_ids), out)?;
    }
    Ok(())
}

/// The ids of the types of these names and this kind; without names, of this kind.
fn selected(table: &Btf, names: &[&str], kind: Option<BtfKind>) -> Result<Vec<u32>, Fault> {
    let any = Selection {
        kind,
        ..Selection::default()
    };
    if names.is_empty() {
        return Ok(any.ids(table)?);
    }
    let mut type_ids = Vec::new(allocator_of(table));
    for name in names {
        let named = Selection {
            name: Some(*name),
            ..any
        };
        let ids = named.ids(table)?;
        if ids.is_empty() {
            return Err(Fault::NoType);
        }
        type_ids.extend_from_slice(&ids)?;
    }
    Ok(type_ids)
}

/// Writes the layout of the structure or union of a name, as `find_layout` finds it and `write_layout` writes it. The
/// error is `NoLayout` if the name is that of a type of another kind.
pub fn layout<W: Write>(
    alloc: Global,
    bytes: &[u8],
    base: Option<&Btf>,
    name: &str,
    out: &mut W,
) -> Result<(), Fault> {
    let table = InputFile::read(alloc, bytes)?.whole_table_over(alloc, base)?;
    let type_id = match find_layout(&table, name) {
        Ok(type_id) => type_id,
        Err(e) => return Err(no_layout(&table, name, e)),
    };
    let mut text = TextBuffer::new(out);
    write_layout(alloc, &table, type_id, name, &mut text)?;
    finish(text)
}

/// The fault of a name without a layout, for which `find_layout` has this error.
fn no_layout(table: &Btf, name: &str, error: BtfError) -> Fault {
    let kind = match &error {
        BtfError::UnexpectedBtfType { type_id } => kind_of_id(table, *type_id),
        BtfError::UnknownBtfTypeName { .. } => kind_of_name(table, name),
        _ => None,
    };
    match kind {
        Some(kind) => Fault::NoLayout(kind_name(kind)),
        None => Fault::from(error),
    }
}

/// The kind of a type, if there is one of this id.
fn kind_of_id(table: &Btf, type_id: u32) -> Option<BtfKind> {
    match table.type_by_id(type_id) {
        Ok(found) => Some(found.kind()),
        Err(_) => None,
    }
}

/// The first of the other kinds of which a type has this name.
fn kind_of_name(table: &Btf, name: &str) -> Option<BtfKind> {
    for kind in OTHERS {
        if table.id_by_type_name_kind(name, kind).is_ok() {
            return Some(kind);
        }
    }
    None
}

/// Writes the functions, lines and relocations of an object's `.BTF.ext`, as `write_ext` does.
pub fn ext<W: Write>(
    alloc: Global,
    bytes: &[u8],
    base: Option<&Btf>,
    out: &mut W,
) -> Result<(), Fault> {
    let input = InputFile::read(alloc, bytes)?;
    let table = input.whole_table_over(alloc, base)?;
    let section = input.ext()?;
    let mut text = TextBuffer::new(out);
    write_ext(alloc, &table, section, input.endianness(), &mut text)?;
    finish(text)
}
