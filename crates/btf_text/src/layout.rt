//! The layout of a structure or a union, as `pahole -F btf -C NAME FILE` of pahole 1.24 writes it.

ghost use Rattle.std.specs.Prelude.{◌≡◌, true, IfOk};
ghost use Rattle.btf_plain.specs.Error.{MeetsOrNoMemory};
ghost use Rattle.btf_model.specs.Record.{Union};
ghost use Rattle.btf_text.specs.Layout.{is_composite_at, OrElse, FindsFirstOf, MeansTypedef, Means, FindsLayout};

mod column;
mod declarator;
mod group;
mod hole;
mod member;
mod members;
mod page;
mod progress;
mod stats;
mod type_text;

use crate::error::TextError;
pub(crate) use crate::layout::group::Group;
use crate::layout::members::{Level, write_struct, write_union};
use crate::layout::page::Page;
use crate::layout::stats::write_stats;
pub(crate) use crate::layout::type_text::keyword;
use crate::word::text_at;
use btf_plain::{BtfError, BtfKind};
use btf_records::BtfType;
use btf_table::Btf;
use std::alloc::Global;
use std::fmt::Write;

/// The id of the structure or union of a name: the first STRUCT of the name; otherwise the first UNION; otherwise the
/// structure or union that the first TYPEDEF of the name resolves to.
///
/// The errors are those of `Btf::id_by_type_name_kind`, in this order of kinds, and those of `Btf::resolve_type` for
/// the TYPEDEF. If the TYPEDEF resolves to a type of another kind, the error is `UnexpectedBtfType`.
pub fn find_layout(table: &Btf, name: &str) -> Result<u32, BtfError>
    ensures found { MeetsOrNoMemory (λ id. id) result (FindsLayout table.now name.now) }
    ensures composite { IfOk result (λ id. is_composite_at table.now id ≡ true) }
{
    let type_id = find_named(table, name)?;
    if table.type_by_id(type_id)?.is_composite() {
        Ok(type_id)
    } else {
        Err(BtfError::UnexpectedBtfType { type_id })
    }
}

/// The id of the first STRUCT of a name; otherwise as `find_union`.
fn find_named(table: &Btf, name: &str) -> Result<u32, BtfError>
    ensures { MeetsOrNoMemory (λ id. id) result (Means table.now name.now) }
{
    match table.id_by_type_name_kind(name, BtfKind::Struct) {
        Err(BtfError::UnknownBtfTypeName { type_name: _text }) => find_union(table, name),
        found => found,
    }
}

/// The id of the first UNION of a name; otherwise as `find_typedef`.
fn find_union(table: &Btf, name: &str) -> Result<u32, BtfError>
    ensures { MeetsOrNoMemory (λ id. id) result
        (OrElse (FindsFirstOf table.now name.now Union) (MeansTypedef table.now name.now)) }
{
    match table.id_by_type_name_kind(name, BtfKind::Union) {
        Err(BtfError::UnknownBtfTypeName { type_name: _text }) => find_typedef(table, name),
        found => found,
    }
}

/// The id that the first TYPEDEF of a name resolves to.
fn find_typedef(table: &Btf, name: &str) -> Result<u32, BtfError>
    ensures { MeetsOrNoMemory (λ id. id) result (MeansTypedef table.now name.now) }
{
    let typedef = table.id_by_type_name_kind(name, BtfKind::Typedef)?;
    table.resolve_type(typedef)
}

/// Writes the members of the STRUCT or UNION of an id, with offsets and sizes in bytes, bit-fields with the position of
/// their first bit, holes, and for a STRUCT sums at the end. Structures, unions and enumerations without a name are
/// written at their member, with offsets that count from the beginning of the outermost type. If the type has no name,
/// it is written as the TYPEDEF of this name, unless that is empty.
///
/// The text equals the text of pahole 1.24, except for pahole's guesses and mistakes: this function guesses no
/// attributes and no unnamed bit-fields, writes a qualifier once, and writes arrays of arrays, arrays of function
/// pointers and floating-point types as in C.
///
/// The errors are `Table` with
///
/// - `UnknownBtfType` if the id is unknown, or an id that is met while a member's size is computed;
/// - `UnexpectedBtfType` if the type has another kind, or a member has no size;
/// - `MaximumTypeDepthReached` after 32 types that refer to another one;
/// - `InvalidTypeInfo` for a size of more than 32 bits;
///
/// and `Write` if the writer fails, and `OutOfMemory`.
pub fn write_layout<W: Write>(
    alloc: Global,
    table: &Btf,
    type_id: u32,
    typedef: &str,
    out: &mut W,
) -> Result<(), TextError> {
    let btf_type = table.type_by_id(type_id)?;
    let Some(group) = Group::of(btf_type) else {
        return Err(TextError::Table(BtfError::UnexpectedBtfType { type_id }));
    };
    let mut page = Page::new(alloc, table, out);
    let is_typedef = write_head(&mut page, btf_type, typedef)?;
    let level = Level::outermost(group);
    if group.is_union {
        write_union(&mut page, &level)?;
    } else {
        let progress = write_struct(&mut page, &level)?;
        write_stats(&mut page, &group, &progress)?;
    }
    if is_typedef {
        writeln!(page.out, "}} {typedef};")?;
    } else {
        page.out.write_str("};\n")?;
    }
    Ok(())
}

/// Writes the first line: the keyword of the kind, and the name. Returns whether it begins a TYPEDEF of this name.
fn write_head<W: Write>(
    page: &mut Page<'_, W>,
    btf_type: &BtfType,
    typedef: &str,
) -> Result<bool, TextError> {
    let text = text_at(page.table, btf_type.name_offset())?;
    let name = text.filter(|text| !text.as_str().is_empty());
    let is_typedef = name.is_none() && !typedef.is_empty();
    if is_typedef {
        page.out.write_str("typedef ")?;
    }
    page.out.write_str(keyword(btf_type))?;
    if let Some(name) = &name {
        write!(page.out, " {}", name.as_str())?;
    }
    page.out.write_str(" {\n")?;
    Ok(is_typedef)
}
