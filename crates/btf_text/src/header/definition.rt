//! Whole declarations, each with the empty line after it.

use crate::error::TextError;
use crate::header::declaration::{write_declaration, write_tagged};
use crate::header::draft::{ARGUMENT_LIST, Draft};
use crate::header::enumeration::write_enumeration;
use crate::header::members::begin_members;
use crate::header::task::{Declaration, Label, Task, write_tasks};
use btf_records::BtfType;
use btf_table::short_name;
use std::fmt::Write;

/// The name of a TYPEDEF of that type. GCC wrote it as one of `void`.
const GNU_ARGUMENT_LIST: &str = "__gnuc_va_list";

/// The names of GCC's types for vectors of polynomials on Arm, and the types of C that have their bits.
const ALIASES: [(&str, &str); 4] = [
    ("__Poly8_t", "unsigned char"),
    ("__Poly16_t", "unsigned short"),
    ("__Poly64_t", "unsigned long long"),
    ("__Poly128_t", "unsigned __int128"),
];

/// The number of bytes that a name of numbers has at most, with the zero byte after it. A longer one is not counted, so
/// that an INT takes bounded time and memory: its declaration does not write its name.
const NUMBER_NAME_LIMIT: usize = 256;

/// Writes the end of a declaration.
fn end_declaration<W: Write>(draft: &mut Draft<'_, W>) -> Result<(), TextError> {
    draft.out.write_str(";\n\n")?;
    Ok(())
}

/// Whether the name at a string offset is this one. Reads no more of a longer name.
fn has_name<W: Write>(draft: &Draft<'_, W>, name_offset: u32, name: &str) -> bool {
    let limit = name.len().saturating_add(1);
    match short_name(draft.table, name_offset, limit) {
        Some(bytes) => bytes == name.as_bytes(),
        None => false,
    }
}

/// Whether the name of an INT at a string offset is counted.
fn is_counted<W: Write>(draft: &Draft<'_, W>, name_offset: u32) -> bool {
    name_offset != 0 && short_name(draft.table, name_offset, NUMBER_NAME_LIMIT).is_some()
}

/// Writes a TYPEDEF for the name of an INT that C does not have.
pub fn write_alias<W: Write>(
    draft: &mut Draft<'_, W>,
    type_id: u32,
    btf_type: &BtfType,
) -> Result<(), TextError> {
    let name_offset = btf_type.name_offset();
    if is_counted(draft, name_offset) {
        draft.names.number_of(draft.table, type_id)?;
    }
    for (name, text) in ALIASES {
        if has_name(draft, name_offset, name) {
            writeln!(draft.out, "typedef {text} {name};\n")?;
        }
    }
    Ok(())
}

/// Writes the forward declaration of a STRUCT or UNION, or the declaration of a FWD.
pub fn write_forward<W: Write>(
    draft: &mut Draft<'_, W>,
    type_id: u32,
    btf_type: &BtfType,
) -> Result<(), TextError> {
    write_tagged(draft, type_id, btf_type)?;
    end_declaration(draft)
}

/// Writes the declaration of a TYPEDEF.
pub fn write_typedef<W: Write>(draft: &mut Draft<'_, W>, type_id: u32) -> Result<(), TextError> {
    let BtfType::Typedef(typedef) = draft.table.type_by_id(type_id)? else {
        return Ok(());
    };
    let (name_offset, target) = (typedef.name_offset(), typedef.btf_type());
    if has_name(draft, name_offset, ARGUMENT_LIST) {
        return Ok(());
    }
    if target == 0 && has_name(draft, name_offset, GNU_ARGUMENT_LIST) {
        draft.names.number_of(draft.table, type_id)?;
        writeln!(draft.out, "typedef {ARGUMENT_LIST} {GNU_ARGUMENT_LIST};\n")?;
        return Ok(());
    }
    draft.out.write_str("typedef ")?;
    draft.count_step()?;
    let declaration = Declaration {
        type_id: target,
        label: Label::Typedef(type_id),
        level: 0,
    };
    write_declaration(draft, &declaration)?;
    write_tasks(draft)?;
    end_declaration(draft)
}

/// Writes the definition of a STRUCT, UNION, ENUM or ENUM64.
pub fn write_definition<W: Write>(draft: &mut Draft<'_, W>, type_id: u32) -> Result<(), TextError> {
    let table = draft.table;
    let btf_type = table.type_by_id(type_id)?;
    if btf_type.is_composite() {
        begin_members(draft, type_id, btf_type, 0)?;
        write_tasks(draft)?;
    } else {
        write_enumeration(draft, type_id, btf_type, 0)?;
    }
    end_declaration(draft)
}
