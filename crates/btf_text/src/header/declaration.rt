//! A declaration: the base of its type, and the pointers, arrays, prototypes and modifiers around the base.

use crate::error::TextError;
use crate::header::draft::Draft;
use crate::header::enumeration::write_enumeration;
use crate::header::members::begin_members;
use crate::header::params::Params;
use crate::header::prefix::Prefix;
use crate::header::task::{Declaration, Label, Task};
use crate::word::{text_at, text_or_empty};
use btf_plain::{BtfError, BtfMember};
use btf_records::BtfType;
use btf_table::{Btf, WALK_LIMIT};
use std::fmt::Write;

/// The base of a type: the type inside its pointers, arrays, prototypes and modifiers.
#[derive(Clone, Copy)]
pub struct Base<'a> {
    type_id: u32,
    btf_type: &'a BtfType,
}

/// The type inside a pointer, an array, a prototype or a modifier; None for the other types.
fn inner_of(btf_type: &BtfType) -> Option<u32> {
    match btf_type {
        BtfType::Ptr(t) => Some(t.btf_type()),
        BtfType::Volatile(t) => Some(t.btf_type()),
        BtfType::Const(t) => Some(t.btf_type()),
        BtfType::Restrict(t) => Some(t.btf_type()),
        BtfType::TypeTag(t) => Some(t.btf_type()),
        BtfType::Array(t) => Some(t.array().element_type),
        BtfType::FuncProto(t) => Some(t.return_type()),
        _ => None,
    }
}

/// Sets the chain of a draft to what is around the base of a type, and returns the base.
///
/// The errors are `Table` with `UnknownBtfType` of an unknown id, `Table` with `MaximumTypeDepthReached` if the first
/// 32 types refer to another one, and `OutOfMemory`.
pub fn read_chain<'a, W: Write>(
    draft: &mut Draft<'a, W>,
    type_id: u32,
) -> Result<Base<'a>, TextError> {
    let table = draft.table;
    let mut base = type_id;
    draft.chain.clear();
    for _ in 0..WALK_LIMIT {
        base = draft.in_place_of(base);
        let btf_type = table.type_by_id(base)?;
        let Some(inner) = inner_of(btf_type) else {
            return Ok(Base {
                type_id: base,
                btf_type,
            });
        };
        draft.chain.push(btf_type)?;
        base = inner;
    }
    Err(TextError::Table(BtfError::MaximumTypeDepthReached { type_id }))
}

/// Writes a declaration. If its base is a STRUCT or UNION without a name, this writes only the first line of the base.
/// The members and the rest of the declaration come next.
pub fn write_declaration<'a, W: Write>(
    draft: &mut Draft<'a, W>,
    declaration: &Declaration,
) -> Result<(), TextError> {
    let base = read_chain(draft, declaration.type_id)?;
    write_around(draft, &base, declaration)
}

/// Whether a declaration is written without tasks: its chain, which the draft has, has no array or prototype, and its
/// base is no STRUCT or UNION without a name.
pub fn has_no_tasks<W: Write>(draft: &Draft<'_, W>, base: &Base<'_>) -> bool {
    for link in &draft.chain {
        if matches!(link, BtfType::Array(_) | BtfType::FuncProto(_)) {
            return false;
        }
    }
    !base.btf_type.is_composite() || base.btf_type.name_offset() != 0
}

/// Whether the text before a name is the same each time: an enumeration without a name is written with its values,
/// whose names get other numbers each time.
fn is_repeated(base: &Base<'_>) -> bool {
    match base.btf_type {
        BtfType::Enum(t) => t.name_offset() != 0,
        BtfType::Enum64(t) => t.name_offset() != 0,
        _ => true,
    }
}

/// Writes the declaration of a member if the text before its name is stored, and returns whether it is.
pub fn write_known<W: Write>(
    draft: &mut Draft<'_, W>,
    member: &BtfMember,
) -> Result<bool, TextError> {
    let Some(prefix) = draft.prefixes.get(member.btf_type) else {
        return Ok(false);
    };
    let read = text_at(draft.table, member.name_offset)?;
    let name = text_or_empty(&read);
    draft.out.write_str(prefix.text(!name.is_empty()))?;
    if !name.is_empty() {
        draft.write_name(name)?;
    }
    Ok(true)
}

/// Writes a declaration without tasks, whose chain the draft has, and stores the text before its name.
pub fn write_whole<'a, W: Write>(
    draft: &mut Draft<'a, W>,
    base: &Base<'a>,
    declaration: &Declaration,
) -> Result<(), TextError> {
    draft.out.begin_copy();
    write_qualifiers(draft)?;
    write_base(draft, base, declaration.level)?;
    let is_after_pointer = write_links(draft, declaration)?;
    let copy = draft.out.end_copy();
    if let Some(copy) = copy
        && is_repeated(base)
    {
        let prefix = Prefix::new(copy, is_after_pointer);
        draft.prefixes.set(declaration.type_id, prefix);
    }
    write_label(draft, declaration.label, is_after_pointer)
}

/// Writes a declaration whose chain the draft has, around its base.
pub fn write_around<'a, W: Write>(
    draft: &mut Draft<'a, W>,
    base: &Base<'a>,
    declaration: &Declaration,
) -> Result<(), TextError> {
    write_qualifiers(draft)?;
    if base.btf_type.is_composite() && base.btf_type.name_offset() == 0 {
        draft.tasks.push(Task::AfterBase(*declaration))?;
        return begin_members(draft, base.type_id, base.btf_type, declaration.level);
    }
    write_base(draft, base, declaration.level)?;
    write_chain(draft, declaration)
}

/// Writes the part of a declaration after its base.
pub fn write_rest<'a, W: Write>(
    draft: &mut Draft<'a, W>,
    declaration: &Declaration,
) -> Result<(), TextError> {
    read_chain(draft, declaration.type_id)?;
    drop_qualifiers(draft);
    write_chain(draft, declaration)
}

/// The word for a qualifier; None for another type.
fn qualifier(btf_type: &BtfType) -> Option<&'static str> {
    match btf_type {
        BtfType::Volatile(_) => Some("volatile"),
        BtfType::Const(_) => Some("const"),
        BtfType::Restrict(_) => Some("restrict"),
        _ => None,
    }
}

/// Takes the innermost type from the chain if it is a qualifier, and returns the word for it.
fn pop_qualifier<W: Write>(draft: &mut Draft<'_, W>) -> Option<&'static str> {
    let word = qualifier(draft.chain.last()?)?;
    draft.chain.pop();
    Some(word)
}

/// Writes the qualifiers of a base, and takes them from the chain.
fn write_qualifiers<W: Write>(draft: &mut Draft<'_, W>) -> Result<(), TextError> {
    for _ in 0..WALK_LIMIT {
        let Some(word) = pop_qualifier(draft) else {
            break;
        };
        draft.out.write_str(word)?;
        draft.out.write_str(" ")?;
    }
    Ok(())
}

/// Takes the qualifiers of a base from the chain.
fn drop_qualifiers<W: Write>(draft: &mut Draft<'_, W>) {
    for _ in 0..WALK_LIMIT {
        if pop_qualifier(draft).is_none() {
            break;
        }
    }
}

/// Takes the qualifiers and tags of an array or a prototype from the chain: C has none there, but GCC writes those of
/// the elements.
fn drop_modifiers<W: Write>(draft: &mut Draft<'_, W>) {
    for _ in 0..WALK_LIMIT {
        match draft.chain.last() {
            Some(
                BtfType::Volatile(_)
                | BtfType::Const(_)
                | BtfType::Restrict(_)
                | BtfType::TypeTag(_),
            ) => {
                draft.chain.pop();
            }
            _ => break,
        }
    }
}

/// Writes a base that is no STRUCT or UNION without a name.
fn write_base<W: Write>(
    draft: &mut Draft<'_, W>,
    base: &Base<'_>,
    level: usize,
) -> Result<(), TextError> {
    let type_id = base.type_id;
    match base.btf_type {
        BtfType::Unknown => draft.out.write_str("void")?,
        BtfType::Int(_) | BtfType::Float(_) => draft.write_number_type(type_id)?,
        BtfType::Typedef(_) => draft.write_type_name(type_id)?,
        BtfType::Enum(_) | BtfType::Enum64(_) if base.btf_type.name_offset() == 0 => {
            write_enumeration(draft, type_id, base.btf_type, level)?;
        }
        BtfType::Struct(_)
        | BtfType::Union(_)
        | BtfType::Enum(_)
        | BtfType::Enum64(_)
        | BtfType::Fwd(_) => write_tagged(draft, type_id, base.btf_type)?,
        _ => {
            return Err(TextError::Table(BtfError::UnexpectedBtfType { type_id }));
        }
    }
    Ok(())
}

/// The keyword of a STRUCT, UNION, ENUM, ENUM64 or FWD with a space after it; empty for a type of another kind.
fn tag(btf_type: &BtfType) -> &'static str {
    match btf_type {
        BtfType::Struct(_) => "struct ",
        BtfType::Union(_) => "union ",
        BtfType::Enum(_) | BtfType::Enum64(_) => "enum ",
        BtfType::Fwd(t) if t.is_union() => "union ",
        BtfType::Fwd(_) => "struct ",
        _ => "",
    }
}

/// Writes the keyword of a type with a name, and the name.
pub fn write_tagged<W: Write>(
    draft: &mut Draft<'_, W>,
    type_id: u32,
    btf_type: &BtfType,
) -> Result<(), TextError> {
    draft.out.write_str(tag(btf_type))?;
    draft.write_type_name(type_id)
}

/// Writes the chain of a draft around what is declared. What comes after the name becomes tasks.
fn write_chain<'a, W: Write>(
    draft: &mut Draft<'a, W>,
    declaration: &Declaration,
) -> Result<(), TextError> {
    let is_after_pointer = write_links(draft, declaration)?;
    write_label(draft, declaration.label, is_after_pointer)
}

/// Writes the links of a draft's chain, and returns whether no space is needed before the name.
fn write_links<'a, W: Write>(
    draft: &mut Draft<'a, W>,
    declaration: &Declaration,
) -> Result<bool, TextError> {
    let mut is_after_pointer = false;
    for _ in 0..WALK_LIMIT {
        let Some(btf_type) = draft.chain.pop() else {
            break;
        };
        is_after_pointer = write_link(draft, btf_type, declaration, is_after_pointer)?;
    }
    Ok(is_after_pointer)
}

/// Writes a link of a chain, and returns whether no space is needed before what comes next.
fn write_link<'a, W: Write>(
    draft: &mut Draft<'a, W>,
    link: &'a BtfType,
    declaration: &Declaration,
    is_after_pointer: bool,
) -> Result<bool, TextError> {
    match link {
        BtfType::Ptr(_) => {
            draft
                .out
                .write_str(if is_after_pointer { "*" } else { " *" })?;
            Ok(true)
        }
        BtfType::Array(t) => {
            draft.tasks.push(Task::Length(t.array().len))?;
            open_array(draft, declaration.label, is_after_pointer)
        }
        BtfType::FuncProto(t) => {
            draft
                .tasks
                .push(Task::Params(Params::new(t.params(), declaration.level)))?;
            open_prototype(draft, is_after_pointer)
        }
        BtfType::TypeTag(t) => {
            write_qualifiers(draft)?;
            write_type_tag(draft, t.name_offset())?;
            Ok(false)
        }
        _ => {
            draft.out.write_str(" ")?;
            draft.out.write_str(qualifier(link).unwrap_or(""))?;
            Ok(false)
        }
    }
}

/// Writes what is before the name of an array, and returns whether no space is needed before what comes next.
fn open_array<W: Write>(
    draft: &mut Draft<'_, W>,
    label: Label,
    is_after_pointer: bool,
) -> Result<bool, TextError> {
    drop_modifiers(draft);
    let is_in_array = match draft.chain.last() {
        None => return Ok(is_after_pointer),
        Some(outer) => matches!(outer, BtfType::Array(_)),
    };
    if !is_after_pointer && !is_empty(draft.table, label)? {
        draft.out.write_str(" ")?;
    }
    if !is_in_array {
        draft.out.write_str("(")?;
        draft.tasks.push(Task::Close)?;
    }
    Ok(true)
}

/// Writes what is before the name of a function, and returns whether no space is needed before what comes next.
fn open_prototype<W: Write>(
    draft: &mut Draft<'_, W>,
    is_after_pointer: bool,
) -> Result<bool, TextError> {
    drop_modifiers(draft);
    if draft.chain.is_empty() {
        return Ok(is_after_pointer);
    }
    draft.out.write_str(" (")?;
    draft.tasks.push(Task::Close)?;
    Ok(true)
}

/// Writes the attribute of a tag.
fn write_type_tag<W: Write>(draft: &mut Draft<'_, W>, name_offset: u32) -> Result<(), TextError> {
    draft.out.write_str(" __attribute__((btf_type_tag(\"")?;
    write_literal(draft, name_offset)?;
    draft.out.write_str("\")))")?;
    Ok(())
}

/// Writes the inside of a string literal: a byte that is no printable character, a quote or a backslash is written as
/// three octal digits.
fn write_literal<W: Write>(draft: &mut Draft<'_, W>, offset: u32) -> Result<(), TextError> {
    let read = text_at(draft.table, offset)?;
    for byte in text_or_empty(&read).as_bytes() {
        match *byte {
            b'"' | b'\\' | 0..0x20 | 0x7f.. => write!(draft.out, "\\{byte:03o}")?,
            _ => draft.out.write_char(char::from(*byte))?,
        }
    }
    Ok(())
}

/// Whether a member or a parameter has no name.
fn is_empty(table: &Btf, label: Label) -> Result<bool, TextError> {
    match label {
        Label::Item(0) => Ok(true),
        Label::Item(offset) => match text_at(table, offset)? {
            Some(text) => Ok(text.as_str().is_empty()),
            None => Ok(true),
        },
        Label::Typedef(_) => Ok(false),
    }
}

/// Writes what is declared, with a space before it where one is needed.
fn write_label<W: Write>(
    draft: &mut Draft<'_, W>,
    label: Label,
    is_after_pointer: bool,
) -> Result<(), TextError> {
    match label {
        Label::Item(0) => Ok(()),
        Label::Item(name_offset) => write_item_name(draft, name_offset, is_after_pointer),
        Label::Typedef(type_id) => {
            write_space(draft, is_after_pointer)?;
            draft.write_type_name(type_id)
        }
    }
}

/// Writes the name of a member or a parameter if it has one, with a space before it where one is needed.
fn write_item_name<W: Write>(
    draft: &mut Draft<'_, W>,
    name_offset: u32,
    is_after_pointer: bool,
) -> Result<(), TextError> {
    let read = text_at(draft.table, name_offset)?;
    let text = text_or_empty(&read);
    if text.is_empty() {
        return Ok(());
    }
    write_space(draft, is_after_pointer)?;
    draft.write_name(text)
}

/// Writes the space before a name, unless the name is right after a pointer.
fn write_space<W: Write>(
    draft: &mut Draft<'_, W>,
    is_after_pointer: bool,
) -> Result<(), TextError> {
    if !is_after_pointer {
        draft.out.write_str(" ")?;
    }
    Ok(())
}
