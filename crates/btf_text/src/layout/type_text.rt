//! The text of a type in C.

use crate::error::TextError;
use crate::layout::declarator::{Declarator, Qualifiers, Step};
use crate::word::text_at;
use btf_plain::BtfParam;
use btf_records::BtfType;
use btf_table::Btf;

/// The maximum nesting depth of prototypes that are written.
pub const PROTOTYPE_LIMIT: u32 = 8;

/// The length of a line in bytes after which no further parameter is written.
const LINE_LIMIT: usize = 4096;

/// Adds the base of a type to a line, and the pointers that belong to it.
pub fn add_base(
    line: &mut String,
    table: &Btf,
    declarator: &Declarator<'_>,
) -> Result<(), TextError> {
    let qualifiers = declarator.qualifiers;
    add_base_qualifiers(line, &qualifiers)?;
    add_name(line, table, declarator.base)?;
    if !declarator.pointers.is_empty() {
        add_gap(line, &qualifiers)?;
    }
    for pointer in declarator.pointers.iter().rev() {
        line.push_str(" *")?;
        add_pointer_qualifiers(line, pointer)?;
    }
    Ok(())
}

/// Adds the pointers that belong to the base of a type, after the text of the base.
pub fn add_stars(line: &mut String, declarator: &Declarator<'_>) -> Result<(), TextError> {
    for pointer in declarator.pointers.iter().rev() {
        line.push_str("*")?;
        add_pointer_qualifiers(line, pointer)?;
        line.push_str(" ")?;
    }
    Ok(())
}

/// Adds the qualifiers of a base.
fn add_base_qualifiers(line: &mut String, qualifiers: &Qualifiers) -> Result<(), TextError> {
    if qualifiers.constant {
        line.push_str("const ")?;
    }
    if qualifiers.volatile {
        line.push_str("volatile ")?;
    }
    Ok(())
}

/// Adds a space for each qualifier of a base, as `pahole` does after the name if a pointer follows, or in a list of
/// parameters.
fn add_gap(line: &mut String, qualifiers: &Qualifiers) -> Result<(), TextError> {
    if qualifiers.constant {
        line.push_str(" ")?;
    }
    if qualifiers.volatile {
        line.push_str(" ")?;
    }
    Ok(())
}

/// Adds the qualifiers of a pointer.
fn add_pointer_qualifiers(line: &mut String, qualifiers: &Qualifiers) -> Result<(), TextError> {
    if qualifiers.constant {
        line.push_str(" const")?;
    }
    if qualifiers.volatile {
        line.push_str(" volatile")?;
    }
    if qualifiers.restrict {
        line.push_str(" restrict")?;
    }
    Ok(())
}

/// The keyword of C before the name of a type.
pub fn keyword(btf_type: &BtfType) -> &'static str {
    match btf_type {
        BtfType::Struct(_) => "struct",
        BtfType::Union(_) => "union",
        BtfType::Enum(_) | BtfType::Enum64(_) => "enum",
        BtfType::Fwd(t) if t.is_union() => "union",
        BtfType::Fwd(_) => "struct",
        _ => "",
    }
}

/// Adds the name of a type that is no pointer, array or prototype.
fn add_name(line: &mut String, table: &Btf, type_id: u32) -> Result<(), TextError> {
    if type_id == 0 {
        line.push_str("void")?;
        return Ok(());
    }
    let btf_type = table.type_by_id(type_id)?;
    let keyword = keyword(btf_type);
    line.push_str(keyword)?;
    if !keyword.is_empty() {
        line.push_str(" ")?;
    }
    match text_at(table, btf_type.name_offset())? {
        Some(name) => add_known_name(line, name.as_str()),
        None => add_known_name(line, ""),
    }
}

/// Adds a name, or the text for a missing one.
fn add_known_name(line: &mut String, name: &str) -> Result<(), TextError> {
    if name.is_empty() {
        line.push_str("{...}")?;
    } else {
        line.push_str(name)?;
    }
    Ok(())
}

/// Adds the declared name, and the pointers, arrays and functions beside it. An array without elements is written
/// without a length if `is_flexible`.
#[cycle(type_text)]
pub fn add_declared(
    line: &mut String,
    table: &Btf,
    steps: &[Step<'_>],
    name: &str,
    is_flexible: bool,
    depth: u32,
) -> Result<(), TextError> {
    add_left(line, steps)?;
    line.push_str(name)?;
    for step in steps {
        match step {
            Step::Pointer(_) => {}
            Step::Enclosed(_) => line.push_str(")")?,
            Step::Array(0) if is_flexible => line.push_str("[]")?,
            Step::Array(len) => write!(line, "[{len}]")?,
            Step::Prototype(proto) => add_params(line, table, proto.params(), depth)?,
        }
    }
    Ok(())
}

/// Adds the pointers that are written before a name.
fn add_left(line: &mut String, steps: &[Step<'_>]) -> Result<(), TextError> {
    for step in steps.iter().rev() {
        match step {
            Step::Pointer(qualifiers) => {
                line.push_str("*")?;
                add_pointer_qualifiers(line, qualifiers)?;
            }
            Step::Enclosed(qualifiers) => {
                line.push_str("(*")?;
                add_pointer_qualifiers(line, qualifiers)?;
            }
            Step::Array(_) | Step::Prototype(_) => {}
        }
    }
    Ok(())
}

/// Whether a list of parameters is written as `(void)`: an empty one, and one of `...` alone, which C does not have.
fn is_void(params: &[BtfParam]) -> bool {
    match params {
        [] => true,
        [only] => only.btf_type == 0,
        _ => false,
    }
}

/// Adds the parameters of a function, in parentheses. Parameters that would make the line too long are left out.
#[cycle(type_text)]
fn add_params(
    line: &mut String,
    table: &Btf,
    params: &[BtfParam],
    depth: u32,
) -> Result<(), TextError> {
    let Some(deeper) = depth.checked_sub(1) else {
        line.push_str("(...)")?;
        return Ok(());
    };
    if is_void(params) {
        line.push_str("(void)")?;
        return Ok(());
    }
    line.push_str("(")?;
    for (index, param) in params.iter().enumerate() {
        if index > 0 {
            line.push_str(", ")?;
        }
        if param.btf_type == 0 || line.len() > LINE_LIMIT {
            line.push_str("...")?;
            break;
        }
        add_param(line, table, param.btf_type, deeper)?;
    }
    line.push_str(")")?;
    Ok(())
}

/// Adds the type of a parameter.
#[cycle(type_text)]
fn add_param(line: &mut String, table: &Btf, type_id: u32, depth: u32) -> Result<(), TextError> {
    let declarator = Declarator::of(*line.allocator(), table, type_id)?;
    add_base(line, table, &declarator)?;
    if declarator.pointers.is_empty() {
        add_gap(line, &declarator.qualifiers)?;
    }
    if !declarator.steps.is_empty() {
        line.push_str(" ")?;
        add_declared(line, table, &declarator.steps, "", false, depth)?;
    }
    Ok(())
}
