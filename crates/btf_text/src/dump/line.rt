//! The line of a type.

use crate::dump::list::{
    write_entries, write_members, write_params, write_variants, write_variants64,
};
use crate::error::TextError;
use crate::word::write_quoted;
use btf_plain::{BtfKind, FuncLinkage, Int, IntEncoding, VarLinkage};
use btf_records::BtfType;
use btf_table::Btf;
use std::fmt;
use std::fmt::Write;

/// The name of a kind in a dump.
pub fn kind_name(kind: BtfKind) -> &'static str {
    match kind {
        BtfKind::Unknown => "UNKNOWN",
        BtfKind::Int => "INT",
        BtfKind::Ptr => "PTR",
        BtfKind::Array => "ARRAY",
        BtfKind::Struct => "STRUCT",
        BtfKind::Union => "UNION",
        BtfKind::Enum => "ENUM",
        BtfKind::Fwd => "FWD",
        BtfKind::Typedef => "TYPEDEF",
        BtfKind::Volatile => "VOLATILE",
        BtfKind::Const => "CONST",
        BtfKind::Restrict => "RESTRICT",
        BtfKind::Func => "FUNC",
        BtfKind::FuncProto => "FUNC_PROTO",
        BtfKind::Var => "VAR",
        BtfKind::DataSec => "DATASEC",
        BtfKind::Float => "FLOAT",
        BtfKind::DeclTag => "DECL_TAG",
        BtfKind::TypeTag => "TYPE_TAG",
        BtfKind::Enum64 => "ENUM64",
    }
}

/// Writes a type: its own line, and the lines of its items.
pub fn write_type<W: Write>(
    out: &mut W,
    table: &Btf,
    id: usize,
    btf_type: &BtfType,
) -> Result<(), TextError> {
    write!(out, "[{id}] ")?;
    write_type_line(table, btf_type, out)?;
    write_list(out, table, btf_type)?;
    out.write_str("\n")?;
    Ok(())
}

/// Writes the first line of a type in a dump, without the id and without the end of the line: the kind, the name, and
/// the fields of the type, without its items. The errors are those of `write_dump`.
pub fn write_type_line<W: Write>(
    table: &Btf,
    btf_type: &BtfType,
    out: &mut W,
) -> Result<(), TextError> {
    let kind = kind_name(btf_type.kind());
    write!(out, "{kind} ")?;
    write_quoted(out, table, btf_type.name_offset())?;
    write_words(out, btf_type)?;
    Ok(())
}

/// Writes the fields of a type, without its items.
fn write_words<W: Write>(out: &mut W, btf_type: &BtfType) -> fmt::Result {
    match btf_type {
        BtfType::Unknown => Ok(()),
        BtfType::Int(t) => write_int(out, t),
        BtfType::Ptr(t) => write_target(out, t.btf_type()),
        BtfType::Typedef(t) => write_target(out, t.btf_type()),
        BtfType::Volatile(t) => write_target(out, t.btf_type()),
        BtfType::Const(t) => write_target(out, t.btf_type()),
        BtfType::Restrict(t) => write_target(out, t.btf_type()),
        BtfType::TypeTag(t) => write_target(out, t.btf_type()),
        BtfType::Array(t) => {
            let array = t.array();
            let (element, index, len) = (array.element_type, array.index_type, array.len);
            write!(
                out,
                " type_id={element} index_type_id={index} nr_elems={len}"
            )
        }
        BtfType::Struct(t) => write_size(out, t.size(), t.members().len()),
        BtfType::Union(t) => write_size(out, t.size(), t.members().len()),
        BtfType::Enum(t) => {
            out.write_str(encoding_text(t.is_signed()))?;
            write_size(out, t.size(), t.variants().len())
        }
        BtfType::Enum64(t) => {
            out.write_str(encoding_text(t.is_signed()))?;
            write_size(out, t.size(), t.variants().len())
        }
        BtfType::Fwd(t) => out.write_str(forward_text(t.is_union())),
        BtfType::Func(t) => {
            let (target, linkage) = (t.btf_type(), func_linkage_text(&t.linkage()));
            write!(out, " type_id={target} linkage={linkage}")
        }
        BtfType::FuncProto(t) => {
            let (target, vlen) = (t.return_type(), t.params().len());
            write!(out, " ret_type_id={target} vlen={vlen}")
        }
        BtfType::Var(t) => {
            let (target, linkage) = (t.btf_type(), var_linkage_text(&t.linkage()));
            write!(out, " type_id={target}, linkage={linkage}")
        }
        BtfType::DataSec(t) => write_size(out, t.size(), t.entries().len()),
        BtfType::Float(t) => {
            let size = t.size();
            write!(out, " size={size}")
        }
        BtfType::DeclTag(t) => {
            let (target, component) = (t.btf_type(), t.component_index());
            write!(out, " type_id={target} component_idx={component}")
        }
    }
}

/// Writes a line for each item of a type.
fn write_list<W: Write>(out: &mut W, table: &Btf, btf_type: &BtfType) -> Result<(), TextError> {
    match btf_type {
        BtfType::Struct(_) | BtfType::Union(_) => write_members(out, table, btf_type),
        BtfType::Enum(t) => write_variants(out, table, t.is_signed(), t.variants()),
        BtfType::Enum64(t) => write_variants64(out, table, t.is_signed(), t.variants()),
        BtfType::FuncProto(t) => write_params(out, table, t.params()),
        BtfType::DataSec(t) => write_entries(out, table, t.entries()),
        _ => Ok(()),
    }
}

/// Writes the id of the type that a type refers to.
fn write_target<W: Write>(out: &mut W, target: u32) -> fmt::Result {
    write!(out, " type_id={target}")
}

/// Writes the size of a type and the number of its items.
fn write_size<W: Write>(out: &mut W, size: u32, vlen: usize) -> fmt::Result {
    write!(out, " size={size} vlen={vlen}")
}

/// Writes the fields of an integer.
fn write_int<W: Write>(out: &mut W, int: &Int) -> fmt::Result {
    let (size, offset, bits) = (int.size(), int.offset(), int.bits());
    let encoding = match int.encoding() {
        IntEncoding::None => "(none)",
        IntEncoding::Signed => "SIGNED",
        IntEncoding::Char => "CHAR",
        IntEncoding::Bool => "BOOL",
        IntEncoding::Unknown => "UNKN",
    };
    write!(
        out,
        " size={size} bits_offset={offset} nr_bits={bits} encoding={encoding}"
    )
}

/// The signedness of an enumeration's values.
fn encoding_text(signed: bool) -> &'static str {
    if signed {
        " encoding=SIGNED"
    } else {
        " encoding=UNSIGNED"
    }
}

/// The kind of type that a forward declaration declares.
fn forward_text(is_union: bool) -> &'static str {
    if is_union {
        " fwd_kind=union"
    } else {
        " fwd_kind=struct"
    }
}

/// The name of a function's linkage.
fn func_linkage_text(linkage: &FuncLinkage) -> &'static str {
    match linkage {
        FuncLinkage::Static => "static",
        FuncLinkage::Global => "global",
        FuncLinkage::Extern => "extern",
        FuncLinkage::Unknown => "(unknown)",
    }
}

/// The name of a variable's linkage.
fn var_linkage_text(linkage: &VarLinkage) -> &'static str {
    match linkage {
        VarLinkage::Static => "static",
        VarLinkage::Global => "global",
        VarLinkage::Extern => "extern",
        VarLinkage::Unknown => "(unknown)",
    }
}
