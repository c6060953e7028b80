//! The lines of the items of a type.

use crate::dump::line::kind_name;
use crate::error::TextError;
use crate::word::write_quoted;
use btf_plain::{BtfEnum, BtfEnum64, BtfParam, DataSecEntry};
use btf_records::BtfType;
use btf_table::Btf;
use std::fmt::Write;

/// Writes a line for each member of a STRUCT or a UNION; none for the other kinds.
pub fn write_members<W: Write>(
    out: &mut W,
    table: &Btf,
    btf_type: &BtfType,
) -> Result<(), TextError> {
    let Some(members) = btf_type.members() else {
        return Ok(());
    };
    for member in members {
        let target = member.btf_type;
        let offset = btf_type.member_bit_offset(member).unwrap_or(0);
        let bits = btf_type.member_bit_field_size(member).unwrap_or(0);
        out.write_str("\n\t")?;
        write_quoted(out, table, member.name_offset)?;
        write!(out, " type_id={target} bits_offset={offset}")?;
        if bits != 0 {
            write!(out, " bitfield_size={bits}")?;
        }
    }
    Ok(())
}

/// Writes a line for each variant of 32 bits.
pub fn write_variants<W: Write>(
    out: &mut W,
    table: &Btf,
    signed: bool,
    variants: &[BtfEnum],
) -> Result<(), TextError> {
    for variant in variants {
        let value = variant.value;
        out.write_str("\n\t")?;
        write_quoted(out, table, variant.name_offset)?;
        if signed {
            let value = value.cast_signed();
            write!(out, " val={value}")?;
        } else {
            write!(out, " val={value}")?;
        }
    }
    Ok(())
}

/// Writes a line for each variant of 64 bits.
pub fn write_variants64<W: Write>(
    out: &mut W,
    table: &Btf,
    signed: bool,
    variants: &[BtfEnum64],
) -> Result<(), TextError> {
    for variant in variants {
        let value = u64::from(variant.value_high) << 32 | u64::from(variant.value_low);
        out.write_str("\n\t")?;
        write_quoted(out, table, variant.name_offset)?;
        if signed {
            let value = value.cast_signed();
            write!(out, " val={value}LL")?;
        } else {
            write!(out, " val={value}ULL")?;
        }
    }
    Ok(())
}

/// Writes a line for each parameter.
pub fn write_params<W: Write>(
    out: &mut W,
    table: &Btf,
    params: &[BtfParam],
) -> Result<(), TextError> {
    for param in params {
        let target = param.btf_type;
        out.write_str("\n\t")?;
        write_quoted(out, table, param.name_offset)?;
        write!(out, " type_id={target}")?;
    }
    Ok(())
}

/// Writes a line for each variable of a data section, with the kind and the name of its type if the table has the type.
pub fn write_entries<W: Write>(
    out: &mut W,
    table: &Btf,
    entries: &[DataSecEntry],
) -> Result<(), TextError> {
    for entry in entries {
        let (target, offset, size) = (entry.btf_type, entry.offset, entry.size);
        write!(out, "\n\ttype_id={target} offset={offset} size={size}")?;
        if let Ok(btf_type) = table.type_by_id(target) {
            let kind = kind_name(btf_type.kind());
            write!(out, " ({kind} ")?;
            write_quoted(out, table, btf_type.name_offset())?;
            out.write_str(")")?;
        }
    }
    Ok(())
}
