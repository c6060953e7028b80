//! The lines of records.

use crate::error::TextError;
use crate::ext::Topic;
use crate::word::{write_quoted, write_text};
use btf_plain::Endianness;
use btf_table::Btf;
use std::fmt::Write;

/// Writes the line of a record. Missing words are 0.
pub fn write_record<W: Write>(
    table: &Btf,
    topic: Topic,
    record: &[u8],
    endianness: Endianness,
    out: &mut W,
) -> Result<(), TextError> {
    let words = read_words(record, endianness);
    match topic {
        Topic::Functions => write_function(table, &words, out),
        Topic::Lines => write_line(table, &words, out),
        Topic::Relocations => write_relocation(table, &words, out),
    }
}

/// The first four words of a record.
fn read_words(record: &[u8], endianness: Endianness) -> [u32; 4] {
    let (read, _) = record.as_chunks::<4>();
    let mut words = [0; 4];
    for (word, bytes) in words.iter_mut().zip(read) {
        *word = endianness.read_u32(*bytes);
    }
    words
}

/// Writes the first instruction of a function, and its type (`struct bpf_func_info`).
fn write_function<W: Write>(table: &Btf, words: &[u32; 4], out: &mut W) -> Result<(), TextError> {
    let [offset, type_id, _, _] = words;
    write!(out, "\tfunction insn_off={offset} type_id={type_id} ")?;
    write_type_name(table, *type_id, out)?;
    out.write_str("\n")?;
    Ok(())
}

/// Writes the source line of an instruction, and its text (`struct bpf_line_info`).
fn write_line<W: Write>(table: &Btf, words: &[u32; 4], out: &mut W) -> Result<(), TextError> {
    let [offset, file, text, line_col] = words;
    let (line, column) = (line_col >> 10, line_col & 0x3ff);
    write!(
        out,
        "\tline insn_off={offset} line={line} column={column} file="
    )?;
    write_text(out, table, *file)?;
    out.write_str(" text=")?;
    write_text(out, table, *text)?;
    out.write_str("\n")?;
    Ok(())
}

/// Writes the relocated instruction, and the relocation (`struct bpf_core_relo`).
fn write_relocation<W: Write>(table: &Btf, words: &[u32; 4], out: &mut W) -> Result<(), TextError> {
    let [offset, type_id, access, kind] = words;
    write!(out, "\trelocation insn_off={offset} type_id={type_id} ")?;
    write_type_name(table, *type_id, out)?;
    out.write_str(" access=")?;
    write_text(out, table, *access)?;
    match relocation_name(*kind) {
        Some(name) => writeln!(out, " kind={name}")?,
        None => writeln!(out, " kind={kind}")?,
    }
    Ok(())
}

/// Writes the name of a type.
fn write_type_name<W: Write>(table: &Btf, type_id: u32, out: &mut W) -> Result<(), TextError> {
    match table.type_by_id(type_id) {
        Ok(btf_type) => write_quoted(out, table, btf_type.name_offset()),
        Err(_e) => {
            out.write_str("'(invalid)'")?;
            Ok(())
        }
    }
}

/// The name of a kind of relocations in libbpf (`enum bpf_core_relo_kind`, `core_relo_kind_str`).
fn relocation_name(kind: u32) -> Option<&'static str> {
    let name = match kind {
        0 => "byte_off",
        1 => "byte_sz",
        2 => "field_exists",
        3 => "signed",
        4 => "lshift_u64",
        5 => "rshift_u64",
        6 => "local_type_id",
        7 => "target_type_id",
        8 => "type_exists",
        9 => "type_size",
        10 => "enumval_exists",
        11 => "enumval_value",
        12 => "type_matches",
        _ => return None,
    };
    Some(name)
}
