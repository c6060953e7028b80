//! The output of the queries. The listing of a table's types is written while it is made.

ghost use Rattle.std.specs.Prelude.{map, Ok, IsOk, OnOk};
ghost use Rattle.std.specs.Io.KnownBytes.{Appends};
ghost use Rattle.btf_model.specs.Text.{lossy, text_at};
ghost use Rattle.btf_plain.specs.Error.{IsOrNoMemory};
ghost use Rattle.btf_records.specs.BtfType.{record_of};
ghost use Rattle.text_buffer.specs.Buffer.{Takes, HasBufferRoom};
ghost use Rattle.btf_cli.specs.Listing.{name_part, type_line, lines_from};
ghost use Rattle.btf_cli.specs.Listing as spec;

use btf_plain::BtfError;
use btf_records::BtfType;
use btf_table::{Btf, name_bytes};
use std::alloc::Global;
use std::fmt::Write;
use std::{fmt, io};
use text_buffer::TextBuffer;

/// Writes the text of bytes: U+FFFD replaces each longest piece that is not UTF-8.
fn write_lossy<W: io::Write>(lines: &mut TextBuffer<'_, W>, bytes: &[u8]) -> fmt::Result
    ensures taken { OnOk result (Takes W.contents lines.old (lossy bytes.now) lines.new) }
    ensures room { HasBufferRoom lines.old (lossy bytes.now) → IsOk result }
{
    for chunk in bytes.utf8_chunks() {
        lines.put(chunk.valid())?;
        if !chunk.invalid().is_empty() {
            lines.put("\u{FFFD}")?;
        }
    }
    Ok(())
}

/// Writes a space and the name of a type, if the name can be read and is not empty. The name is not copied, however
/// long its text is.
fn write_name<W: io::Write>(
    lines: &mut TextBuffer<'_, W>,
    table: &Btf,
    btf_type: &BtfType,
) -> fmt::Result
    ensures taken { OnOk result (Takes W.contents lines.old
        (name_part (text_at table.now.strings (record_of btf_type.now).name)) lines.new) }
    // If there is room, nothing fails, so a name that can't be read is no error.
    ensures room { HasBufferRoom lines.old
        (name_part (text_at table.now.strings (record_of btf_type.now).name)) → IsOk result }
{
    let bytes = name_bytes(table, btf_type).unwrap_or(&[]);
    if !bytes.is_empty() {
        lines.put(" ")?;
        write_lossy(lines, bytes)?;
    }
    Ok(())
}

/// Writes the line of a type: its id, its kind, and its name if it can be read and is not empty.
fn write_line<W: io::Write>(
    lines: &mut TextBuffer<'_, W>,
    table: &Btf,
    id: usize,
    btf_type: &BtfType,
) -> fmt::Result
    ensures { OnOk result (Takes W.contents lines.old
        (type_line table.now.strings id (record_of btf_type.now)) lines.new) }
{
    let kind = btf_type.kind();
    write!(lines, "{id} {kind}")?;
    write_name(lines, table, btf_type)?;
    lines.put("\n")
}

/// Writes a line for each of these types; the first has id 1.
fn write_lines<W: io::Write>(
    lines: &mut TextBuffer<'_, W>,
    table: &Btf,
    types: &[BtfType],
) -> fmt::Result
    ensures { OnOk result (Takes W.contents lines.old
        (lines_from table.now.strings 1 (map record_of types.now)) lines.new) }
{
    for (place, btf_type) in types.iter().enumerate() {
        write_line(lines, table, place + 1, btf_type)?;
    }
    Ok(())
}

/// Writes a line for each type from id 1 on. Nothing is allocated, so only the writer can fail.
pub fn write_listing<W: io::Write>(table: &Btf, out: &mut W) -> fmt::Result
    ensures { OnOk result (Appends (W.contents out.old) (W.contents out.new)
        (spec.table_lines table.now)) }
{
    let mut lines = TextBuffer::new(out);
    if let Some((_, types)) = table.types().as_slice().split_first() {
        write_lines(&mut lines, table, types)?;
    }
    lines.flush()
}

/// The line of a size.
pub fn size_line(alloc: Global, size: usize) -> Result<Vec<u8>, BtfError>
    ensures { IsOrNoMemory (λ v. v.items) result (Ok (spec.size_line size)) }
{
    let text = format!(in alloc; "{size}\n")?;
    Ok(text.into_bytes())
}

/// The lines of a comparison: its answer, and the number of pairs that it started.
pub fn comparison_lines(alloc: Global, answer: bool, starts: usize) -> Result<Vec<u8>, BtfError>
    ensures { IsOrNoMemory (λ v. v.items) result (Ok (spec.comparison_lines answer starts)) }
{
    let answer = if answer { "true" } else { "false" };
    let text = format!(in alloc; "{answer}\nstarts {starts}\n")?;
    Ok(text.into_bytes())
}
