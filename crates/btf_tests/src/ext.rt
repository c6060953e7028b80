//! The `.BTF.ext` section, parsed without a hasher of the caller, and its ranges section by section.

use crate::words::Words;
use btf::{BtfExt, SecInfoIter};
use std::alloc::Global;
use std::fmt::Write;

/// The function records and the line records of a name: their number, and their bytes.
fn records(alloc: Global, ext: &BtfExt, name: &str) -> anyhow::Result<String> {
    let funcs = ext.func_info().get(name)?;
    let lines = ext.line_info().get(name)?;
    let func_digits = hex::encode(alloc, funcs.func_info_bytes()?)?;
    let line_digits = hex::encode(alloc, lines.line_info_bytes()?)?;
    let (few, many) = (funcs.len(), lines.len());
    Ok(format!(in alloc;
        "{few} {} {many} {}",
        func_digits.as_str(),
        line_digits.as_str()
    )?)
}

/// The sizes of records, the relocations, and the records of a name.
fn text(alloc: Global, ext: &BtfExt, name: &str) -> anyhow::Result<String> {
    let (func, line) = (ext.func_info_rec_size(), ext.line_info_rec_size());
    let shown = records(alloc, ext, name)?;
    Ok(format!(in alloc; "{func} {line} {:?} {}", ext.relocations(), shown.as_str())?)
}

/// `ext ORDER TABLE ORDER EXT NAME`: a section and its clone, parsed with a table.
pub fn ext(words: &mut Words<'_>) -> anyhow::Result<String> {
    let table = words.table()?;
    let order = words.order();
    let bytes = words.bytes()?;
    let ext = BtfExt::parse(&bytes, order, &table)?;
    let clone = ext.try_clone()?;
    text(words.alloc, &clone, words.word())
}

/// `sections ORDER SIZE BYTES`: each section of a range, its name's string offset and its numbers of records and of
/// bytes, or an error; then a dot.
pub fn sections(words: &mut Words<'_>) -> anyhow::Result<String> {
    let order = words.order();
    let size = words.word().parse::<usize>().unwrap_or(0);
    let bytes = words.bytes()?;
    let mut text = String::new(words.alloc);
    for next in SecInfoIter::new(&bytes, size, order) {
        match &next {
            Ok(it) => write!(
                text,
                "{} {} {}; ",
                it.name_offset,
                it.num_info,
                it.bytes.len()
            )?,
            Err(e) => write!(text, "{e}; ")?,
        }
    }
    text.push_str(".")?;
    Ok(text)
}
