//! ELF objects: their sections and symbols, and other bytes in a section.

use crate::words::Words;
use btf_elf::{Object, SectionHeader, Symbol};
use std::alloc::AllocError;
use std::fmt::Write;

/// Writes the numbers of a section, in the order of the columns of `readelf -SW`, and its name in hexadecimal digits.
fn write_section(text: &mut String, it: &SectionHeader, name: &str) -> Result<(), AllocError> {
    let (kind, offset, size, each) = (it.kind, it.offset, it.size, it.entry_size);
    let (flags, link, info, alignment) = (it.flags, it.link, it.info, it.alignment);
    write!(
        text,
        "{kind} {offset} {size} {each} {flags} {link} {info} {alignment} {name};"
    )
}

/// Writes the numbers of a symbol, in the order of the columns of `readelf -sW`, and its name in hexadecimal digits.
fn write_symbol(text: &mut String, it: &Symbol, name: &str) -> Result<(), AllocError> {
    let (value, size, kind) = (it.value, it.size, it.kind);
    let (binding, other, section) = (it.binding, it.other, it.section);
    write!(
        text,
        "{value} {size} {kind} {binding} {other} {section} {name};"
    )
}

/// `elf_sections FILE`: the order, the machine and the kind of an object; then each section.
pub fn sections(words: &mut Words<'_>) -> anyhow::Result<String> {
    let bytes = words.bytes()?;
    let object = Object::parse(words.alloc, &bytes)?;
    let header = object.header();
    let (order, machine, kind) = (header.order, header.machine, header.kind);
    let mut text = format!(in words.alloc; "{order:?} {machine} {kind};")?;
    for section in object.sections() {
        let name = hex::encode(words.alloc, object.section_name(section))?;
        write_section(&mut text, section, name.as_str())?;
    }
    Ok(text)
}

/// `elf_symbols FILE`: each symbol.
pub fn symbols(words: &mut Words<'_>) -> anyhow::Result<String> {
    let bytes = words.bytes()?;
    let object = Object::parse(words.alloc, &bytes)?;
    let mut text = String::new(words.alloc);
    for index in 0..object.symbol_count() {
        if let Some(symbol) = object.symbol(index) {
            let name = hex::encode(words.alloc, object.symbol_name(&symbol))?;
            write_symbol(&mut text, &symbol, name.as_str())?;
        }
    }
    Ok(text)
}

/// `elf_section FILE NAME`: the index and the bytes of the section of a name, both in digits.
pub fn section(words: &mut Words<'_>) -> anyhow::Result<String> {
    let (bytes, name) = (words.bytes()?, words.bytes()?);
    let object = Object::parse(words.alloc, &bytes)?;
    let Some(index) = object.section_by_name(&name) else {
        return Ok("none".to_string(words.alloc)?);
    };
    let section = object.sections().get(index);
    let digits = match section {
        Some(it) => hex::encode(words.alloc, object.section_bytes(it))?,
        None => String::new(words.alloc),
    };
    Ok(format!(in words.alloc; "{index} {}", digits.as_str())?)
}

/// `replaced FILE INDEX BYTES`: the file with other bytes in a section.
pub fn replaced(words: &mut Words<'_>) -> anyhow::Result<String> {
    let bytes = words.bytes()?;
    let index = words.number() as usize;
    let given = words.bytes()?;
    let object = Object::parse(words.alloc, &bytes)?;
    let file = object.with_section(words.alloc, index, &given)?;
    Ok(hex::encode(words.alloc, file)?)
}
