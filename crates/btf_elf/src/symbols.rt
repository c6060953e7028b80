//! The symbol table.

ghost use Rattle.std.specs.Prelude.{◌≡◌, Some, not, map, position, IfOk};
ghost use Rattle.std.specs.Option.{option_copied};
ghost use Rattle.btf_elf_model.specs.Section.{is_name_offset};
ghost use Rattle.btf_elf_model.specs.Symbols.{symbol, symbol_table, is_malformed};
ghost use Rattle.btf_elf_model.specs.Object.{error_when, symbol_table_error, symbol_error};
ghost use Rattle.btf_elf.specs.Results.{HasError};
ghost use Rattle.btf_elf.specs.SymbolTable.{IsSymbolTable};

use crate::section::contents;
use crate::strings::{is_name, string_table};
use crate::words::{half_at, word_at, xword_at};
use btf_elf_model::{ParseError, SectionHeader, Symbol};
use btf_model::Endianness;

/// The bytes of the symbols, and the string table of their names.
#[derive(Clone, Copy, Debug)]
pub struct SymbolTable<'a> {
    pub entries: &'a [[u8; 24]],
    pub names: &'a [u8],
}

/// The symbol that 24 bytes spell.
#[tactic(auto, unfolding(btf_elf_model::specs::Symbols::symbol))]
pub fn symbol(entry: &[u8; 24], order: Endianness) -> Symbol
    ensures { result ≡ symbol order entry.now }
{
    Symbol {
        name: word_at(entry, 0, order),
        binding: entry[4] / 16,
        kind: entry[4] % 16,
        other: entry[5],
        section: half_at(entry, 6, order),
        value: xword_at(entry, 8, order),
        size: xword_at(entry, 16, order),
    }
}

/// The first section that is a symbol table.
fn find_table(sections: &[SectionHeader]) -> Option<&SectionHeader>
    ensures { option_copied result ≡ symbol_table sections.now }
{
    sections.iter().find(|s| s.kind == SectionHeader::SYMTAB)
}

/// The symbols of a symbol table, or `BadSymbolTable`.
#[tactic(auto, unfolding(btf_elf_model::specs::Symbols::is_malformed))]
fn read_table<'a>(
    bytes: &'a [u8],
    sections: &[SectionHeader],
    section: &SectionHeader,
) -> Result<SymbolTable<'a>, ParseError>
    ensures error { HasError result
        (error_when (is_malformed bytes.now sections.now section.now) ParseError.BadSymbolTable) }
    ensures ok { IfOk result (IsSymbolTable bytes.now sections.now (Some section.now)) }
{
    let (entries, rest) = contents(bytes, section).as_chunks::<24>();
    if section.entry_size != 24 || !rest.is_empty() {
        return Err(ParseError::BadSymbolTable);
    }
    match string_table(bytes, sections, section.link) {
        Some(names) => Ok(SymbolTable { entries, names }),
        None => Err(ParseError::BadSymbolTable),
    }
}

/// The symbols of the first symbol table, or `BadSymbolTable`; no symbols if there is no symbol table.
#[tactic(auto, unfolding(btf_elf_model::specs::Object::symbol_table_error))]
pub fn read_symbols<'a>(
    bytes: &'a [u8],
    sections: &[SectionHeader],
) -> Result<SymbolTable<'a>, ParseError>
    ensures error { HasError result (symbol_table_error bytes.now sections.now) }
    ensures ok { IfOk result (IsSymbolTable bytes.now sections.now (symbol_table sections.now)) }
{
    match find_table(sections) {
        Some(section) => read_table(bytes, sections, section),
        None => Ok(SymbolTable {
            entries: &[],
            names: &[],
        }),
    }
}

/// The first symbol whose name doesn't begin in the string table.
fn first_unnamed(table: &SymbolTable<'_>, order: Endianness) -> Option<usize>
    ensures { result ≡ position (λ s. not (is_name_offset table.now.names.now s.name))
        (map (symbol order) table.now.entries.now) }
{
    let names = table.names;
    let mut symbols = table.entries.iter().map(|entry| symbol(entry, order));
    symbols.position(|s| !is_name(names, s.name))
}

/// Checks the names of all symbols. Fails with `BadSymbolName` of the first symbol whose name doesn't begin in the
/// string table.
#[tactic(auto, unfolding(btf_elf_model::specs::Object::symbol_error))]
pub fn check_symbols(table: &SymbolTable<'_>, order: Endianness) -> Result<(), ParseError>
    ensures { HasError result (symbol_error table.now.names.now
        (map (symbol order) table.now.entries.now)) }
{
    match first_unnamed(table, order) {
        Some(index) => Err(ParseError::BadSymbolName { index }),
        None => Ok(()),
    }
}
