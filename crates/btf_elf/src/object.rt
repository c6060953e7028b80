//! Objects.

ghost use Rattle.std.specs.Prelude.{◌≡◌, ◌⊎◌, ◌<◌, ◌≤◌, Some, IsSome, IfSome, IfNone, IfOk, IfErr, IsErrAnd, slice_get, position, MatchResult, length};
ghost use Rattle.std.specs.Str.{bytes_eq};
ghost use Rattle.btf_elf_model.specs.Object as model;
ghost use Rattle.btf_elf_model.specs.Replaced.{is_replaceable, place};
ghost use Rattle.btf_elf.specs.Results.{IsElfError, FindsReplaceable};
ghost use Rattle.btf_elf.specs.Writing.{replace_error, HasReplaced};

use crate::error::{ObjectError, ReplaceError};
use crate::header::{check_header, read_header};
use crate::replace::{aligned_end, fits, is_replaceable, write_replaced};
use crate::section::{check_sections, contents};
use crate::strings::{has_name, name_at, read_names, short_name};
use crate::symbols::{SymbolTable, check_symbols, read_symbols, symbol};
use crate::table::{read_sections, section_table, table_end};
use btf_elf_model::{FileHeader, ParseError, SectionHeader, Symbol};
use std::alloc::Global;
use std::marker::Model;

/// A 64-bit ELF object file of either byte order and any machine. It borrows the bytes of the file, and allocates
/// memory only for the section headers.
#[derive(Debug, Drop)]
pub struct Object<'a> {
    bytes: &'a [u8],
    header: FileHeader,
    sections: Vec<SectionHeader>,
    names: &'a [u8],
    symbols: SymbolTable<'a>,
}

impl<'a> Model for Object<'a> {
    ghost use Rattle.btf_elf_model.specs.Object as model;

    ghost Value = { model.Object };

    ghost use Rattle.btf_elf.specs.Whole.{as_object, IsWholeObject};

    ghost view = { as_object };

    ghost invariant = { IsWholeObject };
}

impl<'a> Object<'a> {
    /// The object that the bytes of a file represent.
    ///
    /// Fails with `Parse` and the first error of the bytes, in the order of `ParseError`, or with `OutOfMemory`.
    pub fn parse(alloc: Global, bytes: &'a [u8]) -> Result<Object<'a>, ObjectError>
        ensures { MatchResult result (model.IsObject bytes.now) (IsElfError bytes.now) }
    {
        let header = read_header(bytes)?;
        check_header(&header)?;
        let table = section_table(bytes, &header)?;
        let sections = read_sections(alloc, table, header.order)?;
        let headers = sections.as_slice();
        check_sections(bytes, &header, table_end(&header, table), headers)?;
        let names = read_names(bytes, &header, headers)?;
        let symbols = read_symbols(bytes, headers)?;
        check_symbols(&symbols, header.order)?;
        Ok(Object {
            bytes,
            header,
            sections,
            names,
            symbols,
        })
    }

    /// The bytes of the file.
    pub fn bytes(&self) -> &'a [u8]
        ensures value { result.now ≡ self.now.bytes }
        ensures object { model.IsObject result.now self.now }
    {
        self.bytes
    }

    /// The words of the file header.
    pub fn header(&self) -> &FileHeader
        ensures { result.now ≡ self.now.header }
    {
        &self.header
    }

    /// The headers of all sections, by their indices. According to the gABI, section 0 has no bytes in the file, but
    /// this is not checked.
    pub fn sections(&self) -> &[SectionHeader]
        ensures { result.now ≡ self.now.sections }
    {
        self.sections.as_slice()
    }

    /// The bytes of a section in the file; empty for a section of type `SHT_NULL` or `SHT_NOBITS`.
    pub fn section_bytes(&self, section: &SectionHeader) -> &'a [u8]
        ensures { result.now ≡ model.section_bytes self.now section.now }
    {
        contents(self.bytes, section)
    }

    /// The name of a section: bytes without a zero byte, which need not be UTF-8. Empty if the file has no table of
    /// section names.
    pub fn section_name(&self, section: &SectionHeader) -> &'a [u8]
        ensures { result.now ≡ model.section_name self.now section.now }
    {
        name_at(self.names, section.name)
    }

    /// The name of a section; None if it has `limit` bytes or more. Reads at most `limit` bytes of it.
    pub fn short_section_name(&self, section: &SectionHeader, limit: usize) -> Option<&'a [u8]>
        ensures some { IfSome result (λ name.
            (name.now ≡ model.section_name self.now section.now) × (length name.now < limit)) }
        ensures none { IfNone result (limit ≤ length (model.section_name self.now section.now)) }
    {
        short_name(self.names, section.name, limit)
    }

    /// The index of the first section with this name.
    pub fn section_by_name(&self, name: &[u8]) -> Option<usize>
        ensures first { result ≡ position (λ s. bytes_eq (model.section_name self.now s) name.now)
            self.now.sections }
        ensures within { IfSome result (λ index. index < length self.now.sections) }
    {
        let names = self.names;
        self.sections
            .iter()
            .position(|s| has_name(names, s.name, name))
    }

    /// The number of symbols.
    pub fn symbol_count(&self) -> usize
        ensures { result ≡ length (model.symbols self.now) }
    {
        self.symbols.entries.len()
    }

    /// The symbol of an index; None if there is no such symbol.
    pub fn symbol(&self, index: usize) -> Option<Symbol>
        ensures { result ≡ slice_get (model.symbols self.now) index }
    {
        let entry = self.symbols.entries.get(index)?;
        Some(symbol(entry, self.header.order))
    }

    /// The name of a symbol: bytes without a zero byte, which need not be UTF-8.
    pub fn symbol_name(&self, symbol: &Symbol) -> &'a [u8]
        ensures { result.now ≡ model.symbol_name self.now symbol.now }
    {
        name_at(self.symbols.names, symbol.name)
    }

    /// The name of a symbol; None if it has `limit` bytes or more. Reads at most `limit` bytes of it.
    pub fn short_symbol_name(&self, symbol: &Symbol, limit: usize) -> Option<&'a [u8]>
        ensures some { IfSome result (λ name.
            (name.now ≡ model.symbol_name self.now symbol.now) × (length name.now < limit)) }
        ensures none { IfNone result (limit ≤ length (model.symbol_name self.now symbol.now)) }
    {
        short_name(self.symbols.names, symbol.name, limit)
    }

    /// The header of a section whose bytes can be replaced.
    fn replaceable(&self, index: usize) -> Result<SectionHeader, ReplaceError>
        ensures { FindsReplaceable self.now index result }
    {
        let Some(section) = self.sections.get(index) else {
            return Err(ReplaceError::NoSuchSection { index });
        };
        if !is_replaceable(index, section) {
            return Err(ReplaceError::NotReplaceable { index });
        }
        Ok(*section)
    }

    /// The offset for `len` bytes of a section: the offset of the section if they fit there, else the aligned end of
    /// the file.
    #[tactic(auto, unfolding(btf_elf_model::specs::Replaced::place))]
    fn place(&self, index: usize, section: &SectionHeader, len: u64) -> u64
        requires { index < length self.now.sections }
        ensures { result ≡ place self.now index section.now len }
    {
        if fits(self.sections.as_slice(), index, section, len) {
            section.offset
        } else {
            aligned_end(self.bytes.len(), section)
        }
    }

    /// The file with other bytes in a section. The new bytes replace the old ones in their place if there are at most
    /// as many, and if no other section shares this place. Otherwise they are at the end of the file, at a multiple of
    /// `sh_addralign`, but of at most 4096, with zeros before them. In the header of the section only `sh_offset` and
    /// `sh_size` change. The new file is an object in which the section has these bytes; all other sections, symbols
    /// and names are unchanged. Bytes that belong to no section any more remain in the file.
    ///
    /// Fails with `NoSuchSection`, `NotReplaceable` or `OutOfMemory`, tested in this order.
    pub fn with_section(
        &self,
        alloc: Global,
        index: usize,
        given: &[u8],
    ) -> Result<Vec<u8>, ReplaceError>
        ensures ok { IfOk result (λ file. HasReplaced self.now index given.now file.items) }
        ensures refused { IsSome (replace_error self.now index)
            → IsErrAnd result (λ e. replace_error self.now index ≡ Some e) }
        ensures only { IfErr result (λ e. (replace_error self.now index ≡ Some e)
            ⊎ (e ≡ ReplaceError.OutOfMemory)) }
    {
        let section = self.replaceable(index)?;
        let offset = self.place(index, &section, given.len() as u64);
        if offset.checked_add(given.len() as u64).is_none() {
            return Err(ReplaceError::OutOfMemory);
        }
        let file = write_replaced(alloc, &self.header, self.bytes, index, offset, given)?;
        Ok(file)
    }
}
