//! Why bytes are refused.

use thiserror::Error;

/// Why bytes are not an object file that this crate reads. The variants are in the order of the tests.
#[derive(Clone, Copy, Debug, PartialEq, Eq, Error)]
pub enum ParseError {
    /// The bytes are shorter than a file header of 64 bytes, or don't begin with the four magic bytes.
    #[error("not an ELF file")]
    NotElf,

    /// `EI_CLASS` is not `ELFCLASS64`.
    #[error("ELF class {class} is not supported: only 64-bit objects are")]
    UnsupportedClass {
        /// The class.
        class: u8,
    },

    /// `EI_DATA` is neither `ELFDATA2LSB` nor `ELFDATA2MSB`.
    #[error("ELF data encoding {encoding} is not supported")]
    UnsupportedEncoding {
        /// The encoding.
        encoding: u8,
    },

    /// `EI_VERSION` or `e_version` is not 1.
    #[error("this version of ELF is not supported")]
    UnsupportedVersion,

    /// `e_ehsize` is not 64, or there are section headers and `e_shentsize` is not 64.
    #[error("the file header states a size of headers that is not 64")]
    BadHeaderSize,

    /// The table of section headers begins in the file header, or ends after the end of the file.
    #[error("the section header table is not in the file")]
    SectionTableOutOfRange,

    /// A section ends after the end of the file.
    #[error("section {index} is not in the file")]
    SectionOutOfRange {
        /// The index of the section.
        index: usize,
    },

    /// A section shares bytes with the file header or the section header table.
    #[error("section {index} overlaps a header")]
    SectionOverHeaders {
        /// The index of the section.
        index: usize,
    },

    /// The section that `e_shstrndx` names doesn't exist, is no string table, or doesn't begin and end with a zero
    /// byte.
    #[error("the table of section names is malformed")]
    BadNameTable,

    /// The name of a section begins after the end of the table of section names.
    #[error("section {index} has a name that is not in the string table")]
    BadSectionName {
        /// The index of the section.
        index: usize,
    },

    /// The symbol table states an entry size other than 24, ends with a part of an entry, or names a string table that
    /// doesn't exist, is no string table, or doesn't begin and end with a zero byte.
    #[error("the symbol table is malformed")]
    BadSymbolTable,

    /// The name of a symbol begins after the end of its string table.
    #[error("symbol {index} has a name that is not in the string table")]
    BadSymbolName {
        /// The index of the symbol.
        index: usize,
    },
}
