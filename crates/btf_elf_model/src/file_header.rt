//! The file header.

use btf_model::Endianness;

/// The header of a 64-bit object file (ELF gABI, "ELF Header", `Elf64_Ehdr`): the first 64 bytes of the file, without
/// the magic bytes, the class and the padding.
#[derive(Clone, Copy, Debug, PartialEq, Eq)]
pub struct FileHeader {
    /// `EI_DATA`: the byte order of all words in the file.
    pub order: Endianness,
    /// `EI_OSABI`: whose extensions the file uses; 0 for none.
    pub os_abi: u8,
    /// `EI_ABIVERSION`: the version of that ABI.
    pub abi_version: u8,
    /// `e_type`: 1 for a relocatable object, which a compiler writes.
    pub kind: u16,
    /// `e_machine`: 247 for BPF.
    pub machine: u16,
    /// `e_version`: always 1.
    pub version: u32,
    /// `e_entry`: the address at which the program starts; 0 for none.
    pub entry: u64,
    /// `e_phoff`: the file offset of the program header table; 0 for none.
    pub program_headers: u64,
    /// `e_shoff`: the file offset of the section header table; 0 for none.
    pub section_headers: u64,
    /// `e_flags`: flags of the machine.
    pub flags: u32,
    /// `e_ehsize`: the size of this header in bytes: always 64.
    pub header_size: u16,
    /// `e_phentsize`: the size of a program header in bytes.
    pub program_header_size: u16,
    /// `e_phnum`: the number of program headers.
    pub program_header_count: u16,
    /// `e_shentsize`: the size of a section header in bytes.
    pub section_header_size: u16,
    /// `e_shnum`: the number of section headers; 0 if the header of section 0 has this number.
    pub section_header_count: u16,
    /// `e_shstrndx`: the index of the section with the names of sections; 0 for none, and `SHN_XINDEX` (0xffff) if the
    /// header of section 0 has this index.
    pub section_names: u16,
}
