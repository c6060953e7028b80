//! Section headers.

/// The header of a section (ELF gABI, "Sections", `Elf64_Shdr`).
#[derive(Clone, Copy, Debug, PartialEq, Eq)]
pub struct SectionHeader {
    /// `sh_name`: the offset of the name in the table of section names.
    pub name: u32,
    /// `sh_type`: what the section contains, such as `SHT_PROGBITS`.
    pub kind: u32,
    /// `sh_flags`: attributes, such as `SHF_ALLOC`.
    pub flags: u64,
    /// `sh_addr`: the address of the first byte in the memory of a process; 0 for none.
    pub address: u64,
    /// `sh_offset`: the file offset of the first byte.
    pub offset: u64,
    /// `sh_size`: the size in bytes. A section of type `SHT_NOBITS` or `SHT_NULL` has no bytes in the file, whatever
    /// the size is.
    pub size: u64,
    /// `sh_link`: the index of another section; which one depends on the type.
    pub link: u32,
    /// `sh_info`: more information; what it is depends on the type.
    pub info: u32,
    /// `sh_addralign`: the alignment of the address; 0 and 1 are none.
    pub alignment: u64,
    /// `sh_entsize`: the size of an entry in bytes, for a section that is a table; 0 for any other.
    pub entry_size: u64,
}

impl SectionHeader {
    /// `SHT_NULL`: a header without a section.
    pub const NULL: u32 = 0;
    /// `SHT_PROGBITS`: what the program itself defines.
    pub const PROGBITS: u32 = 1;
    /// `SHT_SYMTAB`: a symbol table.
    pub const SYMTAB: u32 = 2;
    /// `SHT_STRTAB`: a string table.
    pub const STRTAB: u32 = 3;
    /// `SHT_NOBITS`: a section of zeros, of which the file has no bytes.
    pub const NOBITS: u32 = 8;
}
