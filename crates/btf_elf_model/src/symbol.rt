//! Symbols.

/// An entry of the symbol table (ELF gABI, "Symbol Table", `Elf64_Sym`).
#[derive(Clone, Copy, Debug, PartialEq, Eq)]
pub struct Symbol {
    /// `st_name`: the offset of the name in the string table of the symbols.
    pub name: u32,
    /// The upper half of `st_info`: `STB_LOCAL` (0), `STB_GLOBAL` (1), `STB_WEAK` (2) or another.
    pub binding: u8,
    /// The lower half of `st_info`: `STT_NOTYPE` (0), `STT_OBJECT` (1), `STT_FUNC` (2), `STT_SECTION` (3) or another.
    pub kind: u8,
    /// `st_other`: its two lowest bits are the visibility.
    pub other: u8,
    /// `st_shndx`: the index of the section to which the symbol belongs. `SHN_UNDEF` (0) is for a symbol that is not
    /// defined here. Values from `SHN_LORESERVE` (0xff00) on are no indices, such as `SHN_ABS` (0xfff1), `SHN_COMMON`
    /// (0xfff2), and `SHN_XINDEX` (0xffff). With `SHN_XINDEX` a section of type `SHT_SYMTAB_SHNDX` has the index, which
    /// this crate does not read.
    pub section: u16,
    /// `st_value`: in a relocatable object, the offset in the section.
    pub value: u64,
    /// `st_size`: the size in bytes; 0 if there is none.
    pub size: u64,
}
