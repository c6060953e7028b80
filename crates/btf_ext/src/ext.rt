//! The `.BTF.ext` section: function, line and relocation records of the sections of a program.

ghost use Rattle.std.specs.Prelude.{◌≡◌, map, IfOk, Ok};
ghost use Rattle.btf_model.specs.Ext.{IsExt};
ghost use Rattle.btf_plain.specs.Error.{MeetsOrNoMemory, IsOrNoMemory};
ghost use Rattle.btf_ext.specs.Info.{funcs_by_name, hasher_in, lines_by_name};
ghost use Rattle.btf_ext.specs.Relocation.{relocation};

use crate::header::Header;
use crate::info::{FuncInfo, LineInfo};
use crate::read::{clone_relocations, read_relocations, read_sections};
use btf_plain::{BtfError, Endianness};
use btf_table::{Btf, allocator_of};
use std::hash::{BuildHasher, BuildHasherDefault, FoldHasher};

/// The contents of `.BTF.ext`: function and line records by the names of the program's sections, and relocation
/// records.
#[derive(Debug, Drop)]
pub struct BtfExt<H: BuildHasher = BuildHasherDefault<FoldHasher>> {
    func_info_rec_size: usize,
    func_info: FuncInfo<H>,
    line_info_rec_size: usize,
    line_info: LineInfo<H>,
    relocations: Vec<(u32, Vec<[u32; 4]>)>,
}

impl BtfExt {
    ghost use Rattle.btf_ext.specs.BtfExt.{ext};

    /// Parses the bytes of a `.BTF.ext` section, with words in this byte order. The names of sections are read from the
    /// table. If several sections have the same name, the last one counts. Memory is allocated with the table's
    /// allocator. Magic, version and flags are not checked.
    ///
    /// The first error in this order is returned:
    ///
    /// - `InvalidHeader` for fewer than 8 bytes, or for fewer bytes than the header's length.
    /// - `InvalidInfo` for the first of the ranges of functions, lines and relocations that passes the end of the data,
    ///   or that is not empty and is shorter than a word, or has a record size below 8, 16 and 16. It reports the start
    ///   of the range, its length, and the length of the data.
    /// - For each section in turn, `InvalidInfo` as `SecInfoIter` reports it, and for functions and lines
    ///   `InvalidStringOffset` of a name that can't be read.
    pub fn parse(data: &[u8], endianness: Endianness, btf: &Btf) -> Result<BtfExt, BtfError>
        ensures { MeetsOrNoMemory ext result
            (IsExt endianness «data».now btf.now.strings) }
    {
        BtfExt::parse_with_hasher(data, endianness, btf, BuildHasherDefault::new())
    }
}

impl<H: BuildHasher> BtfExt<H> {
    ghost use Rattle.btf_ext.specs.BtfExt.{ext};

    /// Parses as `BtfExt::parse` does, into maps with this hasher and a clone of it.
    ///
    /// The hasher of `BtfExt::parse` has a fixed seed, so an attacker can choose names that collide; n such names take
    /// time proportional to n squared. For an untrusted section, pass a hasher with random keys, such as `RandomState`.
    pub fn parse_with_hasher(
        data: &[u8],
        endianness: Endianness,
        btf: &Btf,
        hash_builder: H,
    ) -> Result<BtfExt<H>, BtfError>
    where
        H: Clone,
        ensures ext { MeetsOrNoMemory ext result
            (IsExt endianness «data».now btf.now.strings) }
        ensures hashers { IfOk result (λ e. H.is_clone hash_builder (hasher_in e.func_info)
            × (hasher_in e.line_info ≡ hash_builder)) }
    {
        let alloc = allocator_of(btf);
        let header = Header::read(data, endianness)?;
        let func = header.func.read(data, endianness)?;
        let line = header.line.read(data, endianness)?;
        let core = header.core.read(data, endianness)?;
        let func_info = FuncInfo::read(alloc, &func, endianness, btf, hash_builder.clone()?)?;
        let line_info = LineInfo::read(alloc, &line, endianness, btf, hash_builder)?;
        let relocations = read_sections(alloc, &core, endianness)?;
        Ok(BtfExt {
            func_info_rec_size: func.rec_size,
            func_info,
            line_info_rec_size: line.rec_size,
            line_info,
            relocations: read_relocations(alloc, &relocations, core.rec_size, endianness)?,
        })
    }

    /// The function records.
    pub fn func_info(&self) -> &FuncInfo<H>
        ensures { funcs_by_name result.now ≡ (ext self.now).func }
    {
        &self.func_info
    }

    /// The line records.
    pub fn line_info(&self) -> &LineInfo<H>
        ensures { lines_by_name result.now ≡ (ext self.now).line }
    {
        &self.line_info
    }

    /// The size of a function record in bytes; 0 if there are none.
    pub fn func_info_rec_size(&self) -> usize
        ensures { result ≡ (ext self.now).func_size }
    {
        self.func_info_rec_size
    }

    /// The size of a line record in bytes; 0 if there are none.
    pub fn line_info_rec_size(&self) -> usize
        ensures { result ≡ (ext self.now).line_size }
    {
        self.line_info_rec_size
    }

    /// The relocation sections in order, each with the string offset of its name and the first four words of each
    /// record.
    pub fn relocations(&self) -> &[(u32, Vec<[u32; 4]>)]
        ensures { map relocation result.now ≡ (ext self.now).relocations }
    {
        &self.relocations
    }

    /// An equal value. `OutOfMemory` is the only error.
    pub fn try_clone(&self) -> Result<Self, BtfError>
    where
        H: Clone,
        ensures { IsOrNoMemory ext result (Ok (ext self.now)) }
    {
        Ok(Self {
            func_info_rec_size: self.func_info_rec_size,
            func_info: self.func_info.try_clone()?,
            line_info_rec_size: self.line_info_rec_size,
            line_info: self.line_info.try_clone()?,
            relocations: clone_relocations(&self.relocations)?,
        })
    }
}
