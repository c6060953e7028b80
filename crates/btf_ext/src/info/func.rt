//! Function records.

ghost use Rattle.std.specs.Prelude.{◌≡◌, length, map, Ok};
ghost use Rattle.btf_model.specs.Ext.{little_bytes, no_records};
ghost use Rattle.btf_plain.specs.Error.{IsOrNoMemory};
ghost use Rattle.btf_ext.specs.Info.{func_words, func_records};

use crate::info::by_section::{BySection, SectionRecords};
use crate::records::{INSTRUCTION_LEN, Record, read_records};
use crate::sections::SecInfo;
use crate::words::{push_little, split_word};
use btf_plain::{BtfError, Endianness};
use std::alloc::{AllocError, Global};
use std::hash::{BuildHasherDefault, FoldHasher};

/// The number of bytes of a written function record.
const FUNC_LEN: usize = 8;

/// The first instruction of a function, and its type (the kernel's documentation, ".BTF.ext section",
/// `struct bpf_func_info`).
#[derive(Copy, Clone, Debug)]
#[allow(non_camel_case_types)]
pub struct bpf_func_info {
    /// The offset of the function's first instruction in its section, in instructions.
    pub insn_off: u32,
    /// The id of the FUNC.
    pub type_id: u32,
}

impl Record for bpf_func_info {
    ghost use Rattle.btf_model.specs.Ext.{in_instructions};
    ghost use Rattle.btf_ext.specs.Info.{func_words};

    ghost width = { 2 };

    ghost words = { func_words };

    ghost read_as = { in_instructions };

    fn read(bytes: &[u8], endianness: Endianness) -> Self {
        let (offset, rest) = split_word(bytes, endianness);
        let (type_id, _) = split_word(rest, endianness);
        Self {
            insn_off: offset / INSTRUCTION_LEN,
            type_id,
        }
    }
}

/// The function records of one section of a program.
#[derive(Debug, Drop)]
pub struct FuncSecInfo {
    /// The number of records.
    pub num_info: u32,
    /// The records.
    pub func_info: Vec<bpf_func_info>,
}

impl FuncSecInfo {
    /// No records, without an allocation.
    pub fn new(alloc: Global) -> Self
        ensures { func_records result ≡ no_records }
    {
        Self {
            num_info: 0,
            func_info: Vec::new(alloc),
        }
    }

    /// The number of records in the list.
    pub fn len(&self) -> usize
        ensures { result ≡ length self.now.func_info.items }
    {
        self.func_info.len()
    }

    /// The words of the records in little-endian order. `OutOfMemory` is the only error.
    pub fn func_info_bytes(&self) -> Result<Vec<u8>, BtfError>
        ensures { IsOrNoMemory (λ v. v.items) result
            (Ok (little_bytes (map func_words self.now.func_info.items))) }
    {
        let len = self.func_info.len().saturating_mul(FUNC_LEN);
        let mut out = Vec::with_capacity(*self.func_info.allocator(), len)?;
        for record in &self.func_info {
            push_little(&mut out, &[record.insn_off, record.type_id])?;
        }
        Ok(out)
    }

    /// Equal records. `OutOfMemory` is the only error.
    pub fn try_clone(&self) -> Result<Self, BtfError>
        ensures { IsOrNoMemory func_records result (Ok (func_records self.now)) }
    {
        Ok(Self {
            num_info: self.num_info,
            func_info: Vec::from_slice(*self.func_info.allocator(), &self.func_info)?,
        })
    }
}

impl SectionRecords for FuncSecInfo {
    ghost use Rattle.btf_ext.specs.Info.{func_records};

    ghost width = { 2 };

    ghost records = { func_records };

    fn empty(alloc: Global) -> Self {
        Self::new(alloc)
    }

    fn read(
        alloc: Global,
        section: &SecInfo<'_>,
        rec_size: usize,
        endianness: Endianness,
    ) -> Result<Self, AllocError> {
        Ok(Self {
            num_info: section.num_info,
            func_info: read_records(alloc, section, rec_size, endianness)?,
        })
    }

    fn copied(&self) -> Result<Self, BtfError> {
        self.try_clone()
    }
}

/// The function records of a program, by the names of its sections.
pub type FuncInfo<H = BuildHasherDefault<FoldHasher>> = BySection<FuncSecInfo, H>;
