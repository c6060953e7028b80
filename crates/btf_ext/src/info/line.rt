//! Line records.

ghost use Rattle.std.specs.Prelude.{◌≡◌, length, map, Ok};
ghost use Rattle.btf_model.specs.Ext.{little_bytes, no_records};
ghost use Rattle.btf_plain.specs.Error.{IsOrNoMemory};
ghost use Rattle.btf_ext.specs.Info.{line_words, line_records};

use crate::info::by_section::{BySection, SectionRecords};
use crate::records::{INSTRUCTION_LEN, Record, read_records};
use crate::sections::SecInfo;
use crate::words::{four_words, push_little};
use btf_plain::{BtfError, Endianness};
use std::alloc::{AllocError, Global};
use std::hash::{BuildHasherDefault, FoldHasher};

/// The number of bytes of a written line record.
const LINE_LEN: usize = 16;

/// The line of source that an instruction comes from (the kernel's documentation, ".BTF.ext section",
/// `struct bpf_line_info`).
#[derive(Copy, Clone, Debug)]
#[allow(non_camel_case_types)]
pub struct bpf_line_info {
    /// The offset of the instruction in its section, in instructions.
    pub insn_off: u32,
    /// The string offset of the name of the file.
    pub file_name_off: u32,
    /// The string offset of the line.
    pub line_off: u32,
    /// The number of the line in the high 22 bits, and the column in the low 10.
    pub line_col: u32,
}

impl Record for bpf_line_info {
    ghost use Rattle.btf_model.specs.Ext.{in_instructions};
    ghost use Rattle.btf_ext.specs.Info.{line_words};

    ghost width = { 4 };

    ghost words = { line_words };

    ghost read_as = { in_instructions };

    fn read(bytes: &[u8], endianness: Endianness) -> Self {
        let [offset, file_name_off, line_off, line_col] = four_words(bytes, endianness);
        Self {
            insn_off: offset / INSTRUCTION_LEN,
            file_name_off,
            line_off,
            line_col,
        }
    }
}

/// The line records of one section of a program.
#[derive(Debug, Drop)]
pub struct LineSecInfo {
    /// The number of records.
    pub num_info: u32,
    /// The records.
    pub line_info: Vec<bpf_line_info>,
}

impl LineSecInfo {
    /// No records, without an allocation.
    pub fn new(alloc: Global) -> Self
        ensures { line_records result ≡ no_records }
    {
        Self {
            num_info: 0,
            line_info: Vec::new(alloc),
        }
    }

    /// The number of records in the list.
    pub fn len(&self) -> usize
        ensures { result ≡ length self.now.line_info.items }
    {
        self.line_info.len()
    }

    /// The words of the records in little-endian order. `OutOfMemory` is the only error.
    pub fn line_info_bytes(&self) -> Result<Vec<u8>, BtfError>
        ensures { IsOrNoMemory (λ v. v.items) result
            (Ok (little_bytes (map line_words self.now.line_info.items))) }
    {
        let len = self.line_info.len().saturating_mul(LINE_LEN);
        let mut out = Vec::with_capacity(*self.line_info.allocator(), len)?;
        for record in &self.line_info {
            let words = [
                record.insn_off,
                record.file_name_off,
                record.line_off,
                record.line_col,
            ];
            push_little(&mut out, &words)?;
        }
        Ok(out)
    }

    /// Equal records. `OutOfMemory` is the only error.
    pub fn try_clone(&self) -> Result<Self, BtfError>
        ensures { IsOrNoMemory line_records result (Ok (line_records self.now)) }
    {
        Ok(Self {
            num_info: self.num_info,
            line_info: Vec::from_slice(*self.line_info.allocator(), &self.line_info)?,
        })
    }
}

impl SectionRecords for LineSecInfo {
    ghost use Rattle.btf_ext.specs.Info.{line_records};

    ghost width = { 4 };

    ghost records = { line_records };

    fn empty(alloc: Global) -> Self {
        Self::new(alloc)
    }

    fn read(
        alloc: Global,
        section: &SecInfo<'_>,
        rec_size: usize,
        endianness: Endianness,
    ) -> Result<Self, AllocError> {
        Ok(Self {
            num_info: section.num_info,
            line_info: read_records(alloc, section, rec_size, endianness)?,
        })
    }

    fn copied(&self) -> Result<Self, BtfError> {
        self.try_clone()
    }
}

/// The line records of a program, by the names of its sections.
pub type LineInfo<H = BuildHasherDefault<FoldHasher>> = BySection<LineSecInfo, H>;
