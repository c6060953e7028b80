//! The relocation of a section, and the time that it takes.

use crate::work::since;
use btf::Btf;
use btf_relocate::{CandidatePolicy, Target, candidates_of, relocate_section, resolve};
use std::alloc::Global;
use std::test::Fail;
use std::time::Instant;

/// The instruction r1 = 0, whose immediate is in the high half.
const MOVE: u64 = 0x01b7;

/// The table of a program, that of a kernel, and a section of the program: its records, and an instruction for each.
#[derive(Drop)]
pub struct Relocations<'a> {
    local: &'a Btf,
    kernel: &'a Btf,
    records: Vec<[u32; 4]>,
    code: Vec<u8>,
}

/// The words of a record: the offset of its instruction, and the numbers of its line.
fn record(offset: u32, line: &str) -> [u32; 4] {
    let mut words = line.split(' ').map(|it| it.parse().unwrap_or(0));
    [
        offset,
        words.next().unwrap_or(0),
        words.next().unwrap_or(0),
        words.next().unwrap_or(0),
    ]
}

/// The value of a record for the program's own table; 0 if it has none.
fn expected(alloc: Global, local: &Btf, target: &Target<'_>, record: &[u32; 4]) -> u64 {
    let Ok(mut candidates) = candidates_of(alloc, local, target, record[1]) else {
        return 0;
    };
    match resolve(alloc, local, target, record, &mut candidates) {
        Ok(resolved) => resolved.expected,
        Err(_) => 0,
    }
}

impl<'a> Relocations<'a> {
    /// The section of the records of these lines. Each instruction has what a compiler writes: the value for the
    /// program's own table.
    pub fn new(alloc: Global, local: &'a Btf, kernel: &'a Btf, lines: &str) -> Result<Self, Fail> {
        let target = Target::new(alloc, kernel)?;
        let mut records = Vec::new(alloc);
        let mut code = Vec::new(alloc);
        for line in lines.lines() {
            let record = record(u32::try_from(code.len())?, line);
            let value = expected(alloc, local, &target, &record);
            let instruction = (value & 0xffff_ffff) << 32 | MOVE;
            code.extend_from_slice(&instruction.to_le_bytes())?;
            records.push(record)?;
        }
        Ok(Relocations {
            local,
            kernel,
            records,
            code,
        })
    }

    /// The number of records.
    pub fn count(&self) -> u64 {
        self.records.len() as u64
    }

    /// The nanoseconds of one run, in which the kernel's table is indexed and the section relocated.
    pub fn nanoseconds(&self, rt: &HostRuntime) -> Result<u64, Fail> {
        let alloc = rt.alloc();
        let mut code = Vec::from_slice(alloc, &self.code)?;
        let start = Instant::now(rt)?;
        let target = Target::new(alloc, self.kernel)?;
        let outcomes = relocate_section(
            alloc,
            self.local,
            &target,
            &self.records,
            &mut code,
            CandidatePolicy::Shared,
        )?;
        let took = since(rt, start);
        drop(outcomes);
        took
    }
}
