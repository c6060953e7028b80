//! The output of a layout, and the state from line to line.

use crate::error::TextError;
use crate::layout::group::Group;
use crate::layout::hole::Pass;
use btf_plain::BtfError;
use btf_table::Btf;
use std::alloc::Global;
use std::collections::BTreeMap;
use std::fmt;
use std::fmt::Write;

/// The number of bytes of a cache line.
pub const CACHE_LINE: u64 = 64;

/// The maximum number of written members of structures without a name. In C, each type without a name is used once.
/// This limit bounds the output for a hostile table that uses one many times.
const NESTED_LIMIT: u32 = 1_000_000;

/// The output, the current line, and the state from line to line.
#[derive(Drop)]
pub struct Page<'a, W> {
    pub alloc: Global,
    pub table: &'a Btf,
    pub out: &'a mut W,
    /// The current line.
    pub line: String,
    /// The cache line of the first byte of the last member.
    cache_line: u64,
    /// The remaining number of members of structures without a name.
    nested_left: u32,
    /// The padding of structures that are members, by id.
    paddings: BTreeMap<u32, u64>,
}

impl<'a, W: Write> Page<'a, W> {
    /// An empty page.
    pub fn new(alloc: Global, table: &'a Btf, out: &'a mut W) -> Page<'a, W> {
        Page {
            alloc,
            table,
            out,
            line: String::new(alloc),
            cache_line: 0,
            nested_left: NESTED_LIMIT,
            paddings: BTreeMap::new(alloc),
        }
    }

    /// Writes the current line, and begins a new one.
    pub fn end_line(&mut self) -> fmt::Result {
        self.out.write_str(self.line.as_str())?;
        self.out.write_str("\n")?;
        self.line.clear();
        Ok(())
    }

    /// Writes tabs.
    pub fn indent(&mut self, count: usize) -> fmt::Result {
        for _ in 0..count {
            self.out.write_str("\t")?;
        }
        Ok(())
    }

    /// Whether this number of members of a structure without a name may be written; if so, it is subtracted from the
    /// remaining number.
    pub fn allows_nested(&mut self, count: usize) -> bool {
        let Ok(count) = u32::try_from(count) else {
            return false;
        };
        match self.nested_left.checked_sub(count) {
            Some(left) => {
                self.nested_left = left;
                true
            }
            None => false,
        }
    }

    /// The cache line of the first byte of the last member, for remarks.
    pub fn cache_line(&self) -> u64 {
        self.cache_line
    }

    /// Sets the cache line of the first byte of the last member.
    pub fn set_cache_line(&mut self, cache_line: u64) {
        self.cache_line = cache_line;
    }

    /// Writes a remark if the member at this byte begins in another cache line than the last one.
    pub fn write_boundary(&mut self, byte: u64, indent: usize) -> fmt::Result {
        let cache_line = byte / CACHE_LINE;
        if cache_line <= self.cache_line {
            return Ok(());
        }
        self.cache_line = cache_line;
        let past = byte % CACHE_LINE;
        let start = byte - past;
        self.indent(indent)?;
        write!(
            self.out,
            "/* --- cacheline {cache_line} boundary ({start} bytes)"
        )?;
        if past > 0 {
            let end = plural(past);
            write!(self.out, " was {past} byte{end} ago")?;
        }
        self.out.write_str(" --- */\n")
    }

    /// The number of bytes of padding at the end of the structure of an id; 0 for other types. It is computed once for
    /// each id.
    pub fn padding_of(&mut self, type_id: u32) -> Result<u64, TextError> {
        if let Some(padding) = self.paddings.get(&type_id) {
            return Ok(*padding);
        }
        let padding = padding(self.table, type_id)?;
        self.paddings.insert(type_id, padding)?;
        Ok(padding)
    }
}

/// The plural ending of a word for this number of things.
pub fn plural(count: u64) -> &'static str {
    if count == 1 { "" } else { "s" }
}

/// The number of bytes of padding at the end of the structure of an id; 0 for other types.
fn padding(table: &Btf, type_id: u32) -> Result<u64, BtfError> {
    let group = match Group::of(table.type_by_id(type_id)?) {
        Some(group) if !group.is_union => group,
        _ => return Ok(0),
    };
    let mut pass = Pass::new(group.bits());
    for (index, member) in group.members.iter().enumerate() {
        let place = group.place(table, index, member)?;
        let _ = pass.step(&place);
    }
    Ok(pass.padding(group.bits()).bytes)
}
