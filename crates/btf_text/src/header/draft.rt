//! The output of a header, and the state from declaration to declaration.

use crate::error::TextError;
use crate::header::names::Names;
use crate::header::prefix::{Copier, Prefixes};
use crate::header::task::Task;
use btf_layout::Alignments;
use btf_plain::{BtfError, BtfKind};
use btf_records::BtfType;
use btf_table::Btf;
use std::alloc::Global;
use std::fmt::Write;

/// The number of steps of a header beyond those for the records: parts of declarations, and bit-fields that fill gaps.
/// In C, each type without a name is used once. This limit bounds the output for a hostile table that uses one many
/// times, or has structures with large gaps.
const MORE_STEPS: u64 = 1 << 24;

/// The maximum number of steps for a byte of a record: a member of 12 bytes has at most 32 pointers, arrays and
/// prototypes.
const STEPS_OF_BYTE: u64 = 4;

/// The maximum number of steps of a header for a table.
fn step_limit(table: &Btf) -> u64 {
    let mut bytes = 0u64;
    for btf_type in table.types() {
        bytes = bytes.saturating_add(btf_type.type_info_size() as u64);
    }
    bytes
        .saturating_mul(STEPS_OF_BYTE)
        .saturating_add(MORE_STEPS)
}

/// The name of the compiler's own type of argument lists, which a header cannot declare.
pub const ARGUMENT_LIST: &str = "__builtin_va_list";

/// The size of an argument list on BPF in bytes: it is a pointer.
const ARGUMENT_LIST_SIZE: usize = 8;

/// The end of a member and the beginning of the next line, by the number of tabs. No line has more. A write for both
/// costs less than two.
static LINES: [&str; 14] = [
    ";\n",
    ";\n\t",
    ";\n\t\t",
    ";\n\t\t\t",
    ";\n\t\t\t\t",
    ";\n\t\t\t\t\t",
    ";\n\t\t\t\t\t\t",
    ";\n\t\t\t\t\t\t\t",
    ";\n\t\t\t\t\t\t\t\t",
    ";\n\t\t\t\t\t\t\t\t\t",
    ";\n\t\t\t\t\t\t\t\t\t\t",
    ";\n\t\t\t\t\t\t\t\t\t\t\t",
    ";\n\t\t\t\t\t\t\t\t\t\t\t\t",
    ";\n\t\t\t\t\t\t\t\t\t\t\t\t\t",
];

/// The output, and the state from declaration to declaration.
#[derive(Drop)]
pub struct Draft<'a, W> {
    pub table: &'a Btf,
    pub out: Copier<'a, W>,
    pub names: Names,
    pub prefixes: Prefixes,
    /// The parts of a declaration that are written next, the last one first.
    pub tasks: Vec<Task<'a>>,
    /// The pointers, arrays, prototypes and modifiers around the base of a type, the outermost first.
    pub chain: Vec<&'a BtfType>,
    /// Whether the last line is a member, whose semicolon is not written.
    pub is_after_member: bool,
    /// The TYPEDEF of the compiler's type of argument lists, if it is the type of another machine than BPF. The type
    /// that it is for is written in its place.
    pub argument_list: Option<u32>,
    alignments: Alignments,
    steps_left: u64,
}

/// The TYPEDEF of the compiler's type of argument lists, if its size is another one than on BPF.
fn foreign_argument_list(table: &Btf) -> Result<Option<u32>, BtfError> {
    let type_id = match table.id_by_type_name_kind(ARGUMENT_LIST, BtfKind::Typedef) {
        Ok(type_id) => type_id,
        Err(BtfError::OutOfMemory) => return Err(BtfError::OutOfMemory),
        Err(_) => return Ok(None),
    };
    match table.type_size(type_id) {
        Ok(size) if size != ARGUMENT_LIST_SIZE => Ok(Some(type_id)),
        _ => Ok(None),
    }
}

impl<'a, W: Write> Draft<'a, W> {
    /// A draft before the first declaration.
    pub fn new(alloc: Global, table: &'a Btf, out: &'a mut W) -> Result<Draft<'a, W>, TextError> {
        Ok(Draft {
            table,
            out: Copier::new(out),
            names: Names::new(alloc, table)?,
            prefixes: Prefixes::new(alloc)?,
            tasks: Vec::new(alloc),
            chain: Vec::new(alloc),
            is_after_member: false,
            argument_list: foreign_argument_list(table)?,
            alignments: Alignments::of_table(table)?,
            steps_left: step_limit(table),
        })
    }

    /// Counts a step. The error is `TooLong` if there were too many.
    pub fn count_step(&mut self) -> Result<(), TextError> {
        self.count_steps(1)
    }

    /// Counts steps. The error is `TooLong` if there were too many.
    pub fn count_steps(&mut self, steps: u64) -> Result<(), TextError> {
        let Some(left) = self.steps_left.checked_sub(steps) else {
            return Err(TextError::TooLong);
        };
        self.steps_left = left;
        Ok(())
    }

    /// The type that is written in place of a type: the type that the TYPEDEF `argument_list` is for, or the type
    /// itself.
    pub fn in_place_of(&self, type_id: u32) -> u32 {
        if self.argument_list != Some(type_id) {
            return type_id;
        }
        match self.table.type_by_id(type_id) {
            Ok(BtfType::Typedef(t)) => t.btf_type(),
            _ => type_id,
        }
    }

    /// The alignment of a type in bytes; 1 if it has none.
    pub fn alignment_of(&self, type_id: u32) -> u64 {
        match self.alignments.get(type_id) {
            Ok(alignment) => u64::from(alignment),
            Err(_) => 1,
        }
    }

    /// The size of a type in bits; 0 if it has none.
    pub fn bits_of(&self, type_id: u32) -> u64 {
        match self.table.type_size(type_id) {
            Ok(size) => (size as u64).saturating_mul(8),
            Err(_) => 0,
        }
    }

    /// Ends the line of a member, if there is one, and begins a line with tabs.
    pub fn begin_line(&mut self, level: usize) -> Result<(), TextError> {
        let beginning = LINES.get(level).or(LINES.last()).unwrap_or(&";\n");
        let text = if self.is_after_member {
            *beginning
        } else {
            beginning.get(1..).unwrap_or("\n")
        };
        self.is_after_member = false;
        self.out.write_str(text)?;
        Ok(())
    }

    /// Writes the name of a type as an identifier, with its number.
    pub fn write_type_name(&mut self, type_id: u32) -> Result<(), TextError> {
        self.names.write_type(self.table, type_id, &mut self.out)
    }

    /// Writes the name of an INT or a FLOAT.
    pub fn write_number_type(&mut self, type_id: u32) -> Result<(), TextError> {
        self.names
            .write_number_type(self.table, type_id, &mut self.out)
    }

    /// Writes the name of a member or parameter as an identifier.
    pub fn write_name(&mut self, text: &str) -> Result<(), TextError> {
        self.names.write_plain(text, &mut self.out)
    }
}
