//! What became of a record, for a reader.

use crate::relocation::spec::{Spec, TypeText};
use btf_relocate::{Change, Patched, Report};
use serde_json::{Value, json};
use std::alloc::{AllocError, Global};
use std::fmt;

/// The field of an instruction that a relocation writes.
#[derive(Clone, Copy)]
enum Field {
    /// There is none.
    Nothing,
    /// The offset of a load or store, or the immediate of an arithmetic instruction.
    Signed(i64),
    /// The immediate of 64 bits.
    Wide(u64),
}

impl Field {
    /// The immediate of these halves.
    fn of_halves(halves: (u32, u32)) -> Field {
        let (low, high) = halves;
        Field::Wide(u64::from(high) << 32 | u64::from(low))
    }

    /// The field of an instruction before and after a relocation.
    fn both(change: Change) -> (Field, Field) {
        match change {
            Change::NoField => (Field::Nothing, Field::Nothing),
            Change::Offset { before, after, .. } => (
                Field::Signed(i64::from(before.cast_signed())),
                Field::Signed(i64::from(after.cast_signed())),
            ),
            Change::Immediate { before, after } => (
                Field::Signed(i64::from(before.cast_signed())),
                Field::Signed(i64::from(after.cast_signed())),
            ),
            Change::Wide { before, after } => (Field::of_halves(before), Field::of_halves(after)),
        }
    }

    /// The field as a JSON number; null if there is none.
    fn value(self) -> Value {
        match self {
            Field::Nothing => Value::Null,
            Field::Signed(field) => Value::from(field),
            Field::Wide(field) => Value::from(field),
        }
    }
}

impl fmt::Display for Field {
    fn fmt<W: fmt::Write>(&self, f: &mut fmt::Formatter<W>) -> fmt::Result {
        match self {
            Field::Nothing => Ok(()),
            Field::Signed(field) => write!(f, "{field}"),
            Field::Wide(field) => write!(f, "{field}"),
        }
    }
}

/// What was done for a record.
#[derive(Clone, Copy)]
pub struct Entry<'a> {
    /// What the record is about.
    pub spec: Spec<'a>,
    /// The type of the target that matches, if one does.
    pub found: Option<TypeText<'a>>,
    /// What was done.
    pub report: Report,
}

impl Entry<'_> {
    /// Whether the record was resolved, and no type of the target matches. After an error it is not known what matches.
    fn finds_nothing(&self) -> bool {
        self.spec.has_target() && self.report.outcome.is_ok()
    }

    /// Writes what the record changed: the field, and the size if it is another one.
    fn write_patch<W: fmt::Write>(&self, f: &mut fmt::Formatter<W>) -> fmt::Result {
        let (before, after) = Field::both(self.report.change);
        write!(f, ": patched {before} -> {after}")?;
        match self.report.change {
            Change::Offset {
                size_before,
                size_after,
                ..
            } if size_before != size_after => write!(f, ", size {size_before} -> {size_after}"),
            _ => Ok(()),
        }
    }

    /// The number of bytes that the load or store reads or writes, before and after; null for other instructions.
    fn sizes(&self) -> (Value, Value) {
        match self.report.change {
            Change::Offset {
                size_before,
                size_after,
                ..
            } => (Value::from(size_before), Value::from(size_after)),
            _ => (Value::Null, Value::Null),
        }
    }

    /// The entry as a JSON object.
    pub fn value(&self, alloc: Global) -> Result<Value, AllocError> {
        let (insn, kind) = (self.spec.instruction(), self.spec.kind_text(alloc)?);
        let about = format!(in alloc; "{}", self.spec)?;
        let outcome = match &self.report.outcome {
            Ok(Patched::Written) => "patched",
            Ok(Patched::Poisoned) => "poisoned",
            Err(_) => "refused",
        };
        let error = match &self.report.outcome {
            Ok(_) => Value::Null,
            Err(error) => Value::String(format!(in alloc; "{error}")?),
        };
        let found = match self.found {
            Some(found) => Value::from(found.id),
            None => Value::Null,
        };
        let (before, after) = Field::both(self.report.change);
        let (size_before, size_after) = self.sizes();
        json!(in alloc; {
            "insn": insn,
            "kind": kind.as_str(),
            "type_id": self.spec.type_id(),
            "local": about.as_str(),
            "target_id": found,
            "outcome": outcome,
            "error": error,
            "before": before.value(),
            "after": after.value(),
            "size_before": size_before,
            "size_after": size_after
        })
    }
}

impl fmt::Display for Entry<'_> {
    fn fmt<W: fmt::Write>(&self, f: &mut fmt::Formatter<W>) -> fmt::Result {
        write!(f, "insn #{}: {}", self.spec.instruction(), self.spec)?;
        match self.found {
            Some(found) => write!(f, " -> {found}")?,
            None if self.finds_nothing() => f.write_str(" -> no match")?,
            None => {}
        }
        match &self.report.outcome {
            Ok(Patched::Written) => self.write_patch(f),
            Ok(Patched::Poisoned) => f.write_str(": poisoned"),
            Err(error) => write!(f, ": {error}"),
        }
    }
}
