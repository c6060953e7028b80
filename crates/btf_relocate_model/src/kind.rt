//! The kinds of relocations.

ghost use Rattle.std.specs.Prelude.{Some};
ghost use Rattle.btf_relocate_model.specs.Kind.{RelocationKindOf, relocation_kind_text};

use crate::error::RelocationError;
use std::fmt;

/// What a relocation record asks for, numbered as in the kernel's `enum bpf_core_relo_kind`.
#[derive(Copy, Clone, Debug, Eq, PartialEq)]
pub enum RelocationKind {
    /// The offset of a field in bytes.
    FieldByteOffset = 0,
    /// The size of a field in bytes.
    FieldByteSize = 1,
    /// Whether a field exists: 1 or 0.
    FieldExists = 2,
    /// Whether a field is signed: 1 or 0.
    FieldSigned = 3,
    /// The left shift that moves a field to the top of a 64-bit register.
    FieldLShift64 = 4,
    /// The right shift that then moves the field to the bottom of the register.
    FieldRShift64 = 5,
    /// The id of a type in the program's table.
    TypeIdLocal = 6,
    /// The id of a type in the target's table.
    TypeIdTarget = 7,
    /// Whether a type exists: 1 or 0.
    TypeExists = 8,
    /// The size of a type in bytes.
    TypeSize = 9,
    /// Whether an enumerator exists: 1 or 0.
    EnumeratorExists = 10,
    /// The value of an enumerator.
    EnumeratorValue = 11,
    /// Whether a type exists whose definition matches: 1 or 0.
    TypeMatches = 12,
}

impl TryFrom<u32> for RelocationKind {
    type Error = RelocationError;

    ghost try_from_gives = { RelocationKindOf };

    /// The kind of a number. Numbers above 12 are `UnknownKind`.
    fn try_from(number: u32) -> Result<Self, RelocationError> {
        Ok(match number {
            0 => RelocationKind::FieldByteOffset,
            1 => RelocationKind::FieldByteSize,
            2 => RelocationKind::FieldExists,
            3 => RelocationKind::FieldSigned,
            4 => RelocationKind::FieldLShift64,
            5 => RelocationKind::FieldRShift64,
            6 => RelocationKind::TypeIdLocal,
            7 => RelocationKind::TypeIdTarget,
            8 => RelocationKind::TypeExists,
            9 => RelocationKind::TypeSize,
            10 => RelocationKind::EnumeratorExists,
            11 => RelocationKind::EnumeratorValue,
            12 => RelocationKind::TypeMatches,
            kind => return Err(RelocationError::UnknownKind { kind }),
        })
    }
}

impl fmt::Display for RelocationKind {
    ghost output = { λ k. Some (relocation_kind_text k) };

    fn fmt<W: fmt::Write>(&self, f: &mut fmt::Formatter<W>) -> fmt::Result {
        let name = match self {
            RelocationKind::FieldByteOffset => "byte_off",
            RelocationKind::FieldByteSize => "byte_sz",
            RelocationKind::FieldExists => "field_exists",
            RelocationKind::FieldSigned => "signed",
            RelocationKind::FieldLShift64 => "lshift_u64",
            RelocationKind::FieldRShift64 => "rshift_u64",
            RelocationKind::TypeIdLocal => "local_type_id",
            RelocationKind::TypeIdTarget => "target_type_id",
            RelocationKind::TypeExists => "type_exists",
            RelocationKind::TypeSize => "type_size",
            RelocationKind::EnumeratorExists => "enumval_exists",
            RelocationKind::EnumeratorValue => "enumval_value",
            RelocationKind::TypeMatches => "type_matches",
        };
        f.write_str(name)
    }
}
