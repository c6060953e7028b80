//! The errors of relocation records.

ghost use Rattle.std.specs.Prelude.{◌≡◌, ◌⊎◌, ◌<◌, ◌≤◌};
ghost use Rattle.std.specs.Option.{MatchOption};
ghost use Rattle.vbtf.specs.Relocate.{relocation_place, relocation_detail, ReportsRefused};

use crate::fault::{Fault, write};
use btf_relocate::RelocationError;

/// A relocation record has an error.
pub(crate) const RELOCATION_REFUSED: u32 = 107;

/// Writes the error of a record, with the string offset of its section's name and its index, and returns the status.
pub(crate) fn report_refused(
    error: RelocationError,
    name_offset: u64,
    index: u64,
    fault: &mut Fault,
) -> u32
    ensures { ReportsRefused result fault.new error name_offset index }
{
    let (place, detail) = (error_place(error), error_detail(error));
    write(
        fault,
        RELOCATION_REFUSED,
        place,
        name_offset,
        index,
        u64::from(detail),
    )
}

/// The position of an error in `RelocationError`, from 1 on.
fn error_place(error: RelocationError) -> u32
    ensures { result ≡ relocation_place error }
{
    match error {
        RelocationError::OrderMismatch => 1,
        RelocationError::UnknownKind { .. } => 2,
        RelocationError::UnknownBtfType { .. } => 3,
        RelocationError::InvalidStringOffset { .. } => 4,
        RelocationError::MaximumTypeDepthReached { .. } => 5,
        RelocationError::AnonymousType { .. } => 6,
        RelocationError::BadAccess => 7,
        RelocationError::BadIndex => 8,
        RelocationError::NoSize { .. } => 9,
        RelocationError::BitOffsetTooBig => 10,
        RelocationError::NotForElement => 11,
        RelocationError::BitfieldTooWide => 12,
        RelocationError::BadBitfield { .. } => 13,
        RelocationError::ShiftTooWide => 14,
        RelocationError::TooDeep => 15,
        RelocationError::Ambiguous => 16,
        RelocationError::Misaligned => 17,
        RelocationError::NoInstruction => 18,
        RelocationError::NoSecondSlot => 19,
        RelocationError::NotImmediate => 20,
        RelocationError::WrongImmediate => 21,
        RelocationError::ImmediateOverflow => 22,
        RelocationError::OffsetTooBig => 23,
        RelocationError::WrongAccessSize => 24,
        RelocationError::BadAccessSize => 25,
        RelocationError::BadLdImm64 => 26,
        RelocationError::NotPatchable => 27,
        RelocationError::TooManyCandidates => 28,
        RelocationError::TooManyMembers => 29,
        RelocationError::OutOfMemory => 30,
    }
}

/// The field of an error: a kind, the id of a type, or a string offset; otherwise 0.
fn error_detail(error: RelocationError) -> u32
    ensures { result ≡ relocation_detail error }
{
    match error {
        RelocationError::UnknownKind { kind } => kind,
        RelocationError::InvalidStringOffset { offset } => offset,
        RelocationError::UnknownBtfType { type_id }
        | RelocationError::MaximumTypeDepthReached { type_id }
        | RelocationError::AnonymousType { type_id }
        | RelocationError::NoSize { type_id }
        | RelocationError::BadBitfield { type_id } => type_id,
        _ => 0,
    }
}

/// The error at a position in `RelocationError`, from 1 on, with this field. None if there is no such position.
pub(crate) fn error_at(place: u32, detail: u32) -> Option<RelocationError>
    ensures { MatchOption result ((place < 1) ⊎ (30 < place))
        (λ error. (1 ≤ place) × (place ≤ 30) × (relocation_place error ≡ place)) }
{
    let type_id = detail;
    let error = match place {
        1 => RelocationError::OrderMismatch,
        2 => RelocationError::UnknownKind { kind: detail },
        3 => RelocationError::UnknownBtfType { type_id },
        4 => RelocationError::InvalidStringOffset { offset: detail },
        5 => RelocationError::MaximumTypeDepthReached { type_id },
        6 => RelocationError::AnonymousType { type_id },
        7 => RelocationError::BadAccess,
        8 => RelocationError::BadIndex,
        9 => RelocationError::NoSize { type_id },
        10 => RelocationError::BitOffsetTooBig,
        11 => RelocationError::NotForElement,
        12 => RelocationError::BitfieldTooWide,
        13 => RelocationError::BadBitfield { type_id },
        14 => RelocationError::ShiftTooWide,
        15 => RelocationError::TooDeep,
        16 => RelocationError::Ambiguous,
        17 => RelocationError::Misaligned,
        18 => RelocationError::NoInstruction,
        19 => RelocationError::NoSecondSlot,
        20 => RelocationError::NotImmediate,
        21 => RelocationError::WrongImmediate,
        22 => RelocationError::ImmediateOverflow,
        23 => RelocationError::OffsetTooBig,
        24 => RelocationError::WrongAccessSize,
        25 => RelocationError::BadAccessSize,
        26 => RelocationError::BadLdImm64,
        27 => RelocationError::NotPatchable,
        28 => RelocationError::TooManyCandidates,
        29 => RelocationError::TooManyMembers,
        30 => RelocationError::OutOfMemory,
        _ => return None,
    };
    Some(error)
}
