//! The texts of errors.

ghost use Rattle.std.specs.Prelude.{◌≡◌, ◌≢◌, ◌⊎◌, ◌<◌, ◌≤◌};
ghost use Rattle.vbtf.specs.Status.{WritesText, no_memory, IsNoError};

use crate::fault::{Fault, INVALID_ARGUMENT, OUT_OF_MEMORY};
use crate::refused::{RELOCATION_REFUSED, error_at};
use crate::write::fill;
use btf::BtfError;
use std::alloc::{AllocError, Global};

/// The library's text of an error, in UTF-8, without a zero byte at the end. It has as much of a name as the error has.
/// The error of a relocation record has number 107, and the text of the `RelocationError` at the position `id`, whose
/// field is `section_len`.
///
/// Status 100 if the buffer is too small (it is then unchanged); 20 if an allocation fails; 102 if the
/// number is that of no error of the library, or the position that of no `RelocationError`.
#[unsafe(no_mangle)]
pub extern "C" fn vbtf_raw_error_text(
    alloc: Global,
    fault: &Fault,
    out: &mut [u8],
    needed: &mut u64,
) -> u32
    ensures text { 1 ≤ fault.now.number → fault.now.number ≤ no_memory
        → WritesText out.old out.new needed.new result }
    ensures relocation { fault.now.number ≡ 107 → 1 ≤ fault.now.id → fault.now.id ≤ 30
        → WritesText out.old out.new needed.new result }
    ensures no_relocation { fault.now.number ≡ 107 → (fault.now.id < 1) ⊎ (30 < fault.now.id)
        → (result ≡ INVALID_ARGUMENT) × (out.new ≡ out.old) }
    ensures no_error { IsNoError fault.now.number → fault.now.number ≢ 107
        → (result ≡ INVALID_ARGUMENT) × (out.new ≡ out.old) }
{
    match fault.number {
        1..=OUT_OF_MEMORY => write(text_of(alloc, fault), out, needed),
        RELOCATION_REFUSED => match error_at(fault.id, field_of(fault)) {
            Some(error) => write(error.to_string(alloc), out, needed),
            None => INVALID_ARGUMENT,
        },
        _ => INVALID_ARGUMENT,
    }
}

/// Writes a text to a buffer if there is one.
fn write(text: Result<String, AllocError>, out: &mut [u8], needed: &mut u64) -> u32
    ensures { WritesText out.old out.new needed.new result }
{
    match text {
        Ok(text) => fill(text.as_bytes(), out, needed),
        Err(_) => OUT_OF_MEMORY,
    }
}

/// The field of the error of a relocation record. A fault of the library has one of 32 bits.
fn field_of(fault: &Fault) -> u32 {
    u32::try_from(fault.section_len).unwrap_or(u32::MAX)
}

/// The text of the error that a fault describes.
fn text_of(alloc: Global, fault: &Fault) -> Result<String, AllocError> {
    let name = String::from_utf8_lossy(alloc, name_of(fault))?;
    error_of(fault, name).to_string(alloc)
}

/// The bytes of a name that a fault has.
fn name_of(fault: &Fault) -> &[u8] {
    let len = fault.name_len as usize;
    fault.name.get(..len).unwrap_or(&[])
}

/// The error of a fault's number, with the fault's fields.
fn error_of(fault: &Fault, name: String) -> BtfError {
    let id = fault.id;
    let (offset, len) = (fault.offset as usize, fault.len as usize);
    let section_len = fault.section_len as usize;
    match fault.number {
        1 => BtfError::InvalidHeader,
        2 => BtfError::InvalidTypeInfo,
        3 => BtfError::InvalidRelocationInfo,
        4 => BtfError::InvalidTypeKind { kind: id },
        5 => BtfError::InvalidRelocationKind { kind: id },
        6 => BtfError::InvalidStringOffset { offset },
        7 => BtfError::InvalidInfo {
            offset,
            len,
            section_len,
        },
        8 => BtfError::InvalidLineInfo {
            offset,
            len,
            section_len,
        },
        9 => BtfError::UnknownBtfType { type_id: id },
        10 => BtfError::UnexpectedBtfType { type_id: id },
        11 => BtfError::UnknownBtfTypeName { type_name: name },
        12 => BtfError::MaximumTypeDepthReached { type_id: id },
        13 => BtfError::SymbolOffsetNotFound { symbol_name: name },
        14 => BtfError::InvalidDatasec,
        15 => BtfError::UnknownSectionSize { section_name: name },
        16 => BtfError::InvalidSymbolName,
        17 => BtfError::InnerMapCannotBePinned { name },
        18 => BtfError::MultiLevelMapInMapNotSupported { name },
        19 => BtfError::InvalidValuesSpec { name },
        _ => BtfError::OutOfMemory,
    }
}
