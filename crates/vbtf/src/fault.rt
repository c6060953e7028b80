//! Statuses, and the details of an error for C.

ghost use Rattle.std.specs.Prelude.{◌≡◌, length, min};
ghost use Rattle.btf_plain.specs.Error.{refusal_of};
ghost use Rattle.vbtf.specs.Status.{ReportsError, HasDetails, no_details, a_name, name_room};

use btf::BtfError;

/// An allocation failed.
pub(crate) const OUT_OF_MEMORY: u32 = 20;

/// The buffer is too small.
pub(crate) const NO_ROOM: u32 = 100;

/// The handle does not have the state that the call needs.
pub(crate) const CLOSED: u32 = 101;

/// An argument is invalid, such as a byte order of 2 or a text that is not UTF-8.
pub(crate) const INVALID_ARGUMENT: u32 = 102;

/// The type has no item of an index, or no variant of a name.
pub(crate) const NO_ITEM: u32 = 103;

/// The maximum number of bytes of a name in a fault.
pub(crate) const NAME_ROOM: usize = 255;

/// The details of an error. Fields that the error does not have are zero.
#[repr(C)]
#[derive(Drop)]
pub struct Fault {
    /// The status.
    pub number: u32,
    /// The id of a type, or the number of a kind.
    pub id: u32,
    /// An offset in bytes.
    pub offset: u64,
    /// A length in bytes.
    pub len: u64,
    /// The length of a section in bytes.
    pub section_len: u64,
    /// The number of bytes in `name`.
    pub name_len: u32,
    /// The first bytes of a name.
    pub name: [u8; 255],
}

/// Writes a status without a name.
pub(crate) fn write(
    fault: &mut Fault,
    number: u32,
    id: u32,
    offset: u64,
    len: u64,
    section_len: u64,
) -> u32
    ensures status { result ≡ number }
    ensures number { fault.new.number ≡ number }
    ensures details { HasDetails fault.new
        (record no_details { id = id; offset = offset; len = len; section_len = section_len }) }
{
    fault.number = number;
    fault.id = id;
    fault.offset = offset;
    fault.len = len;
    fault.section_len = section_len;
    fault.name_len = 0;
    number
}

/// Writes a status that is no error of `btf`, with a number and an offset.
pub(crate) fn report_number(fault: &mut Fault, number: u32, id: u32, offset: u64) -> u32
    ensures status { result ≡ number }
    ensures number { fault.new.number ≡ number }
    ensures details { HasDetails fault.new (record no_details { id = id; offset = offset }) }
{
    write(fault, number, id, offset, 0, 0)
}

/// The number of bytes of a name that fit in a fault.
fn name_len(name: &[u8]) -> usize
    ensures { result ≡ min name_room (length name.now) }
{
    if name.len() < NAME_ROOM {
        name.len()
    } else {
        NAME_ROOM
    }
}

/// Writes a status with the beginning of a name.
fn write_name(fault: &mut Fault, number: u32, name: &str) -> u32
    ensures status { result ≡ number }
    ensures number { fault.new.number ≡ number }
    ensures details { HasDetails fault.new (a_name name.now) }
{
    write(fault, number, 0, 0, 0, 0);
    let bytes = name.as_bytes();
    let len = name_len(bytes);
    fault.name[..len].copy_from_slice(&bytes[..len]);
    fault.name_len = len as u32;
    number
}

/// Writes the details of an error, and returns its status: its position among the errors, from 1 on.
pub(crate) fn report(error: BtfError, fault: &mut Fault) -> u32
    ensures { ReportsError result fault.new (refusal_of error) }
{
    match error {
        BtfError::InvalidHeader => write(fault, 1, 0, 0, 0, 0),
        BtfError::InvalidTypeInfo => write(fault, 2, 0, 0, 0, 0),
        BtfError::InvalidRelocationInfo => write(fault, 3, 0, 0, 0, 0),
        BtfError::InvalidTypeKind { kind } => write(fault, 4, kind, 0, 0, 0),
        BtfError::InvalidRelocationKind { kind } => write(fault, 5, kind, 0, 0, 0),
        BtfError::InvalidStringOffset { offset } => write(fault, 6, 0, offset as u64, 0, 0),
        BtfError::InvalidInfo {
            offset,
            len,
            section_len,
        } => write(fault, 7, 0, offset as u64, len as u64, section_len as u64),
        BtfError::InvalidLineInfo {
            offset,
            len,
            section_len,
        } => write(fault, 8, 0, offset as u64, len as u64, section_len as u64),
        BtfError::UnknownBtfType { type_id } => write(fault, 9, type_id, 0, 0, 0),
        BtfError::UnexpectedBtfType { type_id } => write(fault, 10, type_id, 0, 0, 0),
        BtfError::UnknownBtfTypeName { type_name } => write_name(fault, 11, &type_name),
        BtfError::MaximumTypeDepthReached { type_id } => write(fault, 12, type_id, 0, 0, 0),
        BtfError::SymbolOffsetNotFound { symbol_name } => write_name(fault, 13, &symbol_name),
        BtfError::InvalidDatasec => write(fault, 14, 0, 0, 0, 0),
        BtfError::UnknownSectionSize { section_name } => write_name(fault, 15, &section_name),
        BtfError::InvalidSymbolName => write(fault, 16, 0, 0, 0, 0),
        BtfError::InnerMapCannotBePinned { name } => write_name(fault, 17, &name),
        BtfError::MultiLevelMapInMapNotSupported { name } => write_name(fault, 18, &name),
        BtfError::InvalidValuesSpec { name } => write_name(fault, 19, &name),
        BtfError::OutOfMemory => write(fault, 20, 0, 0, 0, 0),
    }
}
