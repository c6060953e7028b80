//! Additions to a table: a string, or a type.

ghost use Rattle.std.specs.Prelude.{◌≡◌, ◌≢◌, ◌<◌, ◌≤◌, OnErr};
ghost use Rattle.std.specs.Str.{IsUtf8};
ghost use Rattle.btf_plain.specs.Error.{MeetsOrNoMemory};
ghost use Rattle.vbtf.specs.Adding.{AddsRecord, EndsAddingType, EndsAdding, EndsAddingText};
ghost use Rattle.vbtf.specs.Orders.{order_named};

use crate::fault::{CLOSED, Fault, INVALID_ARGUMENT, report};
use crate::handle::{Handle, owner};
use crate::orders::order_of;
use crate::taken::take_to_change;
use btf::{Btf, BtfError, BtfType, Endianness};
use std::alloc::Global;

/// Closes the index of the table that a handle owns, and adds a text and a zero byte to its strings.
///
/// Status 6 if the strings would be too long, 20 if an allocation fails, 101 if the handle's state is not 1,
/// and 102 if the text is not UTF-8; the table is then unchanged.
#[unsafe(no_mangle)]
pub extern "C" fn vbtf_raw_add_string(
    alloc: Global,
    table: &mut Handle,
    text: &[u8],
    offset: &mut u32,
    fault: &mut Fault,
) -> u32
    ensures added { EndsAddingText table.old table.new text.now offset.new fault.new result }
    ensures closed { table.old.state ≢ 1 → IsUtf8 text.now
        → (result ≡ CLOSED) × (table.new ≡ table.old) }
    ensures not_utf8 { (IsUtf8 text.now → ⊥)
        → (result ≡ INVALID_ARGUMENT) × (table.new ≡ table.old) }
{
    let Ok(text) = str::from_utf8(text) else {
        return INVALID_ARGUMENT;
    };
    let Some(mut whole) = take_to_change(alloc, table) else {
        return CLOSED;
    };
    let answer = whole.btf.add_string(text);
    *table = owner(whole);
    match answer {
        Ok(place) => {
            *offset = place;
            0
        }
        Err(error) => report(error, fault),
    }
}

/// Closes the index of the table that a handle owns, adds a type to the table, and writes its id. The bytes are its
/// record. `order` is the byte order of the record: 0 for little, 1 for big.
///
/// Status 4 if no kind has the number of the record's kind; 2 if the bytes end before the record does, or the
/// types would be too long; 20 if an allocation fails; 101 if the handle's state is not 1; 102 if bytes follow
/// the record, or the order is another number. The table is then unchanged.
#[unsafe(no_mangle)]
pub extern "C" fn vbtf_raw_add_type(
    alloc: Global,
    table: &mut Handle,
    bytes: &[u8],
    order: u32,
    id: &mut u32,
    fault: &mut Fault,
) -> u32
    ensures added { table.old.state ≡ 1 → order ≤ 1 → EndsAddingType result
        (order_named order) bytes.now table.old table.new id.new fault.new }
    ensures closed { table.old.state ≢ 1 → order ≤ 1 → (result ≡ CLOSED) × (table.new ≡ table.old) }
    ensures order { 1 < order → (result ≡ INVALID_ARGUMENT) × (table.new ≡ table.old) }
{
    let Some(endianness) = order_of(order) else {
        return INVALID_ARGUMENT;
    };
    let Some(mut whole) = take_to_change(alloc, table) else {
        return CLOSED;
    };
    let answer = add_record(alloc, &mut whole.btf, bytes, endianness);
    *table = owner(whole);
    match answer {
        Ok(Some(place)) => {
            *id = place;
            0
        }
        Ok(None) => INVALID_ARGUMENT,
        Err(error) => report(error, fault),
    }
}

/// EndsAdding the type of a record in bytes, and returns its id. Returns None if bytes follow the record.
fn add_record(
    alloc: Global,
    btf: &mut Btf,
    bytes: &[u8],
    endianness: Endianness,
) -> Result<Option<u32>, BtfError>
    ensures added { MeetsOrNoMemory (λ id. id) result
        (AddsRecord endianness bytes.now btf.old btf.new) }
    ensures err { OnErr result (btf.new ≡ btf.old) }
{
    let btf_type = BtfType::read(alloc, bytes, endianness)?;
    if btf_type.type_info_size() != bytes.len() {
        return Ok(None);
    }
    Ok(Some(btf.add_type(btf_type)?))
}
