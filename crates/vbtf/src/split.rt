//! Split tables: the types of a kernel module over those of the kernel, its base.

ghost use Rattle.std.specs.Prelude.{◌≡◌, ◌≢◌, ◌<◌, ◌≤◌, length, Ok};
ghost use Rattle.btf_split_model.specs.Split.{Appends, Joins, cut, split_blob};
ghost use Rattle.vbtf.specs.Orders.{order_chosen};
ghost use Rattle.vbtf.specs.Changing.{EndsChanging, EndsOverBase, OpensOverBase, EndsTruncating, OpensOver, EndsAppending};
ghost use Rattle.vbtf.specs.Status.{EndsFilling, KeepsHandle, Opens, IfLends};

use crate::fault::{CLOSED, Fault, INVALID_ARGUMENT, report};
use crate::handle::{Handle, owner};
use crate::open::box_table;
use crate::orders::choose_order;
use crate::taken::{take_loan, take_to_change};
use crate::write::fill;
use btf::Btf;
use btf_split::{append_split, parse_split, split_bytes, string_len, truncate};
use std::alloc::Global;

/// Opens a handle with the types of a base and those that a blob has over this base: its ids begin after the last id of
/// the base, and its string offsets after the strings of the base. The table has its own copy of the base. `order` is
/// the byte order, as of `vbtf_raw_parse`.
///
/// Status 1, 2 or 4 with the first error, 20 if an allocation fails, 101 if the state of `base` is not 2, and 102 if
/// `table` is not closed or the order is another number; `table` is then unchanged.
#[unsafe(no_mangle)]
pub extern "C" fn vbtf_lent_parse_over(
    alloc: Global,
    base: &mut Handle,
    table: &mut Handle,
    data: &[u8],
    order: u32,
    fault: &mut Fault,
) -> u32
    ensures opened { IfLends base.old (λ b. OpensOver b table.old table.new «data».now order
        fault.new result) }
    // An error means that the bytes are no table over the base.
    ensures only_table { EndsOverBase base.old table.old table.new «data».now order fault.new
        result }
    ensures open { base.old.state ≡ 2 → table.old.state ≢ 0
        → (result ≡ INVALID_ARGUMENT) × (table.new ≡ table.old) }
    ensures order { base.old.state ≡ 2 → 2 < order
        → (result ≡ INVALID_ARGUMENT) × (table.new ≡ table.old) }
    ensures closed { base.old.state ≢ 2 → (result ≡ CLOSED) × (table.new ≡ table.old) }
    ensures kept { KeepsHandle base.old base.new }
{
    let Some(loan) = take_loan(base) else {
        return CLOSED;
    };
    let status = open_over(alloc, &loan.get().btf, table, data, order, fault);
    *base = Handle::from_loan(loan);
    status
}

/// Opens a handle with the types of a base and those of a blob over it.
fn open_over(
    alloc: Global,
    base: &Btf,
    table: &mut Handle,
    data: &[u8],
    order: u32,
    fault: &mut Fault,
) -> u32
    ensures opened { OpensOver base.now table.old table.new «data».now order fault.new result }
    ensures only_table { OpensOverBase base.now table.old table.new «data».now order fault.new
        result }
    ensures open { table.old.state ≢ 0 → (result ≡ INVALID_ARGUMENT) × (table.new ≡ table.old) }
    ensures order { 2 < order → (result ≡ INVALID_ARGUMENT) × (table.new ≡ table.old) }
{
    let Some(endianness) = choose_order(order, data) else {
        return INVALID_ARGUMENT;
    };
    if table.read_state() != 0 {
        return INVALID_ARGUMENT;
    }
    match box_table(alloc, parse_split(alloc, base, data, endianness)) {
        Ok(whole) => {
            *table = owner(whole);
            0
        }
        Err(error) => report(error, fault),
    }
}

/// Writes the blob of the types of a table above a base to a buffer, and its length in bytes to `needed`. The base is
/// the first `base_types` types, including the type of id 0, and the first `base_strings` bytes of the strings:
/// `vbtf_lent_count` and `vbtf_lent_string_len` of the base.
///
/// Status 100 if the buffer is too small (it is then unchanged); 9 if `base_types` is 0 or the table has fewer types;
/// otherwise 6 if the table has fewer bytes of strings; 20 if an allocation fails, and 101 if the handle's state is not
/// 2.
#[unsafe(no_mangle)]
pub extern "C" fn vbtf_lent_split_bytes(
    table: &mut Handle,
    base_types: u32,
    base_strings: u32,
    out: &mut [u8],
    needed: &mut u64,
    fault: &mut Fault,
) -> u32
    ensures written { IfLends table.old (λ t. EndsFilling result out.old out.new needed.new
        fault.new (λ a. a ≡ split_blob base_types base_strings t)) }
    ensures closed { table.old.state ≢ 2 → (result ≡ CLOSED) × (out.new ≡ out.old) }
    ensures kept { KeepsHandle table.old table.new }
{
    let Some(loan) = take_loan(table) else {
        return CLOSED;
    };
    let status = write_above(
        &loan.get().btf,
        base_types,
        base_strings,
        out,
        needed,
        fault,
    );
    *table = Handle::from_loan(loan);
    status
}

/// Writes the blob of the types of a table above a base to a buffer.
fn write_above(
    table: &Btf,
    base_types: u32,
    base_strings: u32,
    out: &mut [u8],
    needed: &mut u64,
    fault: &mut Fault,
) -> u32
    ensures { EndsFilling result out.old out.new needed.new fault.new
        (λ answer. answer ≡ split_blob base_types base_strings table.now) }
{
    match split_bytes(table, base_types, base_strings) {
        Ok(bytes) => fill(&bytes, out, needed),
        Err(error) => report(error, fault),
    }
}

/// The length of a table's strings in bytes.
///
/// Status 101 if the handle's state is not 2.
#[unsafe(no_mangle)]
pub extern "C" fn vbtf_lent_string_len(table: &mut Handle, len: &mut u32) -> u32
    ensures counted { table.old.state ≡ 2
        → (result ≡ 0) × (len.new ≡ length table.old.opened.btf.strings) }
    ensures closed { table.old.state ≢ 2 → result ≡ CLOSED }
    ensures kept { KeepsHandle table.old table.new }
{
    let Some(loan) = take_loan(table) else {
        return CLOSED;
    };
    *len = string_len(&loan.get().btf);
    *table = Handle::from_loan(loan);
    0
}

/// Closes the index of the table that a handle owns, and appends the types and the strings of a split table to the
/// table, which is its base. `order` is the byte order of the data, as of `vbtf_raw_parse`; the table keeps its own.
///
/// Status 1, 2 or 4 with the first error, 20 if an allocation fails, 101 if the handle's state is not 1, and 102 if the
/// order is another number; the table is then unchanged.
#[unsafe(no_mangle)]
pub extern "C" fn vbtf_raw_append_split(
    alloc: Global,
    table: &mut Handle,
    data: &[u8],
    order: u32,
    fault: &mut Fault,
) -> u32
    ensures appended { EndsAppending table.old table.new «data».now order fault.new result }
    ensures closed { table.old.state ≢ 1 → order ≤ 2 → (result ≡ CLOSED) × (table.new ≡ table.old) }
    ensures order { 2 < order → (result ≡ INVALID_ARGUMENT) × (table.new ≡ table.old) }
{
    let Some(data_order) = choose_order(order, data) else {
        return INVALID_ARGUMENT;
    };
    let Some(mut whole) = take_to_change(alloc, table) else {
        return CLOSED;
    };
    let answer = append_split(&mut whole.btf, data, data_order);
    *table = owner(whole);
    match answer {
        Ok(()) => 0,
        Err(error) => report(error, fault),
    }
}

/// Closes the index of the table that a handle owns, and removes all types from the table except the first
/// `base_types`, including the type of id 0, and all bytes of its strings except the first `base_strings`.
///
/// Status 9 if `base_types` is 0 or the table has fewer types; otherwise 6 if the table has fewer bytes of strings; and
/// 101 if the handle's state is not 1. The table is then unchanged.
#[unsafe(no_mangle)]
pub extern "C" fn vbtf_raw_truncate(
    alloc: Global,
    table: &mut Handle,
    base_types: u32,
    base_strings: u32,
    fault: &mut Fault,
) -> u32
    ensures cut { EndsTruncating table.old table.new base_types base_strings fault.new result }
    ensures closed { table.old.state ≢ 1 → (result ≡ CLOSED) × (table.new ≡ table.old) }
{
    let Some(mut whole) = take_to_change(alloc, table) else {
        return CLOSED;
    };
    let answer = truncate(&mut whole.btf, base_types, base_strings);
    *table = owner(whole);
    match answer {
        Ok(()) => 0,
        Err(error) => report(error, fault),
    }
}
