//! Many values of a table in one call.

ghost use Rattle.std.specs.Prelude.{◌≡◌, ◌≢◌, ◌<◌, ◌+◌, ◌-◌, ◌^◌, length, take, drop, map, min};
ghost use Rattle.btf_records.specs.BtfType.{record_of};
ghost use Rattle.btf_view.specs.Many.{FillsResolved, FillsSizes, ResolvedOrMost, SizeOrMost};
ghost use Rattle.btf_view.specs.Forms.{Begins, words_in, ListsTypes};
ghost use Rattle.vbtf.specs.Status.{KeepsHandle, IfLends};

use crate::fault::CLOSED;
use crate::handle::Handle;
use crate::read::words;
use crate::taken::take_loan;
use btf::{Btf, BtfType};
use btf_table::type_count;
use btf_view::TypeWords;

/// Writes the first words of the types from an id on, in the order of the ids, to a buffer: as many as there are and as
/// fit. The number of types that are written goes to `count`; it is 0 if no type has the id.
///
/// Status 101 if the handle's state is not 2; the buffer is then unchanged.
#[unsafe(no_mangle)]
pub extern "C" fn vbtf_lent_types(
    table: &mut Handle,
    first: u32,
    out: &mut [TypeWords],
    count: &mut u64,
) -> u32
    ensures filled { IfLends table.old (λ t. (result ≡ 0)
        × ListsTypes t.records first out.old out.new count.new) }
    ensures closed { table.old.state ≢ 2 → (result ≡ CLOSED) × (out.new ≡ out.old) }
    ensures kept { KeepsHandle table.old table.new }
{
    let Some(loan) = take_loan(table) else {
        return CLOSED;
    };
    *count = fill_types(&loan.get().btf, first, out);
    *table = Handle::from_loan(loan);
    0
}

/// Writes the first words of the types from an id on, as many as fit, and returns their number.
fn fill_types(table: &Btf, first: u32, out: &mut [TypeWords]) -> u64
    ensures { ListsTypes table.now.records first out.old out.new result }
{
    let types = table.types().as_slice();
    match types.get(first as usize..) {
        Some(rest) => fill_words(rest, out) as u64,
        None => 0,
    }
}

/// Writes the first words of types, as many as fit, and returns their number.
fn fill_words(types: &[BtfType], out: &mut [TypeWords]) -> usize
    ensures { Begins (take (length out.old) (map words_in (map record_of types.now)))
        out.old out.new result }
{
    let count = out.len().min(types.len());
    for index in 0..count {
        out[index] = words(&types[index]);
    }
    count
}

/// Writes the sizes in bytes of the types from an id on, in the order of the ids, to a buffer: as many as there are
/// types and as fit. Their number goes to `count`; it is 0 if no type has the id. A type for which `vbtf_lent_size`
/// returns an error has 2^64 - 1.
///
/// Status 101 if the handle's state is not 2; the buffer is then unchanged.
#[unsafe(no_mangle)]
pub extern "C" fn vbtf_lent_sizes(
    table: &mut Handle,
    first: u32,
    out: &mut [u64],
    count: &mut u64,
) -> u32
    ensures filled { table.old.state ≡ 2 → (result ≡ 0)
        × FillsSizes table.old.opened.btf.records first out.old out.new count.new }
    ensures closed { table.old.state ≢ 2 → (result ≡ CLOSED) × (out.new ≡ out.old) }
    ensures kept { KeepsHandle table.old table.new }
{
    let Some(loan) = take_loan(table) else {
        return CLOSED;
    };
    *count = fill_sizes(&loan.get().btf, first, out) as u64;
    *table = Handle::from_loan(loan);
    0
}

/// Writes the sizes of the types from an id on, as many as fit, and returns their number.
fn fill_sizes(table: &Btf, first: u32, out: &mut [u64]) -> usize
    ensures { FillsSizes table.now.records first out.old out.new result }
{
    let count = places_from(table, first, out.len());
    for index in 0..count {
        out[index] = size_or_most(table, first + index as u32);
    }
    count
}

/// The number of types from an id on, as many as fit in this room.
pub(crate) fn places_from(table: &Btf, first: u32, room: usize) -> usize
    ensures places { result ≡ min room (length table.now.records - first) }
    ensures ids { first + result < 2 ^ 32 }
{
    let count = type_count(table).saturating_sub(first);
    room.min(count as usize)
}

/// The size of a type in bytes, or 2^64 - 1 if it has none.
fn size_or_most(table: &Btf, id: u32) -> u64
    ensures { SizeOrMost table.now.records id result }
{
    let Ok(size) = table.type_size(id) else {
        return u64::MAX;
    };
    size as u64
}

/// Writes the ids that the ids from one on resolve to, in their order, to a buffer: as many as there are types and as
/// fit. Their number goes to `count`; it is 0 if no type has the id. An id for which `vbtf_lent_resolve` returns an
/// error has 2^32 - 1.
///
/// Status 101 if the handle's state is not 2; the buffer is then unchanged.
#[unsafe(no_mangle)]
pub extern "C" fn vbtf_lent_resolved(
    table: &mut Handle,
    first: u32,
    out: &mut [u32],
    count: &mut u64,
) -> u32
    ensures filled { table.old.state ≡ 2 → (result ≡ 0)
        × FillsResolved table.old.opened.btf.records first out.old out.new count.new }
    ensures closed { table.old.state ≢ 2 → (result ≡ CLOSED) × (out.new ≡ out.old) }
    ensures kept { KeepsHandle table.old table.new }
{
    let Some(loan) = take_loan(table) else {
        return CLOSED;
    };
    *count = fill_resolved(&loan.get().btf, first, out) as u64;
    *table = Handle::from_loan(loan);
    0
}

/// Writes what the ids from one on resolve to, as many as fit, and returns their number.
fn fill_resolved(table: &Btf, first: u32, out: &mut [u32]) -> usize
    ensures { FillsResolved table.now.records first out.old out.new result }
{
    let count = places_from(table, first, out.len());
    for index in 0..count {
        out[index] = resolved_or_most(table, first + index as u32);
    }
    count
}

/// The id that an id resolves to, or 2^32 - 1 if it resolves to none.
fn resolved_or_most(table: &Btf, id: u32) -> u32
    ensures { ResolvedOrMost table.now.records id result }
{
    let Ok(to) = table.resolve_type(id) else {
        return u32::MAX;
    };
    to
}
