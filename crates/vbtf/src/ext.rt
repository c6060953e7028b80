//! The `.BTF.ext` that is opened over a table.

ghost use Rattle.std.specs.Prelude.{◌≡◌, ◌≢◌, ◌<◌, ◌≤◌, Some, None, OnErr};
ghost use Rattle.std.specs.Option.{MatchOption};
ghost use Rattle.btf_plain.specs.Error.{MeetsOrNoMemory};
ghost use Rattle.vbtf.specs.Ext.{OpenedExt, ExtChangedTo, AddsExt, EndsOpeningExt, HasSizes};
ghost use Rattle.vbtf.specs.Orders.{order_chosen};
ghost use Rattle.vbtf.specs.Status.{KeepsHandle};

use crate::fault::{CLOSED, Fault, INVALID_ARGUMENT, report};
use crate::handle::{Handle, owner};
use crate::opened::Opened;
use crate::orders::choose_order;
use crate::seed::Keys;
use crate::taken::{take_loan, take_table};
use btf::{BtfError, BtfExt, Endianness};
use std::alloc::Global;

/// The lengths of the records of `.BTF.ext` in bytes, and the numbers of sections that have records.
#[repr(C)]
#[derive(Drop)]
pub struct ExtSizes {
    /// The length of a function record in the section; 0 if there are none.
    pub func_size: u64,
    /// The length of a line record in the section; 0 if there are none.
    pub line_size: u64,
    /// The number of section names with function records.
    pub func_sections: u64,
    /// The number of section names with line records.
    pub line_sections: u64,
    /// The number of sections of relocation records.
    pub relocation_sections: u64,
}

/// Opens a `.BTF.ext` over the table that a handle owns; the names of its sections are read from the table. `order` is
/// the byte order: 0 for little, 1 for big, 2 for the order of the magic. `seed` is a random number from which the keys
/// of the maps' hasher are derived. An attacker who knows it can choose names of sections that collide.
///
/// Status 1, 6 or 7 with the first error, 20 if an allocation fails, 101 if the handle's state is not
/// 1, and 102 if the table has a `.BTF.ext` already, or the order is another number. The handle is
/// then unchanged.
#[unsafe(no_mangle)]
pub extern "C" fn vbtf_raw_open_ext(
    alloc: Global,
    table: &mut Handle,
    data: &[u8],
    order: u32,
    seed: u64,
    fault: &mut Fault,
) -> u32
    ensures opened { table.old.state ≡ 1 → order ≤ 2 → EndsOpeningExt result
        (order_chosen order «data».now) «data».now table.old table.new fault.new }
    ensures closed { table.old.state ≢ 1 → order ≤ 2 → (result ≡ CLOSED) × (table.new ≡ table.old) }
    ensures order { 2 < order → (result ≡ INVALID_ARGUMENT) × (table.new ≡ table.old) }
{
    let Some(endianness) = choose_order(order, data) else {
        return INVALID_ARGUMENT;
    };
    let Some(mut whole) = take_table(alloc, table) else {
        return CLOSED;
    };
    let answer = add_ext(&mut whole, data, endianness, seed);
    *table = owner(whole);
    match answer {
        Ok(true) => 0,
        Ok(false) => INVALID_ARGUMENT,
        Err(error) => report(error, fault),
    }
}

/// Closes the `.BTF.ext` of the table that a handle owns, and frees its memory. A handle whose state is not 1 is
/// unchanged.
#[unsafe(no_mangle)]
pub extern "C" fn vbtf_close_ext(alloc: Global, table: &mut Handle)
    ensures closed { table.old.state ≡ 1 → (table.new.state ≡ 1)
        × ExtChangedTo table.old.opened table.new.opened None }
    ensures other { table.old.state ≢ 1 → table.new ≡ table.old }
{
    if let Some(mut whole) = take_table(alloc, table) {
        whole.ext = None;
        *table = owner(whole);
    }
}

/// The lengths of the records of `.BTF.ext`, and the numbers of its sections.
///
/// Status 101 if the handle's state is not 2, or the table has no `.BTF.ext`.
#[unsafe(no_mangle)]
pub extern "C" fn vbtf_lent_ext(table: &mut Handle, sizes: &mut ExtSizes) -> u32
    ensures sized { table.old.state ≡ 2 → (ext : OpenedExt) → table.old.opened.ext ≡ Some ext
        → (result ≡ 0) × HasSizes ext sizes.new }
    ensures none { table.old.state ≡ 2 → table.old.opened.ext ≡ None → result ≡ CLOSED }
    ensures closed { table.old.state ≢ 2 → result ≡ CLOSED }
    ensures kept { KeepsHandle table.old table.new }
{
    let Some(loan) = take_loan(table) else {
        return CLOSED;
    };
    let answer = sizes_of(loan.get());
    *table = Handle::from_loan(loan);
    let Some(found) = answer else {
        return CLOSED;
    };
    *sizes = found;
    0
}

/// Adds the `.BTF.ext` of these bytes; false if there is one already. An error leaves `opened` unchanged.
fn add_ext(
    opened: &mut Opened,
    data: &[u8],
    endianness: Endianness,
    seed: u64,
) -> Result<bool, BtfError>
    ensures added { MeetsOrNoMemory (λ b. b) result
        (AddsExt endianness «data».now opened.old opened.new) }
    ensures err { OnErr result (opened.new ≡ opened.old) }
{
    if opened.ext.is_some() {
        return Ok(false);
    }
    let ext = BtfExt::parse_with_hasher(data, endianness, &opened.btf, Keys { seed })?;
    opened.ext = Some(ext);
    Ok(true)
}

/// The sizes of the open `.BTF.ext`; None if there is none.
fn sizes_of(opened: &Opened) -> Option<ExtSizes>
    ensures { MatchOption result (opened.now.ext ≡ None)
        (λ sizes. (ext : OpenedExt) × (opened.now.ext ≡ Some ext) × HasSizes ext sizes) }
{
    let Some(ext) = &opened.ext else {
        return None;
    };
    Some(ExtSizes {
        func_size: ext.func_info_rec_size() as u64,
        line_size: ext.line_info_rec_size() as u64,
        func_sections: ext.func_info().sections.len() as u64,
        line_sections: ext.line_info().sections.len() as u64,
        relocation_sections: ext.relocations().len() as u64,
    })
}
