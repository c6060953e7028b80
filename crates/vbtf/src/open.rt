//! Opening a table, and closing it.

ghost use Rattle.std.specs.Prelude.{◌≡◌, ◌≢◌, ◌⊎◌, ◌<◌, ◌≤◌, None, Ok, Err, MatchResult};
ghost use Rattle.btf_model.specs.Table.{Table, empty_table};
ghost use Rattle.btf_model.specs.Blob.{IsTable, Parses};
ghost use Rattle.btf_plain.specs.declared.error.BtfError.TheVariants.{OutOfMemory};
ghost use Rattle.vbtf.specs.Orders.{order_chosen};
ghost use Rattle.vbtf.specs.Status.{Opens};
ghost use Rattle.vbtf.specs.Changing.{OpensTable, IsAlone};

use crate::fault::{Fault, INVALID_ARGUMENT, report};
use crate::handle::{Handle, owner};
use crate::opened::Opened;
use crate::orders::choose_order;
use crate::taken::take_table;
use btf::{Btf, BtfError};
use std::alloc::Global;

/// Opens a handle with an empty table in little-endian order.
///
/// Status 20 if an allocation fails, and 102 if the handle is not closed; it is then unchanged.
#[unsafe(no_mangle)]
pub extern "C" fn vbtf_raw_new(alloc: Global, table: &mut Handle, fault: &mut Fault) -> u32
    ensures opened { table.old.state ≡ 0
        → Opens result table.old table.new fault.new (λ answer. answer ≡ Ok empty_table) }
    ensures refused { table.old.state ≢ 0 → (result ≡ INVALID_ARGUMENT) × (table.new ≡ table.old) }
{
    if table.read_state() != 0 {
        return INVALID_ARGUMENT;
    }
    match box_table(alloc, Btf::new(alloc)) {
        Ok(whole) => {
            *table = owner(whole);
            0
        }
        Err(error) => report(error, fault),
    }
}

/// Opens a handle with the table that a blob represents. `order` is the byte order: 0 for little, 1 for big, 2 for the
/// order of the magic at the beginning of the blob.
///
/// Status 1, 2 or 4 with the first error, 20 if an allocation fails, and 102 if the handle is not
/// closed or the order is another number; the handle is then unchanged.
#[unsafe(no_mangle)]
pub extern "C" fn vbtf_raw_parse(
    alloc: Global,
    table: &mut Handle,
    data: &[u8],
    order: u32,
    fault: &mut Fault,
) -> u32
    ensures opened { table.old.state ≡ 0 → order ≤ 2
        → Opens result table.old table.new fault.new
        (Parses (order_chosen order «data».now) «data».now) }
    // An error means that the bytes are no table.
    ensures only_table { OpensTable table.old table.new «data».now order fault.new result }
    ensures open { table.old.state ≢ 0 → (result ≡ INVALID_ARGUMENT) × (table.new ≡ table.old) }
    ensures order { 2 < order → (result ≡ INVALID_ARGUMENT) × (table.new ≡ table.old) }
{
    let Some(endianness) = choose_order(order, data) else {
        return INVALID_ARGUMENT;
    };
    if table.read_state() != 0 {
        return INVALID_ARGUMENT;
    }
    match box_table(alloc, Btf::parse(alloc, data, endianness)) {
        Ok(whole) => {
            *table = owner(whole);
            0
        }
        Err(error) => report(error, fault),
    }
}

/// Frees the table that a handle owns, and closes the handle. A handle in another state is unchanged.
#[unsafe(no_mangle)]
pub extern "C" fn vbtf_close(alloc: Global, table: &mut Handle)
    ensures closed { table.old.state ≡ 1 → table.new.state ≡ 0 }
    ensures other { table.old.state ≢ 1 → table.new ≡ table.old }
{
    if let Some(whole) = take_table(alloc, table) {
        drop(whole);
    }
}

/// The table of a result, in a box, without `.BTF.ext` and index.
pub(crate) fn box_table(
    alloc: Global,
    answer: Result<Btf, BtfError>,
) -> Result<Box<Opened>, BtfError>
    ensures { MatchResult result (λ whole. IsAlone answer whole.value)
        (λ error. (answer ≡ Err error) ⊎ (error ≡ OutOfMemory)) }
{
    let opened = Opened {
        btf: answer?,
        ext: None,
        index: None,
    };
    Ok(Box::new(alloc, opened)?)
}
