//! Copying a table.

ghost use Rattle.std.specs.Prelude.{◌≡◌, ◌≢◌, Ok};
ghost use Rattle.vbtf.specs.Status.{Opens, KeepsHandle};

use crate::fault::{CLOSED, Fault, INVALID_ARGUMENT, report};
use crate::handle::{Handle, owner};
use crate::open::box_table;
use crate::taken::take_loan;
use btf::Btf;
use std::alloc::Global;

/// Opens a handle with a table that equals the table of another handle, and has no `.BTF.ext` and no index.
///
/// Status 20 if an allocation fails, 101 if the state of `table` is not 2, and 102 if `copy` is not closed; `copy` is
/// then unchanged.
#[unsafe(no_mangle)]
pub extern "C" fn vbtf_lent_clone(
    alloc: Global,
    table: &mut Handle,
    copy: &mut Handle,
    fault: &mut Fault,
) -> u32
    ensures copied { table.old.state ≡ 2 → copy.old.state ≡ 0
        → Opens result copy.old copy.new fault.new
        (λ answer. answer ≡ Ok table.old.opened.btf) }
    ensures open { table.old.state ≡ 2 → copy.old.state ≢ 0
        → (result ≡ INVALID_ARGUMENT) × (copy.new ≡ copy.old) }
    ensures closed { table.old.state ≢ 2 → (result ≡ CLOSED) × (copy.new ≡ copy.old) }
    ensures kept { KeepsHandle table.old table.new }
{
    let Some(loan) = take_loan(table) else {
        return CLOSED;
    };
    let status = open_copy(alloc, &loan.get().btf, copy, fault);
    *table = Handle::from_loan(loan);
    status
}

/// Opens a handle with a table that equals this one.
fn open_copy(alloc: Global, table: &Btf, copy: &mut Handle, fault: &mut Fault) -> u32
    ensures copied { copy.old.state ≡ 0
        → Opens result copy.old copy.new fault.new (λ answer. answer ≡ Ok table.now) }
    ensures open { copy.old.state ≢ 0 → (result ≡ INVALID_ARGUMENT) × (copy.new ≡ copy.old) }
{
    if copy.read_state() != 0 {
        return INVALID_ARGUMENT;
    }
    match box_table(alloc, table.try_clone()) {
        Ok(whole) => {
            *copy = owner(whole);
            0
        }
        Err(error) => report(error, fault),
    }
}
