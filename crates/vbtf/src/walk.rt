//! Walks from type to type.

ghost use Rattle.std.specs.Prelude.{◌≡◌, ◌≢◌};
ghost use Rattle.btf_model.specs.Walk.{Resolves, HasSize};
ghost use Rattle.vbtf.specs.Status.{EndsCall, KeepsHandle};

use crate::fault::{CLOSED, Fault, report};
use crate::handle::Handle;
use crate::taken::take_loan;

/// The size of a type in bytes.
///
/// Status 2, 9, 10 or 12 with the first error of the walk, and 101 if the handle's state is not 2.
#[unsafe(no_mangle)]
pub extern "C" fn vbtf_lent_size(
    table: &mut Handle,
    id: u32,
    size: &mut u64,
    fault: &mut Fault,
) -> u32
    ensures sized { table.old.state ≡ 2
        → EndsCall result size.new fault.new (HasSize table.old.opened.btf.records id) }
    ensures closed { table.old.state ≢ 2 → result ≡ CLOSED }
    ensures kept { KeepsHandle table.old table.new }
{
    let Some(loan) = take_loan(table) else {
        return CLOSED;
    };
    let answer = loan.get().btf.type_size(id);
    *table = Handle::from_loan(loan);
    match answer {
        Ok(found) => {
            *size = found as u64;
            0
        }
        Err(error) => report(error, fault),
    }
}

/// The id of the type that an id resolves to: the first type after its modifiers.
///
/// Status 9 or 12 with the first error of the walk, and 101 if the handle's state is not 2.
#[unsafe(no_mangle)]
pub extern "C" fn vbtf_lent_resolve(
    table: &mut Handle,
    id: u32,
    to: &mut u32,
    fault: &mut Fault,
) -> u32
    ensures resolved { table.old.state ≡ 2
        → EndsCall result to.new fault.new (Resolves table.old.opened.btf.records id) }
    ensures closed { table.old.state ≢ 2 → result ≡ CLOSED }
    ensures kept { KeepsHandle table.old table.new }
{
    let Some(loan) = take_loan(table) else {
        return CLOSED;
    };
    let answer = loan.get().btf.resolve_type(id);
    *table = Handle::from_loan(loan);
    match answer {
        Ok(found) => {
            *to = found;
            0
        }
        Err(error) => report(error, fault),
    }
}
