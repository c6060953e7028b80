//! What is taken out of a handle: the share of a loan, or the table.

ghost use Rattle.std.specs.Prelude.{◌≡◌, ◌≢◌};
ghost use Rattle.std.specs.Option.{MatchOption};
ghost use Rattle.vbtf.specs.Taken.{IsLoanOf, IsTakenFrom, IsTakenToChange};

use crate::handle::{Handle, LENT, OWNED};
use crate::loan::Loan;
use crate::opened::Opened;
use std::alloc::Global;
use std::mem::replace;

/// Takes the share of a loan out of a handle, and closes the handle. None if it is not in state 2.
pub(crate) fn take_loan(table: &mut Handle) -> Option<Loan<Opened>>
    ensures { MatchOption result ((table.old.state ≢ 2) × (table.new ≡ table.old))
        (λ loan. IsLoanOf table.old loan.at loan.value loan.life loan.share) }
{
    if table.read_state() != LENT {
        return None;
    }
    Some(replace(table, Handle::none()).to_loan())
}

/// Takes the table out of a handle, and closes the handle. None if it is not in state 1.
pub(crate) fn take_table(alloc: Global, table: &mut Handle) -> Option<Box<Opened>>
    ensures { MatchOption result ((table.old.state ≢ 1) × (table.new ≡ table.old))
        (λ whole. IsTakenFrom table.old table.new whole.value) }
{
    if table.read_state() != OWNED {
        return None;
    }
    Some(replace(table, Handle::none()).to_parts(alloc).into_box())
}

/// Takes the table out of a handle, to change it, without its index, and closes the handle. None if it is not in state
/// 1.
pub(crate) fn take_to_change(alloc: Global, table: &mut Handle) -> Option<Box<Opened>>
    ensures { MatchOption result ((table.old.state ≢ 1) × (table.new ≡ table.old))
        (λ whole. IsTakenToChange table.old table.new whole.value) }
{
    let mut whole = take_table(alloc, table)?;
    whole.index = None;
    Some(whole)
}
