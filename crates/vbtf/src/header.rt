//! The types of a table as a C header.

ghost use Rattle.std.specs.Prelude.{◌≡◌, ◌≢◌};
ghost use Rattle.vbtf.specs.Status.{FillsOrReportsText, KeepsHandle, ReportsNoText};

use crate::fault::{CLOSED, Fault, report, report_number};
use crate::handle::Handle;
use crate::taken::take_loan;
use crate::write::fill;
use btf::{Btf, BtfError};
use btf_text::{HeaderTypes, TextError, write_header};
use std::alloc::Global;

/// The text would be too long.
const TOO_LONG: u32 = 111;

/// Writes all types of a table as a C header to a buffer, and the length of the text in bytes to `needed`.
///
/// Status 100 if the buffer is too small; 9 for an id that has no type, 10 for a type that no C declaration can have,
/// 12 for a type that contains itself or has too many types around it, 20 if an allocation fails, 101 if the handle's
/// state is not 2, and 111 if the text would be too long. After an error the buffer is unchanged.
#[unsafe(no_mangle)]
pub extern "C" fn vbtf_lent_header(
    alloc: Global,
    table: &mut Handle,
    out: &mut [u8],
    needed: &mut u64,
    fault: &mut Fault,
) -> u32
    ensures text { table.old.state ≡ 2
        → FillsOrReportsText result out.old out.new needed.new fault.new }
    ensures closed { table.old.state ≢ 2 → (result ≡ CLOSED) × (out.new ≡ out.old) }
    ensures kept { KeepsHandle table.old table.new }
{
    let Some(loan) = take_loan(table) else {
        return CLOSED;
    };
    let status = write_types(alloc, &loan.get().btf, out, needed, fault);
    *table = Handle::from_loan(loan);
    status
}

/// Writes all types of a table to a buffer.
fn write_types(
    alloc: Global,
    table: &Btf,
    out: &mut [u8],
    needed: &mut u64,
    fault: &mut Fault,
) -> u32
    ensures { FillsOrReportsText result out.old out.new needed.new fault.new }
{
    let mut text = String::new(alloc);
    match write_header(alloc, table, &HeaderTypes::All, &mut text) {
        Ok(()) => fill(text.as_bytes(), out, needed),
        Err(error) => report_text(error, fault),
    }
}

/// Writes the details of an error of a text, and returns its status. A text in memory fails only without memory.
fn report_text(error: TextError, fault: &mut Fault) -> u32
    ensures { ReportsNoText result fault.new }
{
    match error {
        TextError::Table(error) => report(error, fault),
        TextError::TooLong => report_number(fault, TOO_LONG, 0, 0),
        TextError::Write | TextError::OutOfMemory => report(BtfError::OutOfMemory, fault),
    }
}
