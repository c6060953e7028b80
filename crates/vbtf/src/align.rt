//! Alignments of types.

ghost use Rattle.std.specs.Prelude.{◌≡◌, ◌≢◌, List, IfOk, IfErr};
ghost use Rattle.btf_layout_model.specs.Alignment.{HasAlignment};
ghost use Rattle.btf_model.specs.Record.{Record};
ghost use Rattle.btf_plain.specs.declared.error.BtfError.TheVariants.{OutOfMemory};
ghost use Rattle.vbtf.specs.Aligning.{AlignmentOrNone, AreAlignments, EndsAligning, FillsAlignments};
ghost use Rattle.vbtf.specs.Status.{EndsOrNoMemory, KeepsHandle};

use crate::fault::{CLOSED, Fault, report};
use crate::handle::Handle;
use crate::many::places_from;
use crate::taken::take_loan;
use btf::{Btf, BtfError};
use btf_layout::{Alignments, alignment_of};

/// The alignment of a type in bytes.
///
/// Status 9 of an id that has no type; 10 of the id of a type without an alignment; 12 if a type contains itself; 20 if
/// an allocation fails; and 101 if the handle's state is not 2.
#[unsafe(no_mangle)]
pub extern "C" fn vbtf_lent_alignment(
    table: &mut Handle,
    id: u32,
    alignment: &mut u32,
    fault: &mut Fault,
) -> u32
    ensures found { table.old.state ≡ 2 → EndsOrNoMemory result alignment.new fault.new
        (HasAlignment table.old.opened.btf.records id) }
    ensures closed { table.old.state ≢ 2 → result ≡ CLOSED }
    ensures kept { KeepsHandle table.old table.new }
{
    let Some(loan) = take_loan(table) else {
        return CLOSED;
    };
    let answer = alignment_of(&loan.get().btf, id);
    *table = Handle::from_loan(loan);
    match answer {
        Ok(bytes) => {
            *alignment = bytes;
            0
        }
        Err(error) => report(error, fault),
    }
}

/// Writes the alignments in bytes of the types from an id on, in the order of the ids, to a buffer: as many as there
/// are types and as fit. Their number goes to `count`; it is 0 if no type has the id. A type for which
/// `vbtf_lent_alignment` returns an error has 0.
///
/// Status 20 if an allocation fails, and 101 if the handle's state is not 2; the buffer is then unchanged.
#[unsafe(no_mangle)]
pub extern "C" fn vbtf_lent_alignments(
    table: &mut Handle,
    first: u32,
    out: &mut [u32],
    count: &mut u64,
    fault: &mut Fault,
) -> u32
    ensures filled { table.old.state ≡ 2 → EndsAligning result table.old.opened.btf.records first
        out.old out.new count.new fault.new }
    ensures closed { table.old.state ≢ 2 → (result ≡ CLOSED) × (out.new ≡ out.old) }
    ensures kept { KeepsHandle table.old table.new }
{
    let Some(loan) = take_loan(table) else {
        return CLOSED;
    };
    let answer = fill_alignments(&loan.get().btf, first, out);
    *table = Handle::from_loan(loan);
    match answer {
        Ok(places) => {
            *count = places as u64;
            0
        }
        Err(error) => report(error, fault),
    }
}

/// Writes the alignments of the types from an id on, as many as fit, and returns their number.
fn fill_alignments(table: &Btf, first: u32, out: &mut [u32]) -> Result<usize, BtfError>
    ensures filled { IfOk result (λ count. FillsAlignments table.now.records first out.old out.new
        count) }
    ensures only { IfErr result (λ e. (e ≡ OutOfMemory) × (out.new ≡ out.old)) }
{
    let alignments = Alignments::of_table(table)?;
    Ok(fill_from(&alignments, table, first, out))
}

/// Writes alignments of the types from an id on, as many as fit, and returns their number.
fn fill_from(alignments: &Alignments, table: &Btf, first: u32, out: &mut [u32]) -> usize
    requires { AreAlignments table.now.records alignments.now }
    ensures { FillsAlignments table.now.records first out.old out.new result }
{
    let count = places_from(table, first, out.len());
    for index in 0..count {
        out[index] = alignment_or_none(alignments, first + index as u32);
    }
    count
}

/// The alignment of a type in bytes, or 0 if it has none.
fn alignment_or_none(alignments: &Alignments, id: u32) -> u32
    ensures { (records : List Record) → AreAlignments records alignments.now
        → AlignmentOrNone records id result }
{
    match alignments.get(id) {
        Ok(bytes) => bytes,
        Err(_) => 0,
    }
}
