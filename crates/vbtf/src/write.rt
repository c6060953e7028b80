//! Texts and blobs in buffers of C.

ghost use Rattle.std.specs.Prelude.{◌≡◌, ◌≢◌, Ok};
ghost use Rattle.btf_model.specs.Blob.{canon};
ghost use Rattle.btf_model.specs.Text.{text_at};
ghost use Rattle.vbtf.specs.Status.{Fills, EndsFilling, KeepsHandle, FillsWithoutMemory, IfLends};

use crate::fault::{CLOSED, Fault, NO_ROOM, report};
use crate::handle::Handle;
use crate::taken::take_loan;
use btf::Btf;

/// Writes the text at a string offset to a buffer, without a zero byte after it, and its length in bytes to `needed`.
///
/// Status 100 if the buffer is too small (it is then unchanged); 6 if no text can be read at the offset, 20
/// if an allocation fails, and 101 if the handle's state is not 2.
#[unsafe(no_mangle)]
pub extern "C" fn vbtf_lent_text(
    table: &mut Handle,
    offset: u32,
    out: &mut [u8],
    needed: &mut u64,
    fault: &mut Fault,
) -> u32
    ensures text { IfLends table.old (λ t. EndsFilling result out.old out.new needed.new fault.new
        (λ a. a ≡ text_at t.strings offset)) }
    // Nothing is allocated for a text that is UTF-8.
    ensures no_memory { table.old.state ≡ 2
        → FillsWithoutMemory table.old.opened.btf.strings offset
        out.old out.new needed.new fault.new result }
    ensures closed { table.old.state ≢ 2 → (result ≡ CLOSED) × (out.new ≡ out.old) }
    ensures kept { KeepsHandle table.old table.new }
{
    let Some(loan) = take_loan(table) else {
        return CLOSED;
    };
    let status = write_text(&loan.get().btf, offset, out, needed, fault);
    *table = Handle::from_loan(loan);
    status
}

/// Writes the blob of a table to a buffer, and its length in bytes to `needed`.
///
/// Status 100 if the buffer is too small (it is then unchanged); 20 if an allocation fails, and 101 where
/// the handle's state is not 2.
#[unsafe(no_mangle)]
pub extern "C" fn vbtf_lent_bytes(
    table: &mut Handle,
    out: &mut [u8],
    needed: &mut u64,
    fault: &mut Fault,
) -> u32
    ensures written { table.old.state ≡ 2 → EndsFilling result out.old out.new needed.new fault.new
        (λ answer. answer ≡ Ok (canon table.old.opened.btf)) }
    ensures closed { table.old.state ≢ 2 → (result ≡ CLOSED) × (out.new ≡ out.old) }
    ensures kept { KeepsHandle table.old table.new }
{
    let Some(loan) = take_loan(table) else {
        return CLOSED;
    };
    let status = write_bytes(&loan.get().btf, out, needed, fault);
    *table = Handle::from_loan(loan);
    status
}

/// Writes the text at a string offset to a buffer.
fn write_text(table: &Btf, offset: u32, out: &mut [u8], needed: &mut u64, fault: &mut Fault) -> u32
    ensures text { EndsFilling result out.old out.new needed.new fault.new
        (λ answer. answer ≡ text_at table.now.strings offset) }
    ensures no_memory { FillsWithoutMemory table.now.strings offset
        out.old out.new needed.new fault.new result }
{
    match table.string_at(offset) {
        Ok(text) => fill(text.as_str().as_bytes(), out, needed),
        Err(error) => report(error, fault),
    }
}

/// Writes the blob of a table to a buffer.
fn write_bytes(table: &Btf, out: &mut [u8], needed: &mut u64, fault: &mut Fault) -> u32
    ensures { EndsFilling result out.old out.new needed.new fault.new
        (λ answer. answer ≡ Ok (canon table.now)) }
{
    match table.to_bytes() {
        Ok(bytes) => fill(&bytes, out, needed),
        Err(error) => report(error, fault),
    }
}

/// Writes items to the beginning of a buffer if they fit, and the number of items to `needed`.
pub(crate) fn fill<T: Copy>(items: &[T], out: &mut [T], needed: &mut u64) -> u32
    ensures { Fills items.now out.old out.new needed.new result }
{
    let len = items.len();
    *needed = len as u64;
    if out.len() < len {
        return NO_ROOM;
    }
    out[..len].copy_from_slice(items);
    0
}
