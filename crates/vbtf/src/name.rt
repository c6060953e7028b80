//! Names in the memory of a table.

ghost use Rattle.std.specs.Prelude.{◌≡◌, ◌≢◌, length};
ghost use Rattle.std.specs.List.{filter};
ghost use Rattle.std.specs.Option.{option_map};
ghost use Rattle.btf_model.specs.Text.{bytes_at, is_zero};
ghost use Rattle.vbtf.specs.Lent.{AreNamesFrom};
ghost use Rattle.vbtf.specs.Naming.{AreLentNames, EndsNaming};
ghost use Rattle.vbtf.specs.Status.{KeepsHandle};

use crate::fault::{CLOSED, Fault, report};
use crate::handle::{Handle, LENT};
use crate::lent_name::Name;
use crate::opened::Opened;
use crate::taken::take_loan;
use btf::{Btf, BtfError, BtfType, Float};
use btf_table::{name_bytes, readable_strings, string_section};

/// The bytes of the name at a string offset, whatever they are: a pointer into the table. The number of bytes before
/// the zero byte goes to `len`. They do not change while the loan lasts. `name` has the number of all bytes from there
/// to the last zero byte.
///
/// Status 6 if no zero byte is at the offset or after it, and 101 if the handle's state is not 2. After an error name
/// and length are unchanged.
#[unsafe(no_mangle)]
pub extern "C" fn vbtf_lent_name(
    table: &mut Handle,
    offset: u32,
    name: &mut Name,
    len: &mut usize,
    fault: &mut Fault,
) -> u32
    ensures named { table.old.state ≡ 2 → EndsNaming result table.old.opened.btf.strings offset
        table.old.life len.new name.new fault.new }
    ensures closed { table.old.state ≢ 2 → result ≡ CLOSED }
    ensures kept { KeepsHandle table.old table.new }
{
    if table.read_state() != LENT {
        return CLOSED;
    }
    let Some(found) = name_len(table, offset) else {
        let offset = offset as usize;
        return report(BtfError::InvalidStringOffset { offset }, fault);
    };
    *name = table.names_at(offset);
    *len = found;
    0
}

/// The strings of a table up to and with their last zero byte: a pointer into the table, and their number. The name at
/// each offset below this number is there, up to its zero byte; no name is at another offset. They do not change while
/// the loan lasts.
///
/// Status 101 if the handle's state is not 2.
#[unsafe(no_mangle)]
pub extern "C" fn vbtf_lent_names(table: &mut Handle, names: &mut Name) -> u32
    ensures lent { table.old.state ≡ 2 → (result ≡ 0)
        × AreLentNames table.old.opened.btf.strings table.old.life names.new }
    ensures closed { table.old.state ≢ 2 → result ≡ CLOSED }
    ensures kept { KeepsHandle table.old table.new }
{
    if table.read_state() != LENT {
        return CLOSED;
    }
    *names = table.names_at(0);
    0
}

/// The number of strings of a table, which is the number of its zero bytes.
///
/// Status 101 if the handle's state is not 2.
#[unsafe(no_mangle)]
pub extern "C" fn vbtf_lent_string_count(table: &mut Handle, count: &mut u64) -> u32
    ensures counted { table.old.state ≡ 2 → (result ≡ 0)
        × (count.new ≡ length (filter is_zero table.old.opened.btf.strings)) }
    ensures closed { table.old.state ≢ 2 → result ≡ CLOSED }
    ensures kept { KeepsHandle table.old table.new }
{
    let Some(loan) = take_loan(table) else {
        return CLOSED;
    };
    *count = zeros(string_section(&loan.get().btf)) as u64;
    *table = Handle::from_loan(loan);
    0
}

/// The number of zero bytes.
fn zeros(bytes: &[u8]) -> usize
    ensures { result ≡ length (filter is_zero bytes.now) }
{
    bytes.iter().filter(|byte| **byte == 0).count()
}

/// The length of the name at a string offset; None if there is no name.
fn name_len(table: &mut Handle, offset: u32) -> Option<usize>
    requires { table.old.state ≡ 2 }
    ensures found { result ≡ option_map length (bytes_at table.old.opened.btf.strings offset) }
    ensures kept { KeepsHandle table.old table.new }
{
    let loan = take_loan(table)?;
    let answer = len_of(&loan.get().btf, offset);
    *table = Handle::from_loan(loan);
    answer
}

/// The length of the name at a string offset; None if there is no name.
fn len_of(table: &Btf, offset: u32) -> Option<usize>
    ensures { result ≡ option_map length (bytes_at table.now.strings offset) }
{
    // `name_bytes` takes a type: this one has the name at this offset.
    let name = name_bytes(table, &BtfType::Float(Float::new(offset, 0)))?;
    Some(name.len())
}

/// The strings of a table from an offset on, up to and with their last zero byte.
pub(crate) fn names_from(opened: &Opened, offset: u32) -> &[u8]
    ensures { AreNamesFrom opened.now.btf.strings offset result.now }
{
    readable_strings(&opened.btf)
        .get(offset as usize..)
        .unwrap_or(&[])
}
