//! The items of a type in one call.

ghost use Rattle.std.specs.Prelude.{◌≡◌, ◌≢◌, length, take, map};
ghost use Rattle.btf_view.specs.Forms.{Begins, ListsItems};
ghost use Rattle.btf_view.specs.Items.{ItemsOf, entries, members, params, variants};
ghost use Rattle.vbtf.specs.Lists.{EndsListing};
ghost use Rattle.vbtf.specs.Status.{KeepsHandle};

use crate::fault::{CLOSED, Fault, report};
use crate::handle::Handle;
use crate::taken::take_loan;
use btf::{Btf, BtfError, BtfType};
use btf_view::{Entry, Listed, Member, Param, Variant};

/// Writes the members of a STRUCT or UNION to a buffer, in order: as many as there are and as fit. Their number goes to
/// `count`.
///
/// Status 9 if no type has the id, 10 if its type has another kind, and 101 if the handle's state is not 2. After an
/// error the buffer is unchanged.
#[unsafe(no_mangle)]
pub extern "C" fn vbtf_lent_members(
    table: &mut Handle,
    id: u32,
    out: &mut [Member],
    count: &mut u64,
    fault: &mut Fault,
) -> u32
    ensures listed { table.old.state ≡ 2
        → EndsListing result out.old out.new count.new fault.new
        (ItemsOf members table.old.opened.btf.records id) }
    ensures closed { table.old.state ≢ 2 → (result ≡ CLOSED) × (out.new ≡ out.old) }
    ensures kept { KeepsHandle table.old table.new }
{
    let Some(loan) = take_loan(table) else {
        return CLOSED;
    };
    let answer = fill_members(&loan.get().btf, id, out);
    *table = Handle::from_loan(loan);
    match answer {
        Ok(written) => {
            *count = written;
            0
        }
        Err(error) => report(error, fault),
    }
}

/// Writes the members of a type, as many as fit, and returns their number.
fn fill_members(table: &Btf, id: u32, out: &mut [Member]) -> Result<u64, BtfError>
    ensures { ListsItems out.old out.new result (ItemsOf members table.now.records id) }
{
    match table.type_by_id(id)? {
        BtfType::Struct(t) => Ok(fill_forms(t.info(), t.members(), out)),
        BtfType::Union(t) => Ok(fill_forms(t.info(), t.members(), out)),
        _ => Err(BtfError::UnexpectedBtfType { type_id: id }),
    }
}

/// Writes the variants of an ENUM or ENUM64 to a buffer, as `vbtf_lent_members` writes the members.
///
/// Status 9 if no type has the id, 10 if its type has another kind, and 101 if the handle's state is not 2. After an
/// error the buffer is unchanged.
#[unsafe(no_mangle)]
pub extern "C" fn vbtf_lent_variants(
    table: &mut Handle,
    id: u32,
    out: &mut [Variant],
    count: &mut u64,
    fault: &mut Fault,
) -> u32
    ensures listed { table.old.state ≡ 2
        → EndsListing result out.old out.new count.new fault.new
        (ItemsOf variants table.old.opened.btf.records id) }
    ensures closed { table.old.state ≢ 2 → (result ≡ CLOSED) × (out.new ≡ out.old) }
    ensures kept { KeepsHandle table.old table.new }
{
    let Some(loan) = take_loan(table) else {
        return CLOSED;
    };
    let answer = fill_variants(&loan.get().btf, id, out);
    *table = Handle::from_loan(loan);
    match answer {
        Ok(written) => {
            *count = written;
            0
        }
        Err(error) => report(error, fault),
    }
}

/// Writes the variants of a type, as many as fit, and returns their number.
fn fill_variants(table: &Btf, id: u32, out: &mut [Variant]) -> Result<u64, BtfError>
    ensures { ListsItems out.old out.new result (ItemsOf variants table.now.records id) }
{
    match table.type_by_id(id)? {
        BtfType::Enum(t) => Ok(fill_forms(t.info(), t.variants(), out)),
        BtfType::Enum64(t) => Ok(fill_forms(t.info(), t.variants(), out)),
        _ => Err(BtfError::UnexpectedBtfType { type_id: id }),
    }
}

/// Writes the parameters of a FUNC_PROTO to a buffer, as `vbtf_lent_members` writes the members.
///
/// Status 9 if no type has the id, 10 if its type has another kind, and 101 if the handle's state is not 2. After an
/// error the buffer is unchanged.
#[unsafe(no_mangle)]
pub extern "C" fn vbtf_lent_params(
    table: &mut Handle,
    id: u32,
    out: &mut [Param],
    count: &mut u64,
    fault: &mut Fault,
) -> u32
    ensures listed { table.old.state ≡ 2
        → EndsListing result out.old out.new count.new fault.new
        (ItemsOf params table.old.opened.btf.records id) }
    ensures closed { table.old.state ≢ 2 → (result ≡ CLOSED) × (out.new ≡ out.old) }
    ensures kept { KeepsHandle table.old table.new }
{
    let Some(loan) = take_loan(table) else {
        return CLOSED;
    };
    let answer = fill_params(&loan.get().btf, id, out);
    *table = Handle::from_loan(loan);
    match answer {
        Ok(written) => {
            *count = written;
            0
        }
        Err(error) => report(error, fault),
    }
}

/// Writes the parameters of a type, as many as fit, and returns their number.
fn fill_params(table: &Btf, id: u32, out: &mut [Param]) -> Result<u64, BtfError>
    ensures { ListsItems out.old out.new result (ItemsOf params table.now.records id) }
{
    match table.type_by_id(id)? {
        BtfType::FuncProto(t) => Ok(fill_forms(t.info(), t.params(), out)),
        _ => Err(BtfError::UnexpectedBtfType { type_id: id }),
    }
}

/// Writes the entries of a DATASEC to a buffer, as `vbtf_lent_members` writes the members.
///
/// Status 9 if no type has the id, 10 if its type has another kind, and 101 if the handle's state is not 2. After an
/// error the buffer is unchanged.
#[unsafe(no_mangle)]
pub extern "C" fn vbtf_lent_entries(
    table: &mut Handle,
    id: u32,
    out: &mut [Entry],
    count: &mut u64,
    fault: &mut Fault,
) -> u32
    ensures listed { table.old.state ≡ 2
        → EndsListing result out.old out.new count.new fault.new
        (ItemsOf entries table.old.opened.btf.records id) }
    ensures closed { table.old.state ≢ 2 → (result ≡ CLOSED) × (out.new ≡ out.old) }
    ensures kept { KeepsHandle table.old table.new }
{
    let Some(loan) = take_loan(table) else {
        return CLOSED;
    };
    let answer = fill_entries(&loan.get().btf, id, out);
    *table = Handle::from_loan(loan);
    match answer {
        Ok(written) => {
            *count = written;
            0
        }
        Err(error) => report(error, fault),
    }
}

/// Writes the entries of a type, as many as fit, and returns their number.
fn fill_entries(table: &Btf, id: u32, out: &mut [Entry]) -> Result<u64, BtfError>
    ensures { ListsItems out.old out.new result (ItemsOf entries table.now.records id) }
{
    match table.type_by_id(id)? {
        BtfType::DataSec(t) => Ok(fill_forms(t.info(), t.entries(), out)),
        _ => Err(BtfError::UnexpectedBtfType { type_id: id }),
    }
}

/// Writes the forms of the items of a record with this info word, as many as fit, and returns their number.
fn fill_forms<T: Listed>(info: u32, items: &[T], out: &mut [T::Form]) -> u64
    ensures { Begins (take (length out.old) (map (T.form info) items.now))
        out.old out.new result }
{
    let count = out.len().min(items.len());
    for index in 0..count {
        out[index] = items[index].form(info);
    }
    count as u64
}
