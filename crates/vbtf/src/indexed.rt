//! Finding a type by its name in the index of a table.

ghost use Rattle.std.specs.Prelude.{◌≡◌, ◌≢◌, ◌⊎◌, ◌↔◌, IsTrue, [], Some, None, Err, is_some, true, slice_get};
ghost use Rattle.std.specs.Str.{IsUtf8};
ghost use Rattle.btf_model.specs.Record.{kinds};
ghost use Rattle.btf_model.specs.Refusal.{UnknownBtfTypeName};
ghost use Rattle.btf_plain.specs.Error.{MeetsOrNoMemory};
ghost use Rattle.btf_plain.specs.Kind as plain;
ghost use Rattle.btf_relocate.specs.TargetIndex.{IndexesTable};
ghost use Rattle.vbtf.specs.IndexFinding.{FindsIndexPlace, IsNamedAt, EndsFindingIndexed, EndsFindingIn, AnswersIndexed, IsUnaskable};
ghost use Rattle.vbtf.specs.Status.{KeepsHandle};

use crate::fault::{CLOSED, Fault, INVALID_ARGUMENT, report};
use crate::handle::Handle;
use crate::opened::Opened;
use crate::taken::take_loan;
use btf::{Btf, BtfError, BtfKind};
use btf_relocate::TargetIndex;
use btf_table::name_bytes;
use std::alloc::Global;

/// The least id above 0 of a type with this kind and name, from the open index of the table. The kind is a number from
/// 0 to 19, and the name has no zero byte at its end.
///
/// Names are compared by their bytes, so names that cannot be read are passed over. The search takes time in the
/// logarithm of the number of types, and in the number of types with the same name.
///
/// Status 11 if no type has the kind and the name, 20 if an allocation fails, 101 if the handle's state is not 2 or the
/// table has no open index, and 102 if the name is empty or not UTF-8, or no kind has the number.
#[unsafe(no_mangle)]
pub extern "C" fn vbtf_lent_index_find(
    alloc: Global,
    table: &mut Handle,
    name: &[u8],
    kind: u32,
    id: &mut u32,
    fault: &mut Fault,
) -> u32
    ensures found { EndsFindingIndexed table.old name.now kind id.new fault.new result }
    ensures no_index { table.old.state ≡ 2 → table.old.opened.index ≡ None → result ≡ CLOSED }
    ensures refused { table.old.state ≡ 2 → is_some table.old.opened.index ≡ true
        → IsUnaskable name.now kind → result ≡ INVALID_ARGUMENT }
    ensures closed { table.old.state ≢ 2 → result ≡ CLOSED }
    ensures kept { KeepsHandle table.old table.new }
{
    let Some(loan) = take_loan(table) else {
        return CLOSED;
    };
    let status = find_in(alloc, loan.get(), name, kind, id, fault);
    *table = Handle::from_loan(loan);
    status
}

/// The same in the table and the index of a handle.
fn find_in(
    alloc: Global,
    opened: &Opened,
    name: &[u8],
    kind: u32,
    id: &mut u32,
    fault: &mut Fault,
) -> u32
    ensures found { EndsFindingIn opened.now name.now kind id.new fault.new result }
    ensures no_index { opened.now.index ≡ None → result ≡ CLOSED }
    ensures refused { is_some opened.now.index ≡ true
        → IsUnaskable name.now kind → result ≡ INVALID_ARGUMENT }
{
    let Some(index) = &opened.index else {
        return CLOSED;
    };
    match find(alloc, &opened.btf, index, name, kind) {
        None => INVALID_ARGUMENT,
        Some(Ok(found)) => {
            *id = found;
            0
        }
        Some(Err(error)) => report(error, fault),
    }
}

/// The id of a kind and a name; None if the name is empty or not UTF-8, or no kind has the number.
fn find(
    alloc: Global,
    table: &Btf,
    index: &TargetIndex,
    name: &[u8],
    kind: u32,
) -> Option<Result<u32, BtfError>>
    requires { IndexesTable table.now index.now }
    ensures { AnswersIndexed name.now kind table.now result }
{
    let Ok(text) = str::from_utf8(name) else {
        return None;
    };
    if name.is_empty() {
        return None;
    }
    let Ok(kind) = BtfKind::try_from(kind) else {
        return None;
    };
    Some(match place_of(table, index, name, kind) {
        Some(id) => Ok(id),
        None => no_such_name(alloc, text),
    })
}

/// The error for a name that no type has.
fn no_such_name(alloc: Global, name: &str) -> Result<u32, BtfError>
    ensures { MeetsOrNoMemory (λ id. id) result
        (λ answer. answer ≡ Err (UnknownBtfTypeName name.now)) }
{
    Err(BtfError::UnknownBtfTypeName {
        type_name: name.to_string(alloc)?,
    })
}

/// The least id above 0 of a type with this kind and name.
fn place_of(table: &Btf, index: &TargetIndex, name: &[u8], kind: BtfKind) -> Option<u32>
    requires indexed { IndexesTable table.now index.now }
    requires named { name.now ≢ [] }
    ensures { FindsIndexPlace table.now (plain.kind kind) name.now result }
{
    for id in index.candidates(table, name, kind) {
        if is_named_at(table, *id, name, kind) {
            return Some(*id);
        }
    }
    None
}

/// Whether the type of an id has this kind and name.
fn is_named_at(table: &Btf, type_id: u32, name: &[u8], kind: BtfKind) -> bool
    ensures { IsTrue result ↔ IsNamedAt table.now (plain.kind kind) name.now type_id }
{
    let Ok(btf_type) = table.type_by_id(type_id) else {
        return false;
    };
    btf_type.kind() == kind && name_bytes(table, btf_type) == Some(name)
}
