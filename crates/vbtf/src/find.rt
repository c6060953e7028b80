//! Searches for a name from an id on.

ghost use Rattle.std.specs.Prelude.{◌≡◌, ◌≢◌, ◌↔◌, Option, Some, None, IfSome, IsTrue};
ghost use Rattle.std.specs.Option.{option_map};
ghost use Rattle.std.specs.Str.{IsUtf8};
ghost use Rattle.btf_plain.specs.Error.{MeetsOrNoMemory};
ghost use Rattle.btf_plain.specs.Kind as kinds;
ghost use Rattle.btf_records.specs.BtfType.{record_of};
ghost use Rattle.btf_table.specs.Readable.{IsComparable, IsReadableEnd};
ghost use Rattle.vbtf.specs.Finding.{FindsFrom, IsSought, IsWanted, asked_kind, EndsFindingFrom, AnswersFrom};
ghost use Rattle.vbtf.specs.Status.{KeepsHandle};

use crate::fault::{CLOSED, Fault, INVALID_ARGUMENT, report};
use crate::handle::Handle;
use crate::taken::take_loan;
use btf::{Btf, BtfError, BtfKind, BtfType};
use btf_table::{allocator_of, comparable_end, is_named, type_count};

/// The number that asks for any kind.
const ANY_KIND: u32 = 0xffff_ffff;

/// The least id from `first` on of a type with this name and of the kind with this number, from 0 to 19; of any kind if
/// the number is 2^32 - 1. The name has no zero byte at its end.
///
/// Status 6 if the search reaches a type of the kind whose name cannot be read, 11 if no type from `first` on has the
/// kind and the name, 20 if an allocation fails, 101 if the handle's state is not 2, and 102 if the name is not UTF-8
/// or no kind has the number.
#[unsafe(no_mangle)]
pub extern "C" fn vbtf_lent_find_from(
    table: &mut Handle,
    name: &[u8],
    kind: u32,
    first: u32,
    id: &mut u32,
    fault: &mut Fault,
) -> u32
    ensures found { EndsFindingFrom table.old name.now kind first id.new fault.new result }
    ensures not_utf8 { table.old.state ≡ 2 → (IsUtf8 name.now → ⊥) → result ≡ INVALID_ARGUMENT }
    ensures no_kind { table.old.state ≡ 2 → asked_kind kind ≡ None → result ≡ INVALID_ARGUMENT }
    ensures closed { table.old.state ≢ 2 → result ≡ CLOSED }
    ensures kept { KeepsHandle table.old table.new }
{
    let Some(loan) = take_loan(table) else {
        return CLOSED;
    };
    let answer = find(&loan.get().btf, name, kind, first);
    *table = Handle::from_loan(loan);
    match answer {
        None => INVALID_ARGUMENT,
        Some(Ok(found)) => {
            *id = found;
            0
        }
        Some(Err(error)) => report(error, fault),
    }
}

/// The id of a kind and a name from an id on; None if the name is not UTF-8, or no kind has the number.
fn find(table: &Btf, name: &[u8], kind: u32, first: u32) -> Option<Result<u32, BtfError>>
    ensures { AnswersFrom table.now name.now kind first result }
{
    let Ok(name) = str::from_utf8(name) else {
        return None;
    };
    let wanted = asked(kind)?;
    Some(find_from(table, name, wanted, first))
}

/// The kind that a number asks for, or None for any kind. None if no kind has the number.
fn asked(number: u32) -> Option<Option<BtfKind>>
    ensures { option_map (option_map kinds.kind) result ≡ asked_kind number }
{
    if number == ANY_KIND {
        return Some(None);
    }
    match BtfKind::try_from(number) {
        Ok(kind) => Some(Some(kind)),
        Err(_) => None,
    }
}

/// The least id from `first` on of a type with this name and a wanted kind.
fn find_from(table: &Btf, name: &str, wanted: Option<BtfKind>, first: u32) -> Result<u32, BtfError>
    ensures { MeetsOrNoMemory (λ id. id) result (FindsFrom table.now.strings table.now.records
        (option_map kinds.kind wanted) name.now first) }
{
    let readable_end = comparable_end(table, name);
    let types = table.types().as_slice();
    for id in first..type_count(table) {
        if has_kind_and_name(table, &types[id as usize], wanted, name, readable_end)? {
            return Ok(id);
        }
    }
    Err(BtfError::UnknownBtfTypeName {
        type_name: name.to_string(allocator_of(table))?,
    })
}

/// Whether a type has a wanted kind and this name, or why its name cannot be read if it has a wanted kind.
fn has_kind_and_name(
    table: &Btf,
    btf_type: &BtfType,
    wanted: Option<BtfKind>,
    name: &str,
    readable_end: Option<usize>,
) -> Result<bool, BtfError>
    requires { IfSome readable_end
        (λ end. IsReadableEnd table.now.strings end × IsComparable name.now) }
    ensures { MeetsOrNoMemory (λ b. b) result (IsSought table.now.strings
        (option_map kinds.kind wanted) name.now (record_of btf_type.now)) }
{
    if !is_wanted(btf_type, wanted) {
        return Ok(false);
    }
    is_named(table, btf_type.name_offset(), name, readable_end)
}

/// Whether a type has a wanted kind.
fn is_wanted(btf_type: &BtfType, wanted: Option<BtfKind>) -> bool
    ensures { IsTrue result ↔ IsWanted (option_map kinds.kind wanted) (record_of btf_type.now) }
{
    match wanted {
        Some(kind) => btf_type.kind() == kind,
        None => true,
    }
}
