//! Reading a table.

ghost use Rattle.std.specs.Prelude.{◌≡◌, ◌≢◌, length, slice_get, Some, None, true, false};
ghost use Rattle.std.specs.Str.{IsUtf8};
ghost use Rattle.btf_model.specs.Record.{kinds};
ghost use Rattle.btf_plain.specs.Error.{Meets};
ghost use Rattle.btf_records.specs.BtfType.{record_of, type_kind, has_no_third};
ghost use Rattle.vbtf.specs.Status.{EndsCall, KeepsHandle};
ghost use Rattle.btf_view.specs.Forms.{words_in};
ghost use Rattle.vbtf.specs.TypeWords.{WordsOf};
ghost use Rattle.vbtf.specs.Finding.{EndsFindingName, AnswersName};

use crate::fault::{CLOSED, Fault, INVALID_ARGUMENT, report};
use crate::handle::Handle;
use crate::taken::take_loan;
use btf::{Btf, BtfError, BtfKind, BtfType};
use btf_view::TypeWords;

/// The number of types of a table, including the type of id 0.
///
/// Status 101 if the handle's state is not 2.
#[unsafe(no_mangle)]
pub extern "C" fn vbtf_lent_count(table: &mut Handle, count: &mut u64) -> u32
    ensures counted { table.old.state ≡ 2
        → (result ≡ 0) × (count.new ≡ length table.old.opened.btf.records) }
    ensures closed { table.old.state ≢ 2 → result ≡ CLOSED }
    ensures kept { KeepsHandle table.old table.new }
{
    let Some(loan) = take_loan(table) else {
        return CLOSED;
    };
    *count = count_of(&loan.get().btf);
    *table = Handle::from_loan(loan);
    0
}

/// The number of types of a table.
fn count_of(table: &Btf) -> u64
    ensures { result ≡ length table.now.records }
{
    table.types().as_slice().len() as u64
}

/// The first words of a type.
///
/// Status 9 if no type has the id, and 101 if the handle's state is not 2.
#[unsafe(no_mangle)]
pub extern "C" fn vbtf_lent_type(
    table: &mut Handle,
    id: u32,
    out: &mut TypeWords,
    fault: &mut Fault,
) -> u32
    ensures found { table.old.state ≡ 2 → EndsCall result out.new fault.new
        (WordsOf table.old.opened.btf.records id) }
    ensures closed { table.old.state ≢ 2 → result ≡ CLOSED }
    ensures kept { KeepsHandle table.old table.new }
{
    let Some(loan) = take_loan(table) else {
        return CLOSED;
    };
    let answer = words_of(&loan.get().btf, id);
    *table = Handle::from_loan(loan);
    match answer {
        Ok(words) => {
            *out = words;
            0
        }
        Err(error) => report(error, fault),
    }
}

/// The least id of a type with this kind and name. The kind is a number from 0 to 19, and the name has no zero byte at
/// its end.
///
/// Status 6 if a type of the kind with a lower id has a name that cannot be read, 11 if no type has the kind and
/// the name, 20 if an allocation fails, 101 if the handle's state is not 2, and 102 if the name is not UTF-8
/// or no kind has the number.
#[unsafe(no_mangle)]
pub extern "C" fn vbtf_lent_find(
    table: &mut Handle,
    name: &[u8],
    kind: u32,
    id: &mut u32,
    fault: &mut Fault,
) -> u32
    ensures found { EndsFindingName table.old name.now kind id.new fault.new result }
    ensures not_utf8 { table.old.state ≡ 2 → (IsUtf8 name.now → ⊥) → result ≡ INVALID_ARGUMENT }
    ensures no_kind { table.old.state ≡ 2 → slice_get kinds kind ≡ None
        → result ≡ INVALID_ARGUMENT }
    ensures closed { table.old.state ≢ 2 → result ≡ CLOSED }
    ensures kept { KeepsHandle table.old table.new }
{
    let Some(loan) = take_loan(table) else {
        return CLOSED;
    };
    let answer = find(&loan.get().btf, name, kind);
    *table = Handle::from_loan(loan);
    match answer {
        None => INVALID_ARGUMENT,
        Some(Ok(found)) => {
            *id = found;
            0
        }
        Some(Err(error)) => report(error, fault),
    }
}

/// The first words of the type of an id.
fn words_of(table: &Btf, id: u32) -> Result<TypeWords, BtfError>
    ensures { Meets (λ words. words) result (WordsOf table.now.records id) }
{
    Ok(words(table.type_by_id(id)?))
}

/// The first words of a type.
pub(crate) fn words(btf_type: &BtfType) -> TypeWords
    ensures { result ≡ words_in (record_of btf_type.now) }
{
    let info = btf_type.info();
    TypeWords {
        kind: info / 0x100_0000 % 32,
        name_offset: btf_type.name_offset(),
        info,
        size_or_type: third_word(btf_type),
    }
}

/// The third word of a record; 0 for an ARRAY and a FWD, which use none.
fn third_word(btf_type: &BtfType) -> u32
    ensures used { has_no_third (type_kind btf_type.now) ≡ false
        → result ≡ (record_of btf_type.now).third }
    ensures unused { has_no_third (type_kind btf_type.now) ≡ true → result ≡ 0 }
{
    match btf_type {
        BtfType::Int(t) => t.size(),
        BtfType::Ptr(t) => t.btf_type(),
        BtfType::Struct(t) => t.size(),
        BtfType::Union(t) => t.size(),
        BtfType::Enum(t) => t.size(),
        BtfType::Typedef(t) => t.btf_type(),
        BtfType::Volatile(t) => t.btf_type(),
        BtfType::Const(t) => t.btf_type(),
        BtfType::Restrict(t) => t.btf_type(),
        BtfType::Func(t) => t.btf_type(),
        BtfType::FuncProto(t) => t.return_type(),
        BtfType::Var(t) => t.btf_type(),
        BtfType::DataSec(t) => t.size(),
        BtfType::Float(t) => t.size(),
        BtfType::DeclTag(t) => t.btf_type(),
        BtfType::TypeTag(t) => t.btf_type(),
        BtfType::Enum64(t) => t.size(),
        BtfType::Array(_) | BtfType::Fwd(_) | BtfType::Unknown => 0,
    }
}

/// The id of a kind and a name; None if the name is not UTF-8, or no kind has the number.
fn find(table: &Btf, name: &[u8], kind: u32) -> Option<Result<u32, BtfError>>
    ensures { AnswersName table.now name.now kind result }
{
    let Ok(name) = str::from_utf8(name) else {
        return None;
    };
    let Ok(kind) = BtfKind::try_from(kind) else {
        return None;
    };
    Some(table.id_by_type_name_kind(name, kind))
}
