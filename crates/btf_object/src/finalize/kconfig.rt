//! `.kconfig`: the variables to which a loader gives values of the kernel's configuration.

ghost use Rattle.btf_model.specs.Record.{vlen};
ghost use Rattle.std.specs.Prelude.{◌≡◌, ◌<◌, ◌≤◌, ◌^◌, [], ◌∷◌, false, length, map, IfOk, IfErr, IfSome, IfNone, OnOk};
ghost use Rattle.std.specs.Option.{option_map};
ghost use Rattle.btf_rewrite_model.specs.Made.{section_entries};
ghost use Rattle.btf_table.specs.KsymsStep.{model_entry as entry_of};
ghost use Rattle.btf_object_model.specs.Kconfig as model;
ghost use Rattle.btf_object_model.specs.Kconfig.{FindsText, FindsValue, FindsExtern, FindsExterns, IsConfigured, total};
ghost use Rattle.btf_rewrite_model.specs.Made.{kind_at};
ghost use Rattle.btf_object_model.specs.Finalized.{has_data_sec_kind};
ghost use Rattle.btf_object.specs.Kconfig.{config_value_of, model_extern, has_var_kind, IsVariable, IsDataSec, LaysOutSection, MakesGlobal, FindsKconfig, HasDataSecOf, PutsSection, AreLaidOut};

use crate::names::NAME_LIMIT;
use btf_plain::{BtfArray, BtfError, BtfKind, DataSecEntry, Var, VarLinkage};
use btf_records::{BtfType, DataSec};
use btf_table::{Btf, set_type, short_name};
use std::alloc::{AllocError, Global};
use std::cmp::Reverse;

/// The name of the DATASEC of these variables.
const KCONFIG: &str = ".kconfig";

/// A value of the configuration in memory.
#[derive(Clone, Copy)]
struct Value {
    /// The number of its bytes.
    size: u32,
    /// The alignment of its offset in bytes.
    alignment: u32,
}

/// A variable of `.kconfig`.
#[derive(Clone, Copy)]
struct Extern<'a> {
    entry: &'a DataSecEntry,
    value: Value,
    name: &'a [u8],
}

/// The variable of an id, if its type is a VAR.
fn variable(btf: &Btf, type_id: u32) -> Option<&Var>
    ensures some { IfSome result (λ var. IsVariable btf.now type_id var.now) }
    ensures none { IfNone result (has_var_kind (kind_at btf.now type_id) ≡ false) }
{
    match btf.type_by_id(type_id).ok()? {
        BtfType::Var(var) => Some(var),
        _ => None,
    }
}

/// The DATASEC of an id, if its type is one.
pub fn data_sec(btf: &Btf, type_id: u32) -> Option<&DataSec>
    ensures some { IfSome result (λ data_sec. IsDataSec btf.now type_id data_sec.now) }
    ensures none { IfNone result (has_data_sec_kind (kind_at btf.now type_id) ≡ false) }
{
    match btf.type_by_id(type_id).ok()? {
        BtfType::DataSec(data_sec) => Some(data_sec),
        _ => None,
    }
}

/// A number of this size, which is 1, 2, 4 or 8 bytes.
fn number(size: u32) -> Option<Value>
    ensures { option_map config_value_of result ≡ model.config_number size }
{
    match size {
        1 | 2 | 4 | 8 => Some(Value {
            size,
            alignment: size,
        }),
        _ => None,
    }
}

/// The value of an array, if its elements are INTs of one byte: a text.
fn text(btf: &Btf, array: &BtfArray) -> Option<Value>
    ensures { FindsText btf.now (array.now.element_type ∷ array.now.index_type ∷ array.now.len
        ∷ []) (option_map config_value_of result) }
{
    let element = btf.resolve_type(array.element_type).ok()?;
    match btf.type_by_id(element).ok()? {
        BtfType::Int(int) if int.size() == 1 && array.len != 0 => Some(Value {
            size: array.len,
            alignment: 1,
        }),
        _ => None,
    }
}

/// The value of a type, after its modifiers: a number for an INT or an enumeration, or a text.
fn type_value(btf: &Btf, type_id: u32) -> Option<Value>
    ensures { FindsValue btf.now type_id (option_map config_value_of result) }
{
    let resolved = btf.resolve_type(type_id).ok()?;
    match btf.type_by_id(resolved).ok()? {
        BtfType::Int(int) => number(int.size()),
        BtfType::Enum(enumeration) => number(enumeration.size()),
        BtfType::Enum64(enumeration) => number(enumeration.size()),
        BtfType::Array(array) => text(btf, array.array()),
        _ => None,
    }
}

/// The extern of an entry, if its value and its name are known.
fn extern_of<'a>(btf: &'a Btf, entry: &'a DataSecEntry) -> Option<Extern<'a>>
    ensures { FindsExtern btf.now (entry_of entry.now) (option_map model_extern result) }
{
    let var = variable(btf, entry.btf_type)?;
    let Some(value) = type_value(btf, var.btf_type()) else {
        return None;
    };
    let name = short_name(btf, var.name_offset(), NAME_LIMIT)?;
    Some(Extern { entry, value, name })
}

/// The externs of the entries of a DATASEC, or None if one is not known.
fn externs_of<'a>(
    alloc: Global,
    btf: &'a Btf,
    data_sec: &'a DataSec,
) -> Result<Option<Vec<Extern<'a>>>, AllocError>
    ensures known { IfOk result (λ found. FindsExterns btf.now (section_entries data_sec.now.tail)
        (option_map (λ v. map model_extern v.items) found)) }
    ensures count { IfOk result (λ found. IfSome found
        (λ v. length v.items ≡ vlen data_sec.now.info)) }
{
    let mut externs = Vec::new(alloc);
    for entry in data_sec.entries() {
        let Some(found) = extern_of(btf, entry) else {
            return Ok(None);
        };
        externs.push(found)?;
    }
    Ok(Some(externs))
}

/// The entries of externs, one after another, and their total size; None if the size exceeds 32 bits.
fn lay_out(
    alloc: Global,
    externs: &[Extern<'_>],
) -> Result<Option<(Vec<DataSecEntry>, u32)>, AllocError>
    ensures some { IfOk result (λ o. IfSome o
        (λ made. AreLaidOut externs.now made.0.items made.1)) }
    ensures none { IfOk result (λ o. IfNone o (2 ^ 32 ≤ total (map model_extern externs.now))) }
{
    let mut entries = Vec::with_capacity(alloc, externs.len())?;
    let mut size = 0u32;
    for it in externs {
        entries.push(DataSecEntry {
            btf_type: it.entry.btf_type,
            offset: size,
            size: it.entry.size,
        })?;
        let Some(end) = size.checked_add(it.value.size) else {
            return Ok(None);
        };
        size = end;
    }
    Ok(Some((entries, size)))
}

/// A DATASEC with its externs in order, or None if it has a size or cannot be laid out. `OutOfMemory` is the only
/// error.
fn lay_out_section(
    alloc: Global,
    btf: &Btf,
    data_sec: &DataSec,
) -> Result<Option<DataSec>, BtfError>
    ensures made { IfOk result (LaysOutSection btf.now data_sec.now) }
    ensures memory { IfErr result (λ e. e ≡ BtfError.OutOfMemory) }
{
    // The contract is about the length of the record, which this shows.
    let _ = data_sec.info();
    if data_sec.size() != 0 {
        return Ok(None);
    }
    let Some(mut externs) = externs_of(alloc, btf, data_sec)? else {
        return Ok(None);
    };
    externs.sort_by_key(|it| (Reverse(it.value.alignment), it.value.size, it.name))?;
    let Some((entries, size)) = lay_out(alloc, &externs)? else {
        return Ok(None);
    };
    Ok(Some(DataSec::new(data_sec.name_offset(), entries, size)))
}

/// Makes a variable Global. A type that is no VAR is unchanged.
fn make_global(btf: &mut Btf, type_id: u32)
    ensures { MakesGlobal type_id btf.old btf.new }
{
    let Some(var) = variable(btf, type_id) else {
        return;
    };
    let global = Var::new(var.name_offset(), var.btf_type(), VarLinkage::Global);
    let global = global.with_info(var.info());
    set_type(btf, type_id, BtfType::Var(global));
}

/// The id of the first DATASEC named `.kconfig`, or None if it is not found. `OutOfMemory` is the only error.
fn find_kconfig(btf: &Btf) -> Result<Option<u32>, BtfError>
    ensures found { IfOk result (FindsKconfig btf.now) }
    ensures memory { IfErr result (λ e. e ≡ BtfError.OutOfMemory) }
{
    match btf.id_by_type_name_kind(KCONFIG, BtfKind::DataSec) {
        Ok(type_id) => Ok(Some(type_id)),
        Err(BtfError::OutOfMemory) => Err(BtfError::OutOfMemory),
        Err(_) => Ok(None),
    }
}

/// Puts a section in place of the DATASEC of an id, and makes its variables Global.
fn put_section(btf: &mut Btf, type_id: u32, section: DataSec)
    requires { HasDataSecOf btf.old type_id section }
    ensures { PutsSection type_id section btf.old btf.new }
{
    for entry in section.entries() {
        make_global(btf, entry.btf_type);
    }
    set_type(btf, type_id, BtfType::DataSec(section));
}

/// Lays out the first DATASEC named `.kconfig`, as libbpf does when it opens an object: if it has size 0 and all its
/// externs are known, they are sorted by alignment, size and name, and stand one after another, and their variables
/// become Global. `OutOfMemory` is the only error.
pub fn configure(alloc: Global, btf: &mut Btf) -> Result<(), BtfError>
    ensures made { OnOk result (IsConfigured btf.old btf.new) }
    ensures memory { IfErr result (λ e. e ≡ BtfError.OutOfMemory) }
{
    let Some(type_id) = find_kconfig(btf)? else {
        return Ok(());
    };
    let Some(found) = data_sec(btf, type_id) else {
        return Ok(());
    };
    let Some(section) = lay_out_section(alloc, btf, found)? else {
        return Ok(());
    };
    put_section(btf, type_id, section);
    Ok(())
}
