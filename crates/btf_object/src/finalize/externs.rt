//! Externs, which stay as the compiler wrote them in a table for loaders.

ghost use Rattle.std.specs.Prelude.{◌≡◌, true, false, Some, IfSome, IfNone, IfErr, OnOk};
ghost use Rattle.btf_records.specs.BtfType.{type_kind};
ghost use Rattle.btf_rewrite_model.specs.Made.{record_at};
ghost use Rattle.btf_object_model.specs.Externs as model;
ghost use Rattle.btf_object_model.specs.Finalized.{is_of_externs};
ghost use Rattle.btf_object_model.specs.Externs.{with_old_extern, with_old_section, for_loaders, table_has_externs};
ghost use Rattle.btf_object.specs.Externs.{IsSectionOfExterns, StillSection};

use crate::finalize::kconfig::data_sec;
use crate::names::NAME_LIMIT;
use btf_plain::BtfError;
use btf_records::{BtfType, DataSec};
use btf_table::{Btf, set_type, short_name, type_count};

/// Whether a name is `.ksyms` or `.kconfig`.
fn is_externs_name(name: &[u8]) -> bool
    ensures { result ≡ is_of_externs name.now }
{
    name == b".ksyms".as_slice() || name == b".kconfig".as_slice()
}

/// Whether the entries of a DATASEC are externs.
fn are_externs(btf: &Btf, section: &DataSec) -> bool
    ensures { result ≡ model.has_externs btf.now section.now }
{
    match short_name(btf, section.name_offset(), NAME_LIMIT) {
        Some(name) => is_externs_name(name),
        None => false,
    }
}

/// The DATASEC of an id, if its entries are externs.
fn externs_section(btf: &Btf, type_id: u32) -> Option<&DataSec>
    ensures some { IfSome result (λ s. IsSectionOfExterns btf.now type_id s.now) }
    ensures none { IfNone result (model.has_externs btf.now (record_at btf.now type_id) ≡ false) }
{
    let section = data_sec(btf, type_id)?;
    if are_externs(btf, section) {
        Some(section)
    } else {
        None
    }
}

/// Whether the type of an id is a DATASEC whose entries are externs.
fn is_externs_section(btf: &Btf, type_id: u32) -> bool
    ensures { result ≡ model.has_externs btf.now (record_at btf.now type_id) }
{
    externs_section(btf, type_id).is_some()
}

/// Whether a table has a DATASEC of externs: one named `.ksyms` or `.kconfig`. libbpf needs it to open an object whose
/// symbols are declared by such externs.
pub fn has_externs(btf: &Btf) -> bool
    ensures { result ≡ table_has_externs btf.now }
{
    for type_id in 0..type_count(btf) {
        if is_externs_section(btf, type_id) {
            return true;
        }
    }
    false
}

/// Whether two types are VARs, or are FUNCs.
fn is_still_extern(old: &BtfType, new: &BtfType) -> bool
    ensures { result ≡ model.is_still_extern (Some (type_kind old.now)) (Some (type_kind new.now)) }
{
    match (old, new) {
        (BtfType::Var(_), BtfType::Var(_)) | (BtfType::Func(_), BtfType::Func(_)) => true,
        _ => false,
    }
}

/// Puts the old type of an id into the new table, if both types are VARs or FUNCs. `OutOfMemory` is the only error.
fn put_extern(old: &Btf, btf: &mut Btf, type_id: u32) -> Result<(), BtfError>
    ensures made { OnOk result (btf.new ≡ with_old_extern old.now type_id btf.old) }
    ensures memory { IfErr result (λ e. e ≡ BtfError.OutOfMemory) }
{
    let Ok(before) = old.type_by_id(type_id) else {
        return Ok(());
    };
    let Ok(now) = btf.type_by_id(type_id) else {
        return Ok(());
    };
    if !is_still_extern(before, now) {
        return Ok(());
    }
    set_type(btf, type_id, before.try_clone()?);
    Ok(())
}

/// Whether the type of an id is a DATASEC with as many entries as this one.
fn is_still_section(section: &DataSec, btf: &Btf, type_id: u32) -> bool
    ensures some { result ≡ true → StillSection btf.now type_id section.now }
    ensures value { result ≡ model.is_still_section section.now (record_at btf.now type_id) }
{
    match data_sec(btf, type_id) {
        Some(found) => found.entries().len() == section.entries().len(),
        None => false,
    }
}

/// Puts the old DATASEC of an id into the new table, and the types of its entries that are still VARs or FUNCs, if it
/// is a DATASEC of externs and still a DATASEC. `OutOfMemory` is the only error.
fn put_section(old: &Btf, btf: &mut Btf, type_id: u32) -> Result<(), BtfError>
    ensures made { OnOk result (btf.new ≡ with_old_section old.now type_id btf.old) }
    ensures memory { IfErr result (λ e. e ≡ BtfError.OutOfMemory) }
{
    let Some(section) = externs_section(old, type_id) else {
        return Ok(());
    };
    if !is_still_section(section, btf, type_id) {
        return Ok(());
    }
    set_type(btf, type_id, BtfType::DataSec(section.try_clone()?));
    for entry in section.entries() {
        put_extern(old, btf, entry.btf_type)?;
    }
    Ok(())
}

/// Puts the externs of the old table into the new one: each DATASEC of externs that is still a DATASEC, and the types
/// of its entries that are still VARs or FUNCs. `OutOfMemory` is the only error.
pub fn put_externs(old: &Btf, btf: &mut Btf) -> Result<(), BtfError>
    ensures made { OnOk result (btf.new ≡ for_loaders old.now btf.old) }
    ensures memory { IfErr result (λ e. e ≡ BtfError.OutOfMemory) }
{
    for type_id in 0..type_count(old) {
        put_section(old, btf, type_id)?;
    }
    Ok(())
}
