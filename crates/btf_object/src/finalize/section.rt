//! What becomes of a DATASEC.

ghost use Rattle.std.specs.Prelude.{◌≡◌, length, map, if◌then◌else◌, Some, None, IfSome, IfOk, IfErr, OnOk};
ghost use Rattle.std.specs.Option.{option_map};
ghost use Rattle.btf_model.specs.Record as model;
ghost use Rattle.btf_model.specs.Record.{kind_of, vlen};
ghost use Rattle.btf_rewrite_model.specs.Made.{section_entries};
ghost use Rattle.btf_table.specs.KsymsStep.{model_entry as entry_of};
ghost use Rattle.btf_object_model.specs.Finalized.{entry_offset, IsFinal};
ghost use Rattle.btf_object.specs.Finalize.{AreNamesCached, parts_of, completed_parts, final_parts, layout_in, entries_at_offsets};

use crate::finalize::known::KnownNames;
use crate::layout::ObjectLayout;
use btf_plain::{BtfError, DataSecEntry, VarLinkage};
use btf_records::{BtfType, DataSec};
use btf_table::Btf;
use std::alloc::{AllocError, Global};
use std::hash::BuildHasher;

/// The offset of an entry, if it is known: its own if its variable is Static or Extern, else the offset of its
/// variable's symbol. `OutOfMemory` is the only error.
fn entry_offset<H: BuildHasher>(
    btf: &Btf,
    layout: &ObjectLayout<H>,
    names: &mut KnownNames,
    entry: &DataSecEntry,
) -> Result<Option<u32>, BtfError>
    requires { AreNamesCached btf.now.strings (layout_in layout.now) names.old }
    ensures made { IfOk result (λ offset. offset ≡ entry_offset (layout_in layout.now) btf.now
        (entry_of entry.now)) }
    ensures read { OnOk result (AreNamesCached btf.now.strings (layout_in layout.now) names.new) }
    ensures memory { IfErr result (λ e. e ≡ BtfError.OutOfMemory) }
{
    let Ok(BtfType::Var(var)) = btf.type_by_id(entry.btf_type) else {
        return Ok(None);
    };
    let Some(symbol) = names.symbol(btf, layout, var.name_offset())? else {
        return Ok(None);
    };
    match var.linkage() {
        VarLinkage::Static | VarLinkage::Extern => Ok(Some(entry.offset)),
        _ => Ok(symbol),
    }
}

/// The entries at their offsets, or None if one of the offsets is not known. `OutOfMemory` is the only error.
fn place_entries<H: BuildHasher>(
    alloc: Global,
    btf: &Btf,
    layout: &ObjectLayout<H>,
    names: &mut KnownNames,
    data_sec: &DataSec,
) -> Result<Option<Vec<DataSecEntry>>, BtfError>
    requires { AreNamesCached btf.now.strings (layout_in layout.now) names.old }
    ensures made { IfOk result (λ o. option_map (λ v. map entry_of v.items) o
        ≡ entries_at_offsets (layout_in layout.now) btf.now data_sec.now) }
    ensures count { IfOk result (λ o. IfSome o (λ v. length v.items ≡ vlen data_sec.now.info)) }
    ensures read { OnOk result (AreNamesCached btf.now.strings (layout_in layout.now) names.new) }
    ensures memory { IfErr result (λ e. e ≡ BtfError.OutOfMemory) }
{
    let mut placed = Vec::new(alloc);
    for entry in data_sec.entries() {
        let Some(offset) = entry_offset(btf, layout, names, entry)? else {
            return Ok(None);
        };
        placed.push(DataSecEntry {
            btf_type: entry.btf_type,
            offset,
            size: entry.size,
        })?;
    }
    Ok(Some(placed))
}

/// Copies of entries.
fn copied(alloc: Global, entries: &[DataSecEntry]) -> Result<Vec<DataSecEntry>, AllocError>
    ensures { IfOk result (λ v. v.items ≡ entries.now) }
{
    let mut copied = Vec::with_capacity(alloc, entries.len())?;
    for entry in entries {
        copied.push(DataSecEntry {
            btf_type: entry.btf_type,
            offset: entry.offset,
            size: entry.size,
        })?;
    }
    Ok(copied)
}

/// The size and the entries of a DATASEC of size 0 that is completed; None for another DATASEC. `OutOfMemory` is the
/// only error.
fn complete<H: BuildHasher>(
    alloc: Global,
    btf: &Btf,
    layout: &ObjectLayout<H>,
    names: &mut KnownNames,
    data_sec: &DataSec,
) -> Result<Option<(u32, Vec<DataSecEntry>)>, BtfError>
    requires { AreNamesCached btf.now.strings (layout_in layout.now) names.old }
    ensures made { IfOk result (λ parts. option_map parts_of parts
        ≡ completed_parts (layout_in layout.now) btf.now data_sec.now) }
    ensures count { IfOk result (λ o. IfSome o
        (λ parts. length parts.1.items ≡ vlen data_sec.now.info)) }
    ensures read { OnOk result (AreNamesCached btf.now.strings (layout_in layout.now) names.new) }
    ensures memory { IfErr result (λ e. e ≡ BtfError.OutOfMemory) }
{
    if data_sec.size() != 0 {
        return Ok(None);
    }
    let Some(size) = names.size(btf, layout, data_sec.name_offset())? else {
        return Ok(None);
    };
    let Some(entries) = place_entries(alloc, btf, layout, names, data_sec)? else {
        return Ok(None);
    };
    Ok(Some((size, entries)))
}

/// The size and the entries of a DATASEC, completed if all is known. `OutOfMemory` is the only error.
fn size_and_entries<H: BuildHasher>(
    alloc: Global,
    btf: &Btf,
    layout: &ObjectLayout<H>,
    names: &mut KnownNames,
    data_sec: &DataSec,
) -> Result<(u32, Vec<DataSecEntry>), BtfError>
    requires { AreNamesCached btf.now.strings (layout_in layout.now) names.old }
    ensures made { IfOk result (λ parts. parts_of parts
        ≡ final_parts (layout_in layout.now) btf.now data_sec.now) }
    ensures count { IfOk result (λ parts. length parts.1.items ≡ vlen data_sec.now.info) }
    ensures read { OnOk result (AreNamesCached btf.now.strings (layout_in layout.now) names.new) }
    ensures memory { IfErr result (λ e. e ≡ BtfError.OutOfMemory) }
{
    match complete(alloc, btf, layout, names, data_sec)? {
        Some(parts) => Ok(parts),
        None => Ok((data_sec.size(), copied(alloc, data_sec.entries())?)),
    }
}

/// The DATASEC with its size, and with its entries at their offsets and in order. `OutOfMemory` is the only error.
pub fn final_section<H: BuildHasher>(
    alloc: Global,
    btf: &Btf,
    layout: &ObjectLayout<H>,
    names: &mut KnownNames,
    data_sec: &DataSec,
) -> Result<DataSec, BtfError>
    requires { AreNamesCached btf.now.strings (layout_in layout.now) names.old }
    ensures made { IfOk result (λ new. IsFinal (layout_in layout.now) btf.now
        (Some model.DataSec) data_sec.now new) }
    ensures kind { IfOk result (λ new. kind_of new.info ≡ Some model.DataSec) }
    ensures len { IfOk result (λ new. length new.tail ≡ length data_sec.now.tail) }
    ensures read { OnOk result (AreNamesCached btf.now.strings (layout_in layout.now) names.new) }
    ensures memory { IfErr result (λ e. e ≡ BtfError.OutOfMemory) }
{
    // The contract is about the length of the record, which this shows.
    let _ = data_sec.info();
    let (size, mut entries) = size_and_entries(alloc, btf, layout, names, data_sec)?;
    entries.sort_by_key(|entry| entry.offset)?;
    Ok(DataSec::new(data_sec.name_offset(), entries, size))
}
