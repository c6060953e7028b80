//! The sizes of the STRUCTs that DATASECs became in a rewrite.

ghost use Rattle.std.specs.Prelude.{◌≡◌, ◌<◌, length, map, None, Some, Ok, IfOk, IfErr, OnOk};
ghost use Rattle.btf_model.specs.Table.{Table};
ghost use Rattle.btf_records.specs.BtfType.{record_of};
ghost use Rattle.btf_object_model.specs.Finalized.{with_ksyms_size, with_old_sizes};
ghost use Rattle.btf_object_model.specs.Ksyms.{FindsKsyms};
ghost use Rattle.btf_object.specs.Finalize.{data_sec_size, ResizesAt};

use btf_plain::{BtfError, BtfKind, BtfMember};
use btf_records::{BtfType, Struct};
use btf_rewrite_model::KsymsIds;
use btf_table::{Btf, set_type, type_count};
use std::alloc::{AllocError, Global};

/// The size of a DATASEC; None for another type.
fn data_sec_size(btf_type: &BtfType) -> Option<u32>
    ensures { result ≡ data_sec_size (record_of btf_type.now) }
{
    match btf_type.kind() {
        BtfKind::DataSec => btf_type.size(),
        _ => None,
    }
}

/// The size of each DATASEC by its id; None for other types.
fn data_sec_sizes(alloc: Global, btf: &Btf) -> Result<Vec<Option<u32>>, AllocError>
    ensures { IfOk result (λ v. v.items ≡ map data_sec_size btf.now.records) }
{
    let types = btf.types().as_slice();
    let mut sizes = Vec::with_capacity(alloc, types.len())?;
    for btf_type in types {
        sizes.push(data_sec_size(btf_type))?;
    }
    Ok(sizes)
}

/// The size of each DATASEC by its id, where `.ksyms`, whose ids are given if the table has it, has 4 bytes for each
/// entry; None for other types.
pub fn sizes_of(
    alloc: Global,
    btf: &Btf,
    ids: Option<KsymsIds>,
) -> Result<Vec<Option<u32>>, AllocError>
    requires { FindsKsyms btf.now None (Ok ids) }
    ensures { IfOk result
        (λ v. v.items ≡ map data_sec_size (with_ksyms_size btf.now ids).records) }
{
    let mut sizes = data_sec_sizes(alloc, btf)?;
    let Some(ids) = ids else {
        return Ok(sizes);
    };
    let Ok(BtfType::DataSec(data_sec)) = btf.type_by_id(ids.datasec_id) else {
        return Ok(sizes);
    };
    sizes[ids.datasec_id as usize] = Some(4 * data_sec.entries().len() as u32);
    Ok(sizes)
}

/// Copies of members.
fn copied(alloc: Global, members: &[BtfMember]) -> Result<Vec<BtfMember>, AllocError>
    ensures { IfOk result (λ v. v.items ≡ members.now) }
{
    let mut copied = Vec::with_capacity(alloc, members.len())?;
    for member in members {
        copied.push(BtfMember {
            name_offset: member.name_offset,
            btf_type: member.btf_type,
            offset: member.offset,
        })?;
    }
    Ok(copied)
}

/// Sets the size of the type of an id, if it is a STRUCT. `OutOfMemory` is the only error.
fn set_size(alloc: Global, btf: &mut Btf, type_id: u32, size: u32) -> Result<(), BtfError>
    requires { type_id < length btf.old.records }
    ensures made { OnOk result (ResizesAt type_id size btf.old btf.new) }
    ensures memory { IfErr result (λ e. e ≡ BtfError.OutOfMemory) }
{
    let Ok(BtfType::Struct(structure)) = btf.type_by_id(type_id) else {
        return Ok(());
    };
    let members = copied(alloc, structure.members())?;
    let sized = Struct::new(structure.name_offset(), members, size);
    set_type(btf, type_id, BtfType::Struct(sized));
    Ok(())
}

/// Sets the sizes of the STRUCTs that DATASECs became: `sizes` has the sizes of the DATASECs by id. `OutOfMemory` is
/// the only error.
pub fn set_sizes(alloc: Global, btf: &mut Btf, sizes: &[Option<u32>]) -> Result<(), BtfError>
    ensures made { (base : Table) → sizes.now ≡ map data_sec_size base.records
        → OnOk result (btf.new ≡ with_old_sizes base btf.old) }
    ensures memory { IfErr result (λ e. e ≡ BtfError.OutOfMemory) }
{
    for type_id in 0..type_count(btf) {
        if let Some(Some(size)) = sizes.get(type_id as usize) {
            set_size(alloc, btf, type_id, *size)?;
        }
    }
    Ok(())
}
