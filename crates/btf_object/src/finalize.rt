//! A table that is finalized from its object, as a loader does before it rewrites the table for a kernel.

mod externs;
mod hidden;
mod kconfig;
mod known;
mod placeholder;
mod section;
mod sized;

ghost use Rattle.std.specs.Prelude.{◌≡◌, ◌<◌, length, IfErr, OnOk};
ghost use Rattle.btf_model.specs.Record.{DataSec};
ghost use Rattle.btf_object_model.specs.Finalized.{IsFinalized};
ghost use Rattle.btf_object_model.specs.Layout.{object_layout};
ghost use Rattle.btf_object_model.specs.SanitizedFinalized.{IsOpened};
ghost use Rattle.btf_object.specs.Finalize.{AreNamesCached, FinalizesAt, layout_in};

pub use crate::finalize::externs::{has_externs, put_externs};
use crate::finalize::hidden::hide_all;
use crate::finalize::kconfig::configure;
use crate::finalize::known::KnownNames;
pub use crate::finalize::placeholder::add_placeholder;
use crate::finalize::section::final_section;
pub use crate::finalize::sized::{set_sizes, sizes_of};
use crate::layout::ObjectLayout;
use btf_elf::Object;
use btf_plain::BtfError;
use btf_records::BtfType;
use btf_table::{Btf, set_type, type_count};
use std::alloc::Global;
use std::hash::BuildHasher;

/// Finalizes the type of an id, if it is a DATASEC. `OutOfMemory` is the only error.
fn finalize_type<H: BuildHasher>(
    alloc: Global,
    btf: &mut Btf,
    layout: &ObjectLayout<H>,
    names: &mut KnownNames,
    type_id: u32,
) -> Result<(), BtfError>
    requires known { type_id < length btf.old.records }
    requires read { AreNamesCached btf.old.strings (layout_in layout.now) names.old }
    ensures made { OnOk result (FinalizesAt (layout_in layout.now) type_id btf.old btf.new) }
    ensures read { OnOk result (AreNamesCached btf.new.strings (layout_in layout.now) names.new) }
    ensures memory { IfErr result (λ e. e ≡ BtfError.OutOfMemory) }
{
    let Ok(BtfType::DataSec(data_sec)) = btf.type_by_id(type_id) else {
        return Ok(());
    };
    let section = final_section(alloc, btf, layout, names, data_sec)?;
    set_type(btf, type_id, BtfType::DataSec(section));
    Ok(())
}

/// Finalizes a table from its object: a DATASEC of size 0 gets the size of its section, and its entries get the offsets
/// of their variables, if all are known; and the entries of each DATASEC are sorted by offset. `OutOfMemory` is the
/// only error.
fn finalize<H: BuildHasher>(
    alloc: Global,
    btf: &mut Btf,
    layout: &ObjectLayout<H>,
) -> Result<(), BtfError>
    ensures made { OnOk result (IsFinalized (layout_in layout.now) btf.old btf.new) }
    ensures memory { IfErr result (λ e. e ≡ BtfError.OutOfMemory) }
{
    let mut names = KnownNames::new(alloc);
    for type_id in 0..type_count(btf) {
        finalize_type(alloc, btf, layout, &mut names, type_id)?;
    }
    Ok(())
}

/// Makes of a table what libbpf has of it when it has opened its object: `.kconfig` is laid out, the table is finalized,
/// and hidden functions and variables become Static. `OutOfMemory` is the only error.
#[tactic(auto, using(crate::proofs::Hiding::opened))]
pub fn open<H: BuildHasher + Drop>(
    alloc: Global,
    btf: &mut Btf,
    object: &Object<'_>,
    layout: &ObjectLayout<H>,
    hash_builder: H,
) -> Result<(), BtfError>
    requires layout { layout_in layout.now ≡ object_layout object.now }
    ensures made { OnOk result (IsOpened object.now btf.old btf.new) }
    ensures memory { IfErr result (λ e. e ≡ BtfError.OutOfMemory) }
{
    configure(alloc, btf)?;
    finalize(alloc, btf, layout)?;
    hide_all(alloc, btf, object, hash_builder)
}
