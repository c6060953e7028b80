//! The rewrite of an object's table.

ghost use Rattle.std.specs.Prelude.{◌≡◌, None, Ok, IfOk, IfErr, IfSome, OnOk};
ghost use Rattle.btf_model.specs.Table.{Table};
ghost use Rattle.btf_model.specs.Blob.{canon, IsTable, IsRefusal};
ghost use Rattle.btf_rewrite_model.specs.Pass.{Asked};
ghost use Rattle.btf_rewrite_model.specs.Rewritten.{pass_of, Rewritten, IsRefused};
ghost use Rattle.btf_rewrite_model.specs.FeatureSet.{answers_of};
ghost use Rattle.btf_object_model.specs.Sanitized.{RewritesTable, RefusesTable, AreAnswers};
ghost use Rattle.btf_object_model.specs.SanitizedFinalized as model;
ghost use Rattle.btf_object_model.specs.SanitizedFinalized.{RefusesFinalized, begun_table};
ghost use Rattle.btf_object_model.specs.Ksyms.{FindsKsyms};
ghost use Rattle.btf_object_model.specs.Externs.{for_reader};
ghost use Rattle.btf_plain.specs.Error.{refusal_of, IsOrNoMemory};
ghost use Rattle.btf_object.specs.Errors.{target_of, target_for, IsFinalizedBlob, WritesRewritten, AnswersPass, begins_with};
ghost use Rattle.btf_object.specs.Kernel.{kernel_has, kernel_answers};
ghost use Rattle.btf_object.specs.Finalize.{layout_in};

use crate::finalize::{add_placeholder, open, put_externs, set_sizes, sizes_of};
use crate::kernel::Kernel;
use crate::ksyms::ksyms_of;
use crate::layout::ObjectLayout;
use arrayvec::ArrayVec;
use btf_elf::Object;
use btf_model::Endianness;
use btf_object_model::TableReader;
use btf_plain::BtfError;
use btf_rewrite_model::{BtfFeature, FeatureAnswer, FillPolicy, KsymsIds};
use btf_table::{Btf, BtfFeatureResolver};
use std::alloc::Global;
use std::hash::BuildHasher;

/// Rewrites a table for a kernel, with the sizes and the offsets of this layout. Returns the features that the rewrite
/// asked for, with the answers.
fn rewrite_for<H: BuildHasher>(
    btf: &mut Btf,
    layout: &ObjectLayout<H>,
    kernel: &Kernel,
    policy: FillPolicy,
    ids: Option<KsymsIds>,
) -> Result<ArrayVec<FeatureAnswer, 8>, BtfError>
    ensures rewritten { IfOk result (λ answers. Rewritten policy btf.old ids
        (layout_in layout.now) (kernel_answers kernel.now) btf.new) }
    ensures answers { IfOk result (λ answers. AnswersPass kernel.now policy btf.old ids
        (layout_in layout.now) answers.items) }
    ensures order { IfOk result (λ answers. btf.new.order ≡ btf.old.order) }
    ensures refused { IfErr result (λ e. IfSome (refusal_of e) (IsRefused policy btf.old ids
        (layout_in layout.now) (kernel_answers kernel.now))) }
{
    let has = |feature: BtfFeature| -> bool
        ensures { result ≡ kernel_has kernel.entry.now feature }
    { kernel.has(feature) };
    let mut resolver = BtfFeatureResolver::new(has);
    let answers = btf.fixup_and_sanitize_with(
        &layout.sections,
        &layout.symbols,
        ids,
        policy,
        &mut resolver,
    )?;
    Ok(answers)
}

/// Parses the bytes of a section of an object as a table, in the object's byte order, and rewrites the table for a
/// kernel. Returns the bytes of the new table, and the features that the rewrite asked for, with the answers.
/// `hash_builder` hashes the names of the object.
pub fn rewrite_table<H: BuildHasher + Clone + Drop>(
    alloc: Global,
    object: &Object<'_>,
    table: &[u8],
    kernel: &Kernel,
    policy: FillPolicy,
    placeholder: Option<&str>,
    hash_builder: H,
) -> Result<(Vec<u8>, ArrayVec<FeatureAnswer, 8>), BtfError>
    ensures made { IfOk result (λ r. WritesRewritten object.now table.now
        (target_for kernel.now policy placeholder.entry) r.0.items r.1.items) }
    ensures refused { IfErr result (λ e. IfSome (refusal_of e) (RefusesTable object.now table.now
        (target_for kernel.now policy placeholder.entry))) }
{
    let layout = ObjectLayout::read(alloc, object, hash_builder)?;
    let mut btf = Btf::parse(alloc, table, object.header().order)?;
    let ids = ksyms_of(&btf, placeholder)?;
    let answers = rewrite_for(&mut btf, &layout, kernel, policy, ids)?;
    Ok((btf.to_bytes()?, answers))
}

/// Whether functions of `.ksyms` get a placeholder in the table for this reader.
fn takes_placeholder(reader: TableReader, kernel: &Kernel) -> bool
    ensures { result ≡ model.takes_placeholder reader (kernel_has kernel.now) }
{
    match reader {
        TableReader::Kernel => true,
        TableReader::Loaders => !kernel.has(BtfFeature::DataSec),
    }
}

/// Appends the placeholder if the table for this reader takes one. Takes the ids of `.ksyms`, and returns them with the
/// id of the placeholder. Fails as `add_placeholder`.
fn begin(
    btf: &mut Btf,
    ids: Option<KsymsIds>,
    kernel: &Kernel,
    reader: TableReader,
) -> Result<Option<KsymsIds>, BtfError>
    requires { FindsKsyms btf.old None (Ok ids) }
    ensures answer { IsOrNoMemory (λ ids. ids) result
        (begins_with reader (kernel_has kernel.now) btf.old ids) }
    ensures table { OnOk result (btf.new ≡ begun_table
        (model.takes_placeholder reader (kernel_has kernel.now)) btf.old ids) }
{
    if takes_placeholder(reader, kernel) {
        add_placeholder(btf, ids)
    } else {
        Ok(ids)
    }
}

/// Makes of a rewritten table what its reader gets: for loaders it has the externs of the table that these bytes
/// represent. Fails as `Btf::parse` of the bytes.
fn give_to(
    alloc: Global,
    btf: &mut Btf,
    reader: TableReader,
    table: &[u8],
    order: Endianness,
) -> Result<(), BtfError>
    ensures made { (old : Table) → IsTable order table.now old
        → OnOk result (btf.new ≡ for_reader reader old btf.old) }
    ensures refused { IfErr result (λ e. IfSome (refusal_of e) (IsRefusal order table.now)) }
{
    match reader {
        TableReader::Kernel => Ok(()),
        TableReader::Loaders => {
            let old = Btf::parse(alloc, table, order)?;
            put_externs(&old, btf)
        }
    }
}

/// Parses the bytes of a section of an object as a table, in the object's byte order, makes of it what libbpf has of it
/// when it has opened the object, and rewrites it for a kernel. Returns the bytes of the new table for this reader, and
/// the features that the rewrite asked for, with the answers. `hash_builder` hashes the names of the object.
pub fn finalize_table<H: BuildHasher + Clone + Drop>(
    alloc: Global,
    object: &Object<'_>,
    table: &[u8],
    kernel: &Kernel,
    reader: TableReader,
    hash_builder: H,
) -> Result<(Vec<u8>, ArrayVec<FeatureAnswer, 8>), BtfError>
    ensures made { IfOk result (λ r. IsFinalizedBlob object.now table.now
        (kernel_has kernel.now) reader r.0.items r.1.items) }
    ensures refused { IfErr result (λ e. IfSome (refusal_of e)
        (RefusesFinalized object.now table.now (kernel_has kernel.now) reader)) }
{
    let layout = ObjectLayout::read(alloc, object, hash_builder.clone()?)?;
    let mut btf = Btf::parse(alloc, table, object.header().order)?;
    open(alloc, &mut btf, object, &layout, hash_builder)?;
    let ids = ksyms_of(&btf, None)?;
    let sizes = sizes_of(alloc, &btf, ids)?;
    let ids = begin(&mut btf, ids, kernel, reader)?;
    let answers = rewrite_for(&mut btf, &layout, kernel, FillPolicy::FillSized, ids)?;
    set_sizes(alloc, &mut btf, &sizes)?;
    give_to(alloc, &mut btf, reader, table, object.header().order)?;
    Ok((btf.to_bytes()?, answers))
}
