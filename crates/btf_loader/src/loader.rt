//! Objects whose code is relocated.

ghost use Rattle.std.specs.Prelude.{◌≡◌, false, length, map, option_map, None, IfOk, IfErr, OnOk};
ghost use Rattle.btf_loader_model.specs.Loader.{IsRelocated, any_error, bytes_named};
ghost use Rattle.btf_loader_model.specs.Refused.{IsReason, IsReasonAmong};
ghost use Rattle.btf_loader.specs.Errors.{IsLoaderCause};
ghost use Rattle.btf_loader.specs.Results.{HasRelocated, outcomes_of, refuses_errors};
ghost use Rattle.btf_loader.specs.declared.step.Refusals.TheVariants.{Refuse};
ghost use Rattle.btf_relocate.specs.Modules.{targets_view};
ghost use Rattle.btf_relocate.specs.Sections.{is_shared};

use crate::error::{LoaderError, ext_error};
use crate::names::sections_by_name;
use crate::places::Places;
use crate::step::{Loader, Refusals, SectionOutcomes};
use btf_elf::Object;
use btf_ext::BtfExt;
use btf_relocate::{CandidatePolicy, Target, Targets};
use btf_table::{Btf, comparable_end};
use std::alloc::Global;
use std::hash::{BuildHasher, BuildHasherDefault, FoldHasher};

/// The bytes of the first section of a name.
fn section_named<'a>(object: &Object<'a>, name: &[u8]) -> Option<&'a [u8]>
    ensures { option_map (λ b. b.now) result ≡ bytes_named object.now name.now }
{
    let index = object.section_by_name(name)?;
    let section = object.sections().get(index)?;
    Some(object.section_bytes(section))
}

/// The object with its code relocated for a target table, and the outcome of every relocation record. This is
/// `relocate_object_with` with the default hasher, with the same errors.
pub fn relocate_object(
    alloc: Global,
    bytes: &[u8],
    target: &Target<'_>,
    policy: CandidatePolicy,
    refusals: Refusals,
) -> Result<(Vec<u8>, Vec<SectionOutcomes>), LoaderError>
    // The outcomes of the records, and the object of the bytes with its code relocated.
    ensures relocated { IfOk result (λ r. IsRelocated bytes.now target.now (is_shared policy)
        (map outcomes_of r.1.items) r.0.items) }
    // Under `Refuse` no outcome is an error.
    ensures refused { IfOk result (λ r. refusals ≡ Refuse
        → any_error (map outcomes_of r.1.items) ≡ false) }
    ensures length { IfOk result (λ r. length r.0.items ≡ length bytes.now) }
    // Nothing is refused: the object, its table, `.BTF.ext`, and each section of records.
    ensures accepted { OnOk result (IsReason bytes.now target.now (is_shared policy)
        (refuses_errors refusals) None) }
    // An error is the first reason in the stated order.
    ensures cause { IfErr result (IsLoaderCause (IsReason bytes.now target.now (is_shared policy)
        (refuses_errors refusals))) }
{
    let hash_builder: BuildHasherDefault<FoldHasher> = BuildHasherDefault::new();
    relocate_object_with(alloc, bytes, target, policy, refusals, hash_builder)
}

/// The object with its code relocated for a target table, and the outcome of every relocation record: this is
/// `relocate_object_among` for a kernel without modules, with the same errors.
pub fn relocate_object_with<H: BuildHasher + Clone + Drop>(
    alloc: Global,
    bytes: &[u8],
    target: &Target<'_>,
    policy: CandidatePolicy,
    refusals: Refusals,
    hash_builder: H,
) -> Result<(Vec<u8>, Vec<SectionOutcomes>), LoaderError>
    // The outcomes of the records, and the object of the bytes with its code relocated.
    ensures relocated { IfOk result (λ r. IsRelocated bytes.now target.now (is_shared policy)
        (map outcomes_of r.1.items) r.0.items) }
    // Under `Refuse` no outcome is an error.
    ensures refused { IfOk result (λ r. refusals ≡ Refuse
        → any_error (map outcomes_of r.1.items) ≡ false) }
    ensures length { IfOk result (λ r. length r.0.items ≡ length bytes.now) }
    // Nothing is refused: the object, its table, `.BTF.ext`, and each section of records.
    ensures accepted { OnOk result (IsReason bytes.now target.now (is_shared policy)
        (refuses_errors refusals) None) }
    // An error is the first reason in the stated order.
    ensures cause { IfErr result (IsLoaderCause (IsReason bytes.now target.now (is_shared policy)
        (refuses_errors refusals))) }
{
    let targets = Targets {
        kernel: target,
        modules: &[],
    };
    relocate_object_among(alloc, bytes, &targets, policy, refusals, hash_builder)
}

/// The object with its code relocated for a kernel with modules, and the outcome of every relocation record. An
/// object without a section `.BTF.ext` comes back unchanged, without outcomes.
///
/// The sections of records are taken in the order of `.BTF.ext`. Each is applied to the code of the first section of
/// its name that has bytes in the file, by `relocate_section_among`; if there is none, it has no outcomes. The name is
/// read as `Btf::string_at` reads it, and one of 512 bytes or more names no section. If two sections of records have
/// one name, the second continues with the patched code.
///
/// `hash_builder` hashes the names of `.BTF.ext`. The default has a fixed seed, so an attacker can choose names that
/// collide, and n of them take time in proportion to n squared. For an untrusted object, pass a hasher with random
/// keys, as `RandomState`.
///
/// Reports the first error, in this order: `Object`, `NoTable`, `Table`, `Ext`; then for each section of records
/// `SectionName`, `SharedPlace`, and under `Refusals::Refuse` the first record with an error as `Refused`. An
/// allocation failure is reported as `OutOfMemory`.
pub fn relocate_object_among<H: BuildHasher + Clone + Drop>(
    alloc: Global,
    bytes: &[u8],
    targets: &Targets<'_, '_>,
    policy: CandidatePolicy,
    refusals: Refusals,
    hash_builder: H,
) -> Result<(Vec<u8>, Vec<SectionOutcomes>), LoaderError>
    // The outcomes of the records, and the object of the bytes with its code relocated.
    ensures relocated { IfOk result (λ r. HasRelocated bytes.now targets.now policy r.1.items
        r.0.items) }
    // Under `Refuse` no outcome is an error.
    ensures refused { IfOk result (λ r. refusals ≡ Refuse
        → any_error (map outcomes_of r.1.items) ≡ false) }
    ensures length { IfOk result (λ r. length r.0.items ≡ length bytes.now) }
    // Nothing is refused: the object, its table, `.BTF.ext`, and each section of records.
    ensures accepted { OnOk result (IsReasonAmong bytes.now (targets_view targets.now)
        (is_shared policy)
        (refuses_errors refusals) None) }
    // An error is the first reason in the stated order.
    ensures cause { IfErr result (IsLoaderCause (IsReasonAmong bytes.now (targets_view targets.now)
        (is_shared policy)
        (refuses_errors refusals))) }
{
    let object = Object::parse(alloc, bytes)?;
    let Some(table) = section_named(&object, b".BTF") else {
        return Err(LoaderError::NoTable);
    };
    let order = object.header().order;
    let local = Btf::parse(alloc, table, order)?;
    let mut file = Vec::from_slice(alloc, bytes)?;
    let Some(data) = section_named(&object, b".BTF.ext") else {
        return Ok((file, Vec::new(alloc)));
    };
    let ext = match BtfExt::parse_with_hasher(data, order, &local, hash_builder) {
        Ok(ext) => ext,
        Err(error) => return Err(ext_error(error)),
    };
    let named = sections_by_name(alloc, &object)?;
    let places = Places::read(alloc, &object)?;
    let loader = Loader {
        alloc,
        object: &object,
        named: &named,
        places: &places,
        // The end does not depend on the name.
        readable_end: comparable_end(&local, ""),
        local: &local,
        targets,
        policy,
        refusals,
    };
    let outcomes = loader.relocate(ext.relocations(), &mut file)?;
    Ok((file, outcomes))
}
