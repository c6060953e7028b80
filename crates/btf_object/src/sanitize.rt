//! Objects that are rewritten for a kernel.

ghost use Rattle.std.specs.Prelude.{◌≡◌, Option, None, IfOk, IfErr, IfSome, IfNone};
ghost use Rattle.btf_object_model.specs.Sanitized.{IsSanitized, first_section_index, table_name};
ghost use Rattle.btf_object.specs.Names.{IsTableSection};
ghost use Rattle.btf_object_model.specs.SanitizedFinalized.{IsSanitizedFinalized};
ghost use Rattle.btf_object.specs.Errors.{target_of, IsSanitizeCause, IsFinalizedCause, target_for};
ghost use Rattle.btf_object.specs.Kernel.{kernel_has};
ghost use Rattle.btf_object.specs.Ext.{KeepsItsExt};

use crate::error::SanitizeError;
use crate::kernel::Kernel;
use crate::table::{finalize_table, rewrite_table};
use arrayvec::ArrayVec;
use btf_elf::Object;
use btf_object_model::TableReader;
use btf_rewrite_model::{FeatureAnswer, FillPolicy};
use std::alloc::Global;
use std::hash::{BuildHasher, BuildHasherDefault, FoldHasher};

/// The index and the bytes of the first section that is named `.BTF`.
fn table_section<'a>(object: &Object<'a>) -> Option<(usize, &'a [u8])>
    ensures some { IfSome result (λ found. IsTableSection object.now found.0 found.1.now) }
    ensures none { IfNone result (first_section_index object.now table_name ≡ None) }
{
    let index = object.section_by_name(b".BTF")?;
    let section = object.sections().get(index)?;
    Some((index, object.section_bytes(section)))
}

/// The object with its table rewritten for a kernel, and the features that the rewrite asked for. This is
/// `sanitize_object_with` without a placeholder and with the default hasher, with the same errors.
pub fn sanitize_object(
    alloc: Global,
    bytes: &[u8],
    kernel: &Kernel,
    policy: FillPolicy,
) -> Result<(Vec<u8>, ArrayVec<FeatureAnswer, 8>), SanitizeError>
    ensures sanitized { IfOk result (λ r. IsSanitized bytes.now
        (target_of kernel.now policy None) r.0.items r.1.items) }
    ensures ext { IfOk result (λ r. KeepsItsExt bytes.now r.0.items) }
    ensures refused { IfErr result (IsSanitizeCause bytes.now (target_of kernel.now policy None)) }
{
    let hash_builder: BuildHasherDefault<FoldHasher> = BuildHasherDefault::new();
    sanitize_object_with(alloc, bytes, kernel, policy, None, hash_builder)
}

/// The object with its table rewritten for a kernel, and the features that the rewrite asked for, each with whether the
/// kernel has it. The first section named `.BTF` has the bytes of the rewritten table, and no other section changes.
/// The words of the table have the object's byte order. `placeholder` is the name of the variable that replaces
/// functions in `.ksyms`; it is searched for only if the table has a DATASEC named `.ksyms`.
///
/// `hash_builder` hashes the names of the object's sections and symbols. The default has a fixed seed, so an attacker
/// can choose names that collide, and n of them take time in proportion to n squared. For an untrusted object, pass a
/// hasher with random keys, as `RandomState`.
///
/// Reports the first error, in this order: `Object`, `NoTable`, `Table` with the errors of `Btf::parse`, of `ksyms_of`
/// and of `Btf::fixup_and_sanitize_with`, and `Section`. An allocation failure is reported as `OutOfMemory`.
pub fn sanitize_object_with<H: BuildHasher + Clone + Drop>(
    alloc: Global,
    bytes: &[u8],
    kernel: &Kernel,
    policy: FillPolicy,
    placeholder: Option<&str>,
    hash_builder: H,
) -> Result<(Vec<u8>, ArrayVec<FeatureAnswer, 8>), SanitizeError>
    // The new file is the old object with the written form of the rewritten table in its section `.BTF`.
    ensures sanitized { IfOk result (λ r. IsSanitized bytes.now
        (target_for kernel.now policy placeholder.entry) r.0.items r.1.items) }
    // With the new table its section `.BTF.ext` has the same contents as with the old table.
    ensures ext { IfOk result (λ r. KeepsItsExt bytes.now r.0.items) }
    // An error is the first one in the stated order.
    ensures refused { IfErr result (IsSanitizeCause bytes.now
        (target_for kernel.now policy placeholder.entry)) }
{
    let object = Object::parse(alloc, bytes)?;
    sanitize_parsed(alloc, &object, kernel, policy, placeholder, hash_builder)
}

/// `sanitize_object_with` of the bytes of an object that is already parsed, with the same errors.
pub fn sanitize_parsed<H: BuildHasher + Clone + Drop>(
    alloc: Global,
    object: &Object<'_>,
    kernel: &Kernel,
    policy: FillPolicy,
    placeholder: Option<&str>,
    hash_builder: H,
) -> Result<(Vec<u8>, ArrayVec<FeatureAnswer, 8>), SanitizeError>
    ensures sanitized { IfOk result (λ r. IsSanitized object.now.bytes
        (target_for kernel.now policy placeholder.entry) r.0.items r.1.items) }
    ensures ext { IfOk result (λ r. KeepsItsExt object.now.bytes r.0.items) }
    ensures refused { IfErr result (IsSanitizeCause object.now.bytes
        (target_for kernel.now policy placeholder.entry)) }
{
    // The contract is about the object of its bytes, which this shows.
    let _ = object.bytes();
    let Some((index, table)) = table_section(object) else {
        return Err(SanitizeError::NoTable);
    };
    let (written, answers) = rewrite_table(
        alloc,
        object,
        table,
        kernel,
        policy,
        placeholder,
        hash_builder,
    )?;
    let file = object.with_section(alloc, index, &written)?;
    Ok((file, answers))
}

/// The object with its table finalized as by libbpf, and then rewritten for a kernel, as this reader gets it; and the
/// features that the rewrite asked for, each with whether the kernel has it. The first section named `.BTF` has the
/// bytes of the new table, and no other section changes.
///
/// Before the rewrite, the variables of `.kconfig` are laid out, DATASECs get the sizes of their sections, and their
/// entries get the offsets of their variables and are sorted by them. Global functions and variables whose symbols are
/// hidden become Static; functions outside `.text` do not, because they are programs. If functions are in `.ksyms`, a
/// variable `dummy_ksym` is added, which replaces them. A DATASEC that has a size and no entries gets one if the kernel
/// requires it (`FillPolicy::FillSized`). After the rewrite, a STRUCT that was a DATASEC has the DATASEC's size.
///
/// `TableReader::Kernel` is for a caller that gives the new table to the kernel. `TableReader::Loaders` is for one that
/// gives the object to libbpf or another loader: each DATASEC named `.ksyms` or `.kconfig`, and each VAR and FUNC that
/// is an entry of it, is as in the old table, without a `dummy_ksym`, because a loader recognizes externs by their
/// linkage, and finalizes them itself. If the kernel has no DATASECs, loaders cannot open an object with externs
/// (`has_externs`), and the new table is the same for both readers.
///
/// `hash_builder` hashes the names of the object's sections and symbols. The default has a fixed seed, so an attacker
/// can choose names that collide, and n of them take time in proportion to n squared. For an untrusted object, pass a
/// hasher with random keys, as `RandomState`.
///
/// Reports the first error, in this order: `Object`, `NoTable`, `Table` with the errors of `Btf::parse`, of `ksyms_of`,
/// of `Btf::add_string` and `Btf::add_type` for the variable, and of `Btf::fixup_and_sanitize_with`, and `Section`. An
/// allocation failure is reported as `OutOfMemory`.
pub fn sanitize_finalized<H: BuildHasher + Clone + Drop>(
    alloc: Global,
    bytes: &[u8],
    kernel: &Kernel,
    reader: TableReader,
    hash_builder: H,
) -> Result<(Vec<u8>, ArrayVec<FeatureAnswer, 8>), SanitizeError>
    // The new file is the old object with the written form of the new table in its section `.BTF`.
    ensures sanitized { IfOk result (λ r. IsSanitizedFinalized bytes.now
        (kernel_has kernel.now) reader r.0.items r.1.items) }
    // With the new table its section `.BTF.ext` has the same contents as with the old table.
    ensures ext { IfOk result (λ r. KeepsItsExt bytes.now r.0.items) }
    // An error is the first one in the stated order.
    ensures refused { IfErr result (IsFinalizedCause bytes.now (kernel_has kernel.now) reader) }
{
    let object = Object::parse(alloc, bytes)?;
    sanitize_parsed_finalized(alloc, &object, kernel, reader, hash_builder)
}

/// `sanitize_finalized` of the bytes of an object that is already parsed, with the same errors.
pub fn sanitize_parsed_finalized<H: BuildHasher + Clone + Drop>(
    alloc: Global,
    object: &Object<'_>,
    kernel: &Kernel,
    reader: TableReader,
    hash_builder: H,
) -> Result<(Vec<u8>, ArrayVec<FeatureAnswer, 8>), SanitizeError>
    ensures sanitized { IfOk result (λ r. IsSanitizedFinalized object.now.bytes
        (kernel_has kernel.now) reader r.0.items r.1.items) }
    ensures ext { IfOk result (λ r. KeepsItsExt object.now.bytes r.0.items) }
    ensures refused { IfErr result (IsFinalizedCause object.now.bytes
        (kernel_has kernel.now) reader) }
{
    // The contract is about the object of its bytes, which this shows.
    let _ = object.bytes();
    let Some((index, table)) = table_section(object) else {
        return Err(SanitizeError::NoTable);
    };
    let (written, answers) = finalize_table(alloc, object, table, kernel, reader, hash_builder)?;
    Ok((object.with_section(alloc, index, &written)?, answers))
}
