//! The rewrite of files for a kernel.

ghost use Rattle.std.specs.Prelude.{◌≡◌, ℕ, List, None, IfOk};
ghost use Rattle.btf_object.specs.Kernel.{kernel_has};
ghost use Rattle.std.specs.Option.{option_map};
ghost use Rattle.btf_table.specs.Layout.{sizes_of, offsets_of};
ghost use Rattle.btfobj_cli.specs.InputFile.{HasFileTable, HasTableOver, IsTableOf};
ghost use Rattle.btfobj_cli.specs.Changes.{FileHasExterns};
ghost use Rattle.btfobj_cli.specs.Rewrite.{chosen_target, RewritesTable, RewritesTableAlone, RewritesObject, RewritesFile};
ghost use Rattle.btfobj_cli.specs.Part.{RewritesFileOver, IsRewrittenOver};

use crate::fault::Fault;
use crate::input_file::InputFile;
use crate::part::sanitize_part;
use arrayvec::ArrayVec;
use btf_elf::Object;
use btf_object::{
    Kernel, TableReader, has_externs, ksyms_of, sanitize_parsed, sanitize_parsed_finalized,
};
use btf_plain::SectionIndex;
use btf_rewrite_model::{BtfFeature, FeatureAnswer, FillPolicy};
use btf_table::{Btf, BtfFeatureResolver};
use std::alloc::Global;
use std::collections::HashMap;
use std::hash::BuildHasher;

/// The settings of a rewrite.
#[derive(Clone, Copy, Debug)]
pub struct Rewrite<'a> {
    /// The features of the kernel.
    pub kernel: Kernel,
    /// The policy for a DATASEC that has a size and no entries.
    pub policy: FillPolicy,
    /// The name of the variable that replaces functions in `.ksyms`.
    pub placeholder: Option<&'a str>,
    /// Whether the table of an object is finalized before the rewrite, as `sanitize_finalized` does, whatever the
    /// policy and the placeholder are.
    pub is_finalized: bool,
    /// Who reads the table of an object that is finalized.
    pub reader: TableReader,
}

/// Rewrites the table of a file for a kernel. Returns the bytes of the new file, and the answers for the features that
/// the rewrite asked about. An object is rewritten as by `sanitize_finalized` or `sanitize_object_with`, with this
/// hasher. A table alone has no sections and no symbols. With a base, the table is split, and only its part above the
/// base is rewritten, as a table without sections and symbols, in an object too.
///
/// The errors are `UnknownFormat`, those of `InputFile::whole_table_over`, `Rewrite` with the error of these calls,
/// `Table` with the error of `ksyms_of` or of `Btf::fixup_and_sanitize_with`, and `OutOfMemory`.
pub fn sanitize<H: BuildHasher + Clone + Drop>(
    alloc: Global,
    bytes: &[u8],
    base: Option<&Btf>,
    rewrite: &Rewrite<'_>,
    hash_builder: H,
) -> Result<(Vec<u8>, ArrayVec<FeatureAnswer, 8>), Fault>
    // The new file of an object is the old one with the written form of the rewritten table in its section `.BTF`. The
    // new file of a table alone is the written form of the rewritten table. With a base this is its part above it.
    ensures { IfOk result (λ r. IsRewrittenOver bytes.now (option_map (λ b. b.now) base.entry)
        rewrite.now r.0.items r.1.items) }
{
    let input = InputFile::read(alloc, bytes)?;
    let table = input.whole_table_over(alloc, base)?;
    sanitize_parsed_input(alloc, &input, &table, base, rewrite, hash_builder)
}

/// The bytes of the table of a file: of the section `.BTF` of an object, or of the file. The errors are
/// `UnknownFormat`, `Object`, `NoSection` and `OutOfMemory`.
pub fn table_alone(alloc: Global, file: &[u8]) -> Result<Vec<u8>, Fault>
    ensures { IfOk result (λ table. IsTableOf file.now table.items) }
{
    let input = InputFile::read(alloc, file)?;
    Ok(Vec::from_slice(alloc, input.table_bytes()?)?)
}

/// Whether the table of a file has externs: a DATASEC named `.ksyms` or `.kconfig`. The errors are `UnknownFormat`, and
/// those of `InputFile::table`.
pub fn file_has_externs(alloc: Global, file: &[u8]) -> Result<bool, Fault>
    ensures { IfOk result (FileHasExterns file.now) }
{
    let input = InputFile::read(alloc, file)?;
    let table = input.table(alloc)?;
    Ok(has_externs(&table))
}

/// `sanitize` of a file whose table is already parsed: a table alone is not parsed again.
pub fn sanitize_parsed_input<H: BuildHasher + Clone + Drop>(
    alloc: Global,
    input: &InputFile<'_>,
    table: &Btf,
    base: Option<&Btf>,
    rewrite: &Rewrite<'_>,
    hash_builder: H,
) -> Result<(Vec<u8>, ArrayVec<FeatureAnswer, 8>), Fault>
    requires { HasTableOver input.now (option_map (λ b. b.now) base) table.now }
    ensures { IfOk result (λ r. RewritesFileOver input.now (option_map (λ b. b.now) base.entry)
        rewrite.now r.0.items r.1.items) }
{
    match base {
        Some(base) => sanitize_part(alloc, input, base, rewrite),
        None => sanitize_whole(alloc, input, table, rewrite, hash_builder),
    }
}

/// `sanitize` of a file without a base whose table is already parsed.
fn sanitize_whole<H: BuildHasher + Clone + Drop>(
    alloc: Global,
    input: &InputFile<'_>,
    table: &Btf,
    rewrite: &Rewrite<'_>,
    hash_builder: H,
) -> Result<(Vec<u8>, ArrayVec<FeatureAnswer, 8>), Fault>
    requires { HasFileTable input.now table.now }
    ensures { IfOk result (λ r. RewritesFile input.now rewrite.now r.0.items r.1.items) }
{
    match input {
        InputFile::Object(object) => rewrite_object(alloc, object, rewrite, hash_builder),
        InputFile::Table(_, _) => sanitize_table(alloc, table.try_clone()?, rewrite),
    }
}

/// Rewrites the table of an object: after it is finalized, or as it is.
fn rewrite_object<H: BuildHasher + Clone + Drop>(
    alloc: Global,
    object: &Object<'_>,
    rewrite: &Rewrite<'_>,
    hash_builder: H,
) -> Result<(Vec<u8>, ArrayVec<FeatureAnswer, 8>), Fault>
    ensures { IfOk result
        (λ r. RewritesObject object.now.bytes rewrite.now r.0.items r.1.items) }
{
    let kernel = &rewrite.kernel;
    if rewrite.is_finalized {
        let reader = rewrite.reader;
        return Ok(sanitize_parsed_finalized(alloc, object, kernel, reader, hash_builder)?);
    }
    Ok(sanitize_parsed(
        alloc,
        object,
        kernel,
        rewrite.policy,
        rewrite.placeholder,
        hash_builder,
    )?)
}

/// The sizes of the sections of a table alone: none.
fn no_sections(alloc: Global) -> HashMap<String, (SectionIndex, u64)>
    ensures { (name : List ℕ) → sizes_of result name ≡ None }
{
    HashMap::new(alloc)
}

/// The offsets of the symbols of a table alone: none.
fn no_symbols(alloc: Global) -> HashMap<String, u64>
    ensures { (name : List ℕ) → offsets_of result name ≡ None }
{
    HashMap::new(alloc)
}

/// Rewrites a table alone. Returns its bytes, and the answers for the features that the rewrite asked about.
fn sanitize_table(
    alloc: Global,
    mut table: Btf,
    rewrite: &Rewrite<'_>,
) -> Result<(Vec<u8>, ArrayVec<FeatureAnswer, 8>), Fault>
    ensures { IfOk result (λ r.
        RewritesTableAlone table (chosen_target rewrite.now) r.0.items r.1.items) }
{
    let answers = rewrite_table(alloc, &mut table, rewrite)?;
    Ok((table.to_bytes()?, answers))
}

/// Rewrites a table that has no sections and no symbols. Returns the answers for the features that the rewrite asked
/// about. The errors are `Table` with the error of `ksyms_of` or of `Btf::fixup_and_sanitize_with`, and `OutOfMemory`.
pub fn rewrite_table(
    alloc: Global,
    table: &mut Btf,
    rewrite: &Rewrite<'_>,
) -> Result<ArrayVec<FeatureAnswer, 8>, Fault>
    ensures { IfOk result (λ answers.
        RewritesTable table.old (chosen_target rewrite.now) table.new answers.items) }
{
    let ids = ksyms_of(table, rewrite.placeholder)?;
    let sections = no_sections(alloc);
    let symbols = no_symbols(alloc);
    let kernel = &rewrite.kernel;
    let has = |feature: BtfFeature| -> bool
        ensures { result ≡ kernel_has kernel.entry.now feature }
    { kernel.has(feature) };
    let mut resolver = BtfFeatureResolver::new(has);
    Ok(table.fixup_and_sanitize_with(&sections, &symbols, ids, rewrite.policy, &mut resolver)?)
}
