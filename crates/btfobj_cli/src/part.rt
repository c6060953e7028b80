//! The rewrite of the part of a split table above its base, as of a module's types above the kernel's.

ghost use Rattle.std.specs.Prelude.{IfOk};
ghost use Rattle.btfobj_cli.specs.Rewrite.{chosen_target};
ghost use Rattle.btfobj_cli.specs.Part.{HasNamesOf, HasNewTable, HasRewrittenPart, RewritesPartOf};

use crate::fault::Fault;
use crate::input_file::{InputFile, TABLE_SECTION};
use crate::rewrite::{Rewrite, rewrite_table};
use arrayvec::ArrayVec;
use btf_object::SanitizeError;
use btf_plain::{BtfError, Fwd};
use btf_records::BtfType;
use btf_rewrite_model::FeatureAnswer;
use btf_split::{split_bytes, string_len, truncate};
use btf_table::{Btf, type_count};
use std::alloc::Global;

/// Rewrites the part of a file's table above its base. Returns the bytes of the new file, and the answers for the
/// features that the rewrite asked about. The base is neither rewritten nor written, so the new part is read over the
/// same base as the old one.
///
/// The errors are those of `InputFile::table_over`, `Table` with the error of `ksyms_of` or of
/// `Btf::fixup_and_sanitize_with`, and `Rewrite` if the section of an object cannot be replaced.
pub fn sanitize_part(
    alloc: Global,
    input: &InputFile<'_>,
    base: &Btf,
    rewrite: &Rewrite<'_>,
) -> Result<(Vec<u8>, ArrayVec<FeatureAnswer, 8>), Fault>
    ensures { IfOk result (λ r. RewritesPartOf input.now base.now (chosen_target rewrite.now)
        r.0.items r.1.items) }
{
    let (part, answers) = rewrite_part(alloc, input, base, rewrite)?;
    Ok((with_table(alloc, input, part)?, answers))
}

/// The bytes of the rewritten part of a file's table, and the answers.
fn rewrite_part(
    alloc: Global,
    input: &InputFile<'_>,
    base: &Btf,
    rewrite: &Rewrite<'_>,
) -> Result<(Vec<u8>, ArrayVec<FeatureAnswer, 8>), Fault>
    ensures { IfOk result (λ r. HasRewrittenPart input.now base.now
        (chosen_target rewrite.now) r.0.items r.1.items) }
{
    let names = names_of(base)?;
    let mut table = input.table_over(alloc, Some(&names))?;
    let answers = rewrite_table(alloc, &mut table, rewrite)?;
    let part = split_bytes(&table, type_count(base), string_len(base))?;
    Ok((part, answers))
}

/// A base of which only names are left: it has the base's strings, and for each type a FWD of its name. A rewrite
/// changes no FWD, appends nothing for it and asks for no feature, so over these names it is that of the part alone.
fn names_of(base: &Btf) -> Result<Btf, BtfError>
    ensures { IfOk result (λ names. HasNamesOf base.now names) }
{
    let mut names = base.try_clone()?;
    truncate(&mut names, 1, string_len(base))?;
    let types = base.types().as_slice();
    for id in 1..types.len() {
        let name = Fwd::new(types[id].name_offset(), false);
        names.add_type(BtfType::Fwd(name))?;
    }
    Ok(names)
}

/// A file with another table: the object with these bytes in its section `.BTF`, or these bytes alone.
fn with_table(alloc: Global, input: &InputFile<'_>, table: Vec<u8>) -> Result<Vec<u8>, Fault>
    ensures { IfOk result (λ file. HasNewTable input.now table.items file.items) }
{
    let InputFile::Object(object) = input else {
        return Ok(table);
    };
    let Some(index) = object.section_by_name(TABLE_SECTION.as_bytes()) else {
        return Err(Fault::NoSection(TABLE_SECTION));
    };
    match object.with_section(alloc, index, &table) {
        Ok(file) => Ok(file),
        Err(e) => Err(Fault::from(SanitizeError::from(e))),
    }
}
