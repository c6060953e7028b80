//! The sections of relocation records, one after another.

ghost use Rattle.std.specs.Prelude.{◌≡◌, ℕ, ◌+◌, ◌<◌, ◌++◌, ◌∷◌, [], Some, None, false, if◌then◌else◌, drop, length, map, option_map, is_err, IfOk, IfSome, IfNone, OnOk, true};
ghost use Rattle.std.specs.List.{list_any};
ghost use Rattle.btf_ext.specs.Relocation.{relocation};
ghost use Rattle.btf_model.specs.Text.{text_at};
ghost use Rattle.btf_loader_model.specs.Loader.{any_error, has_error, index_at, is_error, is_short_at, is_unreadable, relocated_at};
ghost use Rattle.btf_loader_model.specs.Refused.{BadRecord, BadSectionName, bad_outcome, bad_record, records_reason, sections_reason, reason_when};
ghost use Rattle.btf_loader.specs.Errors.{Reports};
ghost use Rattle.btf_loader.specs.Names.{HasIndices};
ghost use Rattle.btf_loader.specs.Places.{HasPlaces};
ghost use Rattle.btf_loader.specs.Results.{IsCodeRelocated, IsSectionRelocated, file_reason, file_relocated, left_by, left_by_code, left_in, loader_setting, outcomes_of, loader_section_reason, refuses_errors};
ghost use Rattle.btf_loader.specs.declared.step.Refusals.TheVariants.{Refuse};
ghost use Rattle.btf_relocate.specs.Sections.{is_shared};
ghost use Rattle.btf_table.specs.Readable.{IsReadableEnd};

use crate::error::LoaderError;
use crate::names::index_in;
use crate::places::Places;
use btf_elf::{Object, SectionHeader};
use btf_object::NAME_LIMIT;
use btf_plain::BtfError;
use btf_relocate::{
    CandidatePolicy, LeftCandidates, RelocationError, Report, Targets, relocate_records,
};
use btf_table::{Btf, short_name};
use std::alloc::{AllocError, Global};
use std::collections::BTreeMap;

/// What a record with an error does.
#[derive(Clone, Copy, Debug, PartialEq, Eq, Default)]
pub enum Refusals {
    /// It refuses the object.
    #[default]
    Refuse,
    /// It changes nothing, and its outcome is the error.
    Keep,
}

/// What became of a section of relocation records.
#[derive(Debug, Drop)]
pub struct SectionOutcomes {
    /// The string offset of the section's name.
    pub name_offset: u32,
    /// What was done for each record; None if no section of this name has bytes in the file.
    pub outcomes: Option<Vec<Report>>,
}

/// What the relocation of each section needs.
#[derive(Drop)]
pub struct Loader<'a, 'o, 't> {
    pub alloc: Global,
    pub object: &'a Object<'o>,
    /// The first section of each name.
    pub named: &'a BTreeMap<&'o [u8], usize>,
    pub places: &'a Places,
    /// The end of the string offsets at which a text can be read, if it is known.
    pub readable_end: Option<usize>,
    pub local: &'a Btf,
    pub targets: &'a Targets<'a, 't>,
    pub policy: CandidatePolicy,
    pub refusals: Refusals,
}

impl<'a, 'o, 't> Loader<'a, 'o, 't> {
    /// Relocates the code of each section of records in the file. The records of all sections share the candidates of
    /// a type.
    pub fn relocate(
        &self,
        relocations: &[(u32, Vec<[u32; 4]>)],
        file: &mut [u8],
    ) -> Result<Vec<SectionOutcomes>, LoaderError>
        requires named { HasIndices self.now.named.now self.now.object.now }
        requires placed { HasPlaces self.now.places.now self.now.object.now.sections }
        requires readable { IfSome self.now.readable_end
            (IsReadableEnd self.now.local.now.strings) }
        ensures relocated { IfOk result (λ r. (map outcomes_of r.items, file.new)
            ≡ file_relocated self.now file.old (map relocation relocations.now)) }
        ensures refused { IfOk result (λ r. self.now.refusals ≡ Refuse
            → any_error (map outcomes_of r.items) ≡ false) }
        ensures readable { OnOk result (list_any (is_unreadable self.now.local.now.strings)
            (map relocation relocations.now) ≡ false) }
        ensures reports { Reports (file_reason self.now file.old (map relocation relocations.now))
            result }
    {
        let mut left = LeftCandidates::new(self.alloc);
        let mut all = Vec::with_capacity(self.alloc, relocations.len())?;
        for index in 0..relocations.len() {
            let section = relocation_at(relocations, index);
            let outcomes = self.relocate_section(section, &mut left, file)?;
            push(&mut all, section.0, outcomes)?;
        }
        Ok(all)
    }

    /// Relocates the code of one section of records. `left` are the candidates that the sections before it have left.
    fn relocate_section(
        &self,
        section: &(u32, Vec<[u32; 4]>),
        left: &mut LeftCandidates<'a, 't>,
        file: &mut [u8],
    ) -> Result<Option<Vec<Report>>, LoaderError>
        requires named { HasIndices self.now.named.now self.now.object.now }
        requires placed { HasPlaces self.now.places.now self.now.object.now.sections }
        requires readable { IfSome self.now.readable_end
            (IsReadableEnd self.now.local.now.strings) }
        ensures relocated { IfOk result (λ r. IsSectionRelocated self.now left.old file.old
            (relocation section.now) (option_map (λ v. v.items) r) file.new) }
        ensures left { OnOk result (left_in self.now left.new
            ≡ left_by self.now (left_in self.now left.old) (relocation section.now)) }
        ensures refused { IfOk result (λ r. self.now.refusals ≡ Refuse
            → has_error (option_map (λ v. v.items) r) ≡ false) }
        ensures readable { OnOk result
            (is_err (text_at self.now.local.now.strings section.now.0) ≡ false) }
        ensures reports { Reports (loader_section_reason self.now (left_in self.now left.old)
            file.old (relocation section.now)) result }
    {
        let Some(index) = self.index_of(section.0)? else {
            return Ok(None);
        };
        if self.places.is_shared(self.object, index) {
            return Err(LoaderError::SharedPlace { index });
        }
        let Some(header) = self.object.sections().get(index) else {
            return Ok(None);
        };
        let outcomes = self.relocate_code(header, &section.1, left, file)?;
        check(self.refusals, section.0, &outcomes)?;
        Ok(Some(outcomes))
    }

    /// Relocates the code of one section of the object, which is in its place in the file.
    fn relocate_code(
        &self,
        section: &SectionHeader,
        records: &[[u32; 4]],
        left: &mut LeftCandidates<'a, 't>,
        file: &mut [u8],
    ) -> Result<Vec<Report>, AllocError>
        ensures relocated { IfOk result (λ v. IsCodeRelocated self.now left.old file.old
            section.now records.now v.items file.new) }
        ensures left { OnOk result (left_in self.now left.new
            ≡ left_by_code self.now (left_in self.now left.old) records.now) }
    {
        let start = file.len().min(section.offset as usize);
        let len = (file.len() - start).min(section.size as usize);
        let code = &mut file[start..start + len];
        relocate_records(
            self.alloc,
            self.local,
            self.targets,
            records,
            code,
            self.policy,
            left,
        )
    }

    /// Whether a text can be read at a string offset; false if that is not known.
    fn is_readable(&self, name_offset: u32) -> bool
        requires { IfSome self.now.readable_end (IsReadableEnd self.now.local.now.strings) }
        ensures { result ≡ true → is_err (text_at self.now.local.now.strings name_offset) ≡ false }
    {
        match self.readable_end {
            Some(end) => (name_offset as usize) < end,
            None => false,
        }
    }

    /// The index of the first section that has bytes in the file, and the name at a string offset. A long name is not
    /// read to its end.
    fn index_of(&self, name_offset: u32) -> Result<Option<usize>, LoaderError>
        requires named { HasIndices self.now.named.now self.now.object.now }
        requires readable { IfSome self.now.readable_end
            (IsReadableEnd self.now.local.now.strings) }
        ensures index { IfOk result (λ index. index ≡ index_at
            (loader_setting self.now) self.now.object.now name_offset) }
        ensures readable { OnOk result
            (is_err (text_at self.now.local.now.strings name_offset) ≡ false) }
        ensures reports { Reports
            (reason_when (is_err (text_at self.now.local.now.strings name_offset))
            (BadSectionName name_offset)) result }
    {
        let is_short = is_short_at(self.local, name_offset);
        if !is_short && self.is_readable(name_offset) {
            return Ok(None);
        }
        match self.local.string_at(name_offset) {
            Ok(name) if is_short => Ok(index_in(self.named, name.as_str().as_bytes())),
            Ok(_name) => Ok(None),
            Err(BtfError::OutOfMemory) => Err(LoaderError::OutOfMemory),
            Err(_error) => Err(LoaderError::SectionName { name_offset }),
        }
    }
}

/// Whether the name at a string offset is shorter than `NAME_LIMIT` bytes. Reads at most `NAME_LIMIT` bytes.
fn is_short_at(local: &Btf, name_offset: u32) -> bool
    ensures { result ≡ is_short_at local.now.strings name_offset }
{
    short_name(local, name_offset, NAME_LIMIT).is_some()
}

/// The section of records at an index.
fn relocation_at(all: &[(u32, Vec<[u32; 4]>)], index: usize) -> &(u32, Vec<[u32; 4]>)
    requires { index < length all.now }
    ensures { drop index all.now ≡ result.now ∷ drop (index + 1) all.now }
{
    &all[index]
}

/// Appends the outcomes of a section of records.
fn push(
    all: &mut Vec<SectionOutcomes>,
    name_offset: u32,
    outcomes: Option<Vec<Report>>,
) -> Result<(), AllocError>
    ensures { OnOk result (all.new.items ≡ all.old.items
        ++ (record { name_offset = name_offset; outcomes = outcomes }) ∷ []) }
{
    all.push(SectionOutcomes {
        name_offset,
        outcomes,
    })?;
    Ok(())
}

/// Refuses a section of records if an outcome is an error, unless errors are kept.
fn check(refusals: Refusals, name_offset: u32, outcomes: &[Report]) -> Result<(), LoaderError>
    ensures refused { OnOk result (refusals ≡ Refuse → list_any is_error outcomes.now ≡ false) }
    ensures reports { Reports (if refuses_errors refusals
        then bad_outcome name_offset (Some outcomes.now) else None) result }
{
    match (refusals, first_error(outcomes)) {
        (Refusals::Refuse, Some((index, cause))) => Err(LoaderError::Refused {
            name_offset,
            index,
            cause,
        }),
        _ => Ok(()),
    }
}

/// The report at an index.
fn report_at(reports: &[Report], index: usize) -> &Report
    requires { index < length reports.now }
    ensures { drop index reports.now ≡ result.now ∷ drop (index + 1) reports.now }
{
    &reports[index]
}

/// The first outcome that is an error, with its index.
fn first_error(outcomes: &[Report]) -> Option<(usize, RelocationError)>
    ensures none { IfNone result (list_any is_error outcomes.now ≡ false) }
    ensures first { (name_offset : ℕ) → bad_record name_offset 0 outcomes.now
        ≡ option_map (λ found. BadRecord name_offset found.0 found.1) result }
{
    for index in 0..outcomes.len() {
        if let Err(cause) = report_at(outcomes, index).outcome {
            return Some((index, cause));
        }
    }
    None
}
