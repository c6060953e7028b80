//! The records of a section.

ghost use Rattle.std.specs.Prelude.{◌≡◌, map, if◌then◌else◌, IfOk, OnOk};
ghost use Rattle.btf_relocate_model.specs.Instruction.{access_size};
ghost use Rattle.btf_relocate_model.specs.Modules.{first_matched};
ghost use Rattle.btf_relocate_model.specs.Resolution.{type_word};
ghost use Rattle.btf_relocate_model.specs.Section as model;
ghost use Rattle.btf_relocate_model.specs.Section.{candidates_of, relocated_section};
ghost use Rattle.btf_relocate_model.specs.declared.report.Matched.TheVariants.{Nothing};
ghost use Rattle.btf_relocate_model.specs.declared.report.Report.{Report as Said};
ghost use Rattle.btf_relocate.specs.Modules.{candidates_view, targets_view};
ghost use Rattle.btf_relocate.specs.Sections.{HasOthers, RelocatesSection, is_shared, setting};
ghost use Rattle.btf_relocate.specs.SectionsAmong.{LeavesAfter, LeavesAll, PatchedAmong, ReportedAmong, left_among, relocated_among, reported_among};

use crate::instruction::{instruction_at, patch};
use crate::lookup::{name_or_none, type_at};
use crate::modules::{Candidates, Targets, candidates_among_in, resolve_among_in};
use crate::target::Target;
use btf_relocate_model::{
    Change, Instruction, Matched, Patched, RelocationError, Report, Resolved, Slot,
};
use btf_table::Btf;
use btf_view::TableRef;
use std::alloc::{AllocError, Global};
use std::collections::BTreeMap;

/// Which candidates a record has.
#[derive(Clone, Copy, Debug, PartialEq, Eq, Default)]
pub enum CandidatePolicy {
    /// The records of one type share one list, from which each record with a match removes the types that do not match
    /// (libbpf).
    #[default]
    Shared,
    /// Each record has all candidates (the kernel).
    Fresh,
}

/// What became of a record: its instruction was patched or poisoned, or why nothing was written.
pub type Outcome = Result<Patched, RelocationError>;

/// Relocates the code of a section: each record is resolved and its instruction patched, in the order of the records.
/// Returns an outcome for each record.
///
/// The first word of a record is the offset of its instruction in the code, in bytes. A record with an error changes
/// no byte; the records after it are relocated. `OutOfMemory` is the only error of the call, and may leave some
/// instructions patched.
pub fn relocate_section(
    alloc: Global,
    local: &Btf,
    target: &Target<'_>,
    records: &[[u32; 4]],
    code: &mut [u8],
    policy: CandidatePolicy,
) -> Result<Vec<Outcome>, AllocError>
    ensures records { IfOk result (λ v. RelocatesSection policy local.now target.now code.old
        records.now v.items code.new) }
    ensures defined { IfOk result (λ v. (v.items, code.new)
        ≡ relocated_section (setting local.now target.now)
        (is_shared policy) code.old records.now) }
{
    let targets = Targets {
        kernel: target,
        modules: &[],
    };
    relocate_section_among(alloc, local, &targets, records, code, policy)
}

/// Relocates the code of a section for a kernel with modules; see [`relocate_section`], which does the same for one
/// table.
///
/// `OutOfMemory` is the only error of the call, and may leave some instructions patched.
pub fn relocate_section_among<'a, 't>(
    alloc: Global,
    local: &Btf,
    targets: &Targets<'a, 't>,
    records: &[[u32; 4]],
    code: &mut [u8],
    policy: CandidatePolicy,
) -> Result<Vec<Outcome>, AllocError>
    ensures { IfOk result (λ v. (v.items, code.new)
        ≡ relocated_among policy local.now targets.now code.old records.now) }
{
    let mut left = LeftCandidates::new(alloc);
    let reports = relocate_records(alloc, local, targets, records, code, policy, &mut left)?;
    outcomes_of(alloc, reports.as_slice())
}

/// The outcomes of these reports.
fn outcomes_of(alloc: Global, reports: &[Report]) -> Result<Vec<Outcome>, AllocError>
    ensures { IfOk result (λ v. v.items ≡ map (λ (r : Said). r.outcome) reports.now) }
{
    let mut outcomes = Vec::with_capacity(alloc, reports.len())?;
    for report in reports {
        outcomes.push(report.outcome)?;
    }
    Ok(outcomes)
}

/// The candidates that the records of a program have left so far, for each type of the program's table. The sections of
/// one program share them, as in libbpf.
#[derive(Drop)]
pub struct LeftCandidates<'a, 't> {
    /// The lists of the types that a record was about.
    lists: BTreeMap<u32, Candidates<'a, 't>>,
}

impl<'a, 't> LeftCandidates<'a, 't> {
    /// All candidates of each type, as before the first record.
    pub fn new(alloc: Global) -> LeftCandidates<'a, 't>
        ensures { LeavesAll result }
    {
        LeftCandidates {
            lists: BTreeMap::new(alloc),
        }
    }
}

/// Relocates the code of one section of a program for a kernel with modules, as [`relocate_section_among`], and returns
/// what was done for each record. `left` are the candidates that the sections before it have left.
///
/// `OutOfMemory` is the only error of the call, and may leave some instructions patched.
pub fn relocate_records<'a, 't>(
    alloc: Global,
    local: &Btf,
    targets: &Targets<'a, 't>,
    records: &[[u32; 4]],
    code: &mut [u8],
    policy: CandidatePolicy,
    left: &mut LeftCandidates<'a, 't>,
) -> Result<Vec<Report>, AllocError>
    ensures reported { IfOk result (λ v. (v.items, code.new)
        ≡ reported_among policy local.now targets.now left.old code.old records.now) }
    ensures left { OnOk result (LeavesAfter policy local.now targets.now left.old left.new
        records.now) }
{
    let local = TableRef::of_table(local);
    relocate_all(alloc, &local, targets, records, code, policy, left)
}

/// The same for a program's own table, whatever holds it.
fn relocate_all<'a, 't>(
    alloc: Global,
    local: &TableRef<'_>,
    targets: &Targets<'a, 't>,
    records: &[[u32; 4]],
    code: &mut [u8],
    policy: CandidatePolicy,
    left: &mut LeftCandidates<'a, 't>,
) -> Result<Vec<Report>, AllocError>
    ensures reported { IfOk result (λ v. (v.items, code.new)
        ≡ reported_among policy local.now targets.now left.old code.old records.now) }
    ensures left { OnOk result (LeavesAfter policy local.now targets.now left.old left.new
        records.now) }
{
    let mut reports = Vec::with_capacity(alloc, records.len())?;
    for record in records {
        let shared = &mut left.lists;
        let mut candidates = candidates_for(alloc, local, targets, record, policy, shared)?;
        let report = relocate(alloc, local, targets, record, &mut candidates, code);
        if let Err(RelocationError::OutOfMemory) = report.outcome {
            return Err(AllocError);
        }
        reports.push(report)?;
        if let CandidatePolicy::Shared = policy {
            left.lists.insert(record[1], candidates)?;
        }
    }
    Ok(reports)
}

/// The candidates for a record. Under [`CandidatePolicy::Shared`] they are taken from the lists that records before it
/// have left, if its type has one there.
fn candidates_for<'a, 't>(
    alloc: Global,
    local: &TableRef<'_>,
    targets: &Targets<'a, 't>,
    record: &[u32; 4],
    policy: CandidatePolicy,
    shared: &mut BTreeMap<u32, Candidates<'a, 't>>,
) -> Result<Candidates<'a, 't>, AllocError>
    ensures items { IfOk result (λ c. candidates_view c ≡ left_among policy local.now
        (targets_view targets.now) shared.old (type_word «record».now)) }
    ensures others { HasOthers (type_word «record».now) shared.old shared.new }
{
    match policy {
        CandidatePolicy::Shared => match shared.remove(&record[1]) {
            Some(candidates) => Ok(candidates),
            None => candidates_among_in(alloc, local, targets, record[1]),
        },
        CandidatePolicy::Fresh => candidates_among_in(alloc, local, targets, record[1]),
    }
}

/// Resolves a record and patches its instruction, and returns what was done.
fn relocate(
    alloc: Global,
    local: &TableRef<'_>,
    targets: &Targets<'_, '_>,
    record: &[u32; 4],
    candidates: &mut Candidates<'_, '_>,
    code: &mut [u8],
) -> Report
    ensures { ReportedAmong local.now (targets_view targets.now) «record».now candidates.old
        candidates.new code.old code.new result }
{
    let (order, offset) = (local.endianness(), record[0] as usize);
    let before = instruction_at(code, offset, order).ok();
    let (outcome, matched) = resolve_and_patch(alloc, local, targets, record, candidates, code);
    let after = instruction_at(code, offset, order).ok();
    Report {
        outcome,
        matched,
        change: change(&outcome, before, after),
    }
}

/// Resolves a record and patches its instruction. Returns the outcome, and the first type that matches.
fn resolve_and_patch(
    alloc: Global,
    local: &TableRef<'_>,
    targets: &Targets<'_, '_>,
    record: &[u32; 4],
    candidates: &mut Candidates<'_, '_>,
    code: &mut [u8],
) -> (Outcome, Matched)
    ensures { PatchedAmong local.now (targets_view targets.now) «record».now candidates.old
        candidates.new code.old code.new result.0 result.1 }
{
    match resolve_among_in(alloc, local, targets, record, candidates) {
        Ok(resolved) => {
            let outcome = patch(code, record[0] as usize, local.endianness(), &resolved);
            (outcome, first_matched(&resolved, candidates))
        }
        Err(error) => (Err(error), Matched::Nothing),
    }
}

/// The first of the candidates that a record has left, if one of them matches.
fn first_matched(resolved: &Resolved, candidates: &Candidates<'_, '_>) -> Matched
    ensures { result ≡ (if resolved.now.is_matched then first_matched (candidates_view candidates.now)
        else Nothing) }
{
    if resolved.is_matched {
        candidates.first()
    } else {
        Matched::Nothing
    }
}

/// The field of an instruction, before and after. It is lost if the instruction was poisoned.
fn change(outcome: &Outcome, before: Option<Instruction>, after: Option<Instruction>) -> Change
    ensures { result ≡ model.change_by outcome.now before after }
{
    if let Ok(Patched::Poisoned) = outcome {
        return Change::NoField;
    }
    match (before, after) {
        (Some(Instruction::Narrow(before)), Some(Instruction::Narrow(after))) => {
            slot_change(&before, &after)
        }
        (Some(Instruction::Wide(low, high)), Some(Instruction::Wide(new_low, new_high))) => {
            Change::Wide {
                before: (low.immediate, high.immediate),
                after: (new_low.immediate, new_high.immediate),
            }
        }
        _ => Change::NoField,
    }
}

/// The field of an instruction of one slot, before and after.
fn slot_change(before: &Slot, after: &Slot) -> Change
    ensures { result ≡ model.slot_change before.now after.now }
{
    match before.opcode % 8 {
        1..=3 => Change::Offset {
            before: before.offset,
            after: after.offset,
            size_before: access_size(before),
            size_after: access_size(after),
        },
        4 | 7 => Change::Immediate {
            before: before.immediate,
            after: after.immediate,
        },
        _ => Change::NoField,
    }
}

/// The number of bytes that a load or store reads or writes.
fn access_size(slot: &Slot) -> u8
    ensures { result ≡ access_size slot.now }
{
    match slot.opcode / 8 % 4 {
        0 => 4,
        1 => 2,
        2 => 1,
        _ => 8,
    }
}

/// The candidates of a type of the program's table, in a list for [`resolve`](crate::resolve); none if the id has no
/// type. Of more than 256, the list has the first 257, which are enough to refuse the record. `OutOfMemory` is the only
/// error.
pub fn candidates_of(
    alloc: Global,
    local: &Btf,
    target: &Target<'_>,
    type_id: u32,
) -> Result<Vec<u32>, AllocError>
    ensures { IfOk result (λ v. v.items ≡ candidates_of local.now target.now type_id) }
{
    let local = TableRef::of_table(local);
    candidates_in(alloc, &local, target, type_id)
}

/// The same for a program's own table, whatever holds it.
pub fn candidates_in(
    alloc: Global,
    local: &TableRef<'_>,
    target: &Target<'_>,
    type_id: u32,
) -> Result<Vec<u32>, AllocError>
    ensures { IfOk result (λ v. v.items ≡ candidates_of local.now target.now type_id) }
{
    match type_at(local, type_id) {
        Ok(btf_type) => {
            let name = name_or_none(local, btf_type.name_offset());
            target.candidates(alloc, name, btf_type.kind())
        }
        Err(_) => Ok(Vec::new(alloc)),
    }
}
