//! Objects whose code is relocated for a table.

ghost use Rattle.std.specs.Prelude.{◌≡◌, ◌≢◌, ◌<◌, ◌≤◌, ◌++◌, ◌∷◌, [], List, map, IfOk, IfErr};
ghost use Rattle.btf_loader.specs.Results.{outcomes_of, refuses_errors};
ghost use Rattle.btf_plain.specs.declared.error.BtfError.TheVariants.{OutOfMemory as NoMemory};
ghost use Rattle.btf_relocate.specs.Sections.{is_shared};
ghost use Rattle.vbtf.specs.Relocate.{shares_candidates, refuses_records, reports_in, all_reports, Counts, ReportsReason, EndsRelocating, EndsRelocatingFor};
ghost use Rattle.vbtf.specs.Status.{KeepsHandle};
ghost use Rattle.btf_relocate_model.specs.declared.report.Report.{Report as Said};

use crate::fault::{CLOSED, Fault, INVALID_ARGUMENT, OUT_OF_MEMORY, report, report_number};
use crate::handle::Handle;
use crate::object::{NO_TABLE, report_parse};
use crate::opened::Opened;
use crate::refused::report_refused;
use crate::seed::Keys;
use crate::taken::take_loan;
use crate::write::fill;
use btf::BtfError;
use btf_elf::ObjectError;
use btf_loader::{
    CandidatePolicy, LoaderError, Refusals, Report, SectionOutcomes, Target, relocate_object_with,
};
use btf_relocate::Patched;
use std::alloc::Global;

/// Another section has bytes in the place of a section with relocations.
const SHARED_PLACE: u32 = 108;

/// The name of a section of relocation records cannot be read.
const BAD_SECTION_NAME: u32 = 109;

/// The options with both bits set.
const ALL_OPTIONS: u32 = 3;

/// The numbers of relocation records of an object. A number above 2^64 - 1 is reported as 2^64 - 1.
#[repr(C)]
#[derive(Drop)]
pub struct Tally {
    /// The records of the sections that have code in the file.
    pub records: u64,
    /// The records whose instruction was poisoned.
    pub poisoned: u64,
    /// The records with an error, which changed no instruction.
    pub refused: u64,
}

/// Relocates the code of an object for a table: each relocation record of `.BTF.ext` is resolved against the table, and
/// its instruction patched. Writes the new object, which is as long as the old one, to a buffer, its length in bytes to
/// `needed`, and the numbers of records to `tally`.
///
/// An open index of the target is used; without one, the call makes one of its own, which it frees.
///
/// Bit 0 of `options`: each record has all candidates of the target, as in the kernel; otherwise the records of one
/// type share them, as in libbpf. Bit 1: a record with an error changes nothing; otherwise it is status 107. `seed` is
/// a random number, with which the names of sections are hashed.
///
/// Status 100 if the buffer is too small (it is then unchanged). 104 if the bytes are no object, with `id` and `offset`
/// as in `vbtf_raw_sanitize_object`; 105 if no section is `.BTF`; 1 to 19 with the first error of the table or of
/// `.BTF.ext`. Then for each section of records: 109 if its name cannot be read; `offset` is the string offset. 108 if
/// another section has bytes in the place of its code; `offset` is the index of the section with code. 107 if a record
/// has an error; `id` is the position of the error in `RelocationError`, from 1 on, `section_len` its field or 0,
/// `offset` the string offset of the section's name, and `len` the index of the record. 20 if an allocation fails; 101
/// if the handle's state is not 2; 102 if another bit of the options is set.
#[unsafe(no_mangle)]
pub extern "C" fn vbtf_lent_relocate_object(
    alloc: Global,
    object: &[u8],
    target: &mut Handle,
    options: u32,
    seed: u64,
    out: &mut [u8],
    needed: &mut u64,
    tally: &mut Tally,
    fault: &mut Fault,
) -> u32
    ensures relocated { EndsRelocatingFor target.old object.now options out.old out.new needed.new
        tally.old tally.new fault.new result }
    ensures options { target.old.state ≡ 2 → 3 < options
        → (result ≡ INVALID_ARGUMENT) × (out.new ≡ out.old) × (tally.new ≡ tally.old) }
    ensures closed { target.old.state ≢ 2
        → (result ≡ CLOSED) × (out.new ≡ out.old) × (tally.new ≡ tally.old) }
    ensures kept { KeepsHandle target.old target.new }
{
    let Some(loan) = take_loan(target) else {
        return CLOSED;
    };
    let status = relocate(
        alloc,
        object,
        loan.get(),
        options,
        seed,
        out,
        needed,
        tally,
        fault,
    );
    *target = Handle::from_loan(loan);
    status
}

/// Relocates the code of an object for a table.
fn relocate(
    alloc: Global,
    object: &[u8],
    opened: &Opened,
    options: u32,
    seed: u64,
    out: &mut [u8],
    needed: &mut u64,
    tally: &mut Tally,
    fault: &mut Fault,
) -> u32
    ensures relocated { options ≤ 3 → EndsRelocating result object.now opened.now.btf
        options out.old
        out.new needed.new tally.old tally.new fault.new }
    ensures options { 3 < options
        → (result ≡ INVALID_ARGUMENT) × (out.new ≡ out.old) × (tally.new ≡ tally.old) }
{
    if options > ALL_OPTIONS {
        return INVALID_ARGUMENT;
    }
    let Ok(target) = target_of(alloc, opened) else {
        return report_reason(LoaderError::OutOfMemory, fault);
    };
    let policy = policy(options);
    let refusals = refusals(options);
    match relocate_object_with(alloc, object, &target, policy, refusals, Keys { seed }) {
        Ok((file, outcomes)) => {
            *tally = Tally::of(&outcomes);
            fill(&file, out, needed)
        }
        Err(error) => report_reason(error, fault),
    }
}

/// The table as a target, with the open index, or with an index of its own if none is open. `OutOfMemory` is the only
/// error.
fn target_of(alloc: Global, opened: &Opened) -> Result<Target<'_>, BtfError>
    ensures indexed { IfOk result (λ target. target ≡ opened.now.btf) }
    ensures only { IfErr result (λ e. e ≡ NoMemory) }
{
    match &opened.index {
        Some(index) => Ok(Target::with_index(&opened.btf, index)),
        None => Target::new(alloc, &opened.btf),
    }
}

/// The candidates of a record, by bit 0 of the options.
fn policy(options: u32) -> CandidatePolicy
    ensures { is_shared result ≡ shares_candidates options }
{
    if options % 2 == 0 {
        CandidatePolicy::Shared
    } else {
        CandidatePolicy::Fresh
    }
}

/// What a record with an error does, by bit 1 of the options.
fn refusals(options: u32) -> Refusals
    ensures { refuses_errors result ≡ refuses_records options }
{
    if options / 2 % 2 == 0 {
        Refusals::Refuse
    } else {
        Refusals::Keep
    }
}

impl Tally {
    /// Counts the records of each section.
    fn of(sections: &[SectionOutcomes]) -> Tally
        ensures { Counts result (all_reports (map outcomes_of sections.now)) }
    {
        let mut tally = Tally {
            records: 0,
            poisoned: 0,
            refused: 0,
        };
        for section in sections {
            tally.add_section(section);
        }
        tally
    }

    /// Counts the records of one more section.
    fn add_section(&mut self, section: &SectionOutcomes)
        ensures { (counted : List Said) → Counts self.old counted
            → Counts self.new (counted ++ reports_in (outcomes_of section.now)) }
    {
        let Some(reports) = &section.outcomes else {
            return;
        };
        for report in reports {
            self.add(report);
        }
    }

    /// Counts one more record.
    fn add(&mut self, report: &Report)
        ensures { (counted : List Said) → Counts self.old counted
            → Counts self.new (counted ++ report.now ∷ []) }
    {
        self.records = self.records.saturating_add(1);
        match report.outcome {
            Ok(Patched::Written) => {}
            Ok(Patched::Poisoned) => self.poisoned = self.poisoned.saturating_add(1),
            Err(_) => self.refused = self.refused.saturating_add(1),
        }
    }
}

/// Writes the reason for which an object is not relocated, and returns the status.
fn report_reason(error: LoaderError, fault: &mut Fault) -> u32
    ensures { ReportsReason result fault.new error }
{
    match error {
        LoaderError::Object(ObjectError::Parse(error)) => report_parse(error, fault),
        LoaderError::NoTable => report_number(fault, NO_TABLE, 0, 0),
        LoaderError::Table(error) | LoaderError::Ext(error) => report(error, fault),
        LoaderError::SectionName { name_offset } => {
            report_number(fault, BAD_SECTION_NAME, 0, name_offset as u64)
        }
        LoaderError::SharedPlace { index } => report_number(fault, SHARED_PLACE, 0, index as u64),
        LoaderError::Refused {
            name_offset,
            index,
            cause,
        } => report_refused(cause, name_offset as u64, index as u64, fault),
        LoaderError::Object(ObjectError::OutOfMemory) | LoaderError::OutOfMemory => {
            report_number(fault, OUT_OF_MEMORY, 0, 0)
        }
    }
}
