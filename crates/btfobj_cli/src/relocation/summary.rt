//! The records that a target cannot satisfy.

use crate::fault::Fault;
use crate::relocation::Listing;
use crate::relocation::spec::name_text;
use btf_loader::SectionOutcomes;
use btf_relocate::{Patched, Report};
use std::fmt::Write;

/// The numbers of relocation records.
struct Counts {
    /// The records of the sections that have code in the file.
    records: usize,
    /// The records that the target cannot satisfy.
    unsatisfied: usize,
}

impl Counts {
    /// Counts the records of these sections.
    fn of(sections: &[SectionOutcomes]) -> Counts {
        let mut counts = Counts {
            records: 0,
            unsatisfied: 0,
        };
        for section in sections {
            if let Some(outcomes) = &section.outcomes {
                counts.add(outcomes);
            }
        }
        counts
    }

    /// Counts the records of one more section.
    fn add(&mut self, reports: &[Report]) {
        for report in reports {
            self.records = self.records.saturating_add(1);
            if !is_satisfied(report) {
                self.unsatisfied = self.unsatisfied.saturating_add(1);
            }
        }
    }
}

/// Whether the instruction of a record has its value: it is not poisoned, and the record has no error.
fn is_satisfied(report: &Report) -> bool {
    matches!(report.outcome, Ok(Patched::Written))
}

impl Listing<'_, '_> {
    /// Writes the number of records, and a line for each that the target cannot satisfy.
    pub fn write_summary<W: Write>(
        &self,
        relocations: &[(u32, Vec<[u32; 4]>)],
        sections: &[SectionOutcomes],
        out: &mut W,
    ) -> Result<(), Fault> {
        let Counts {
            records,
            unsatisfied,
        } = Counts::of(sections);
        match unsatisfied {
            0 => writeln!(out, "relocations: {records}")?,
            _ => {
                writeln!(
                    out,
                    "relocations: {records}, and the target cannot satisfy {unsatisfied}"
                )?
            }
        }
        for (relocation, section) in relocations.iter().zip(sections) {
            let Some(reports) = &section.outcomes else {
                continue;
            };
            let name = name_text(self.local, section.name_offset)?;
            self.write_unsatisfied(name.as_str(), &relocation.1, reports, out)?;
        }
        Ok(())
    }

    /// Writes a line for each record of a section that the target cannot satisfy.
    fn write_unsatisfied<W: Write>(
        &self,
        section: &str,
        records: &[[u32; 4]],
        reports: &[Report],
        out: &mut W,
    ) -> Result<(), Fault> {
        for (record, report) in records.iter().zip(reports) {
            if !is_satisfied(report) {
                writeln!(out, "\t{section}: {}", self.entry(record, report))?;
            }
        }
        Ok(())
    }
}
