//! The line of a work.

use crate::timing::Timing;
use std::test::Fail;

/// The form of the lines.
#[derive(Clone, Copy)]
pub enum Form {
    /// For a reader.
    Table,
    /// Values separated by commas.
    Csv,
    /// The name alone; for relocations their records.
    Names,
}

impl From<&str> for Form {
    fn from(word: &str) -> Form {
        match word {
            "--csv" => Form::Csv,
            "--names" => Form::Names,
            _ => Form::Table,
        }
    }
}

/// The subject of a line.
#[derive(Clone, Copy)]
pub struct Row<'a> {
    pub name: &'a str,
    /// The number of units that the least time is divided by, and the name of a unit.
    pub units: u64,
    pub unit: &'a str,
}

impl Row<'_> {
    /// Prints the least and the median time, and the least by unit.
    pub fn print(self, rt: &HostRuntime, timing: &Timing, form: Form) -> Result<(), Fail> {
        let (name, least, median) = (self.name, timing.least(), timing.median());
        let each = least / self.units.max(1);
        match form {
            Form::Names => println!(rt; "{name}")?,
            Form::Csv => println!(rt; "{name},{least},{median},{each}")?,
            Form::Table => self.print_table(rt, least / 1000, median / 1000, each)?,
        }
        Ok(())
    }

    /// Prints both times in microseconds, and the least by unit in nanoseconds.
    fn print_table(self, rt: &HostRuntime, least: u64, median: u64, each: u64) -> Result<(), Fail> {
        let (name, unit) = (self.name, self.unit);
        println!(rt; "{name:<16} {least:>9} us {median:>9} us {each:>6} ns a {unit}")?;
        Ok(())
    }
}
