//! The standard output of a command.

use crate::fault::Fault;
use crate::listing::write_listing;
use btf_table::Btf;
use std::io::Write;

/// The output of a command that has succeeded, so that only writing can fail.
#[derive(Drop)]
pub enum Output {
    /// These bytes.
    Bytes(Vec<u8>),
    /// The listing of this table. It is made while it is written, because it can be far longer than the table.
    Listing(Btf),
}

impl Output {
    ghost use Rattle.std.specs.Prelude.{◌≡◌, OnOk, IfErr};
    ghost use Rattle.std.specs.Io.KnownBytes.{Appends};
    ghost use Rattle.btf_cli.specs.Output.{output_bytes};
    ghost use Rattle.btf_cli.specs.declared.fault.Fault.TheVariants as faults;

    /// Writes the whole output. Nothing is allocated, so only the writer can fail.
    pub fn write_to<W: Write>(&self, out: &mut W) -> Result<(), Fault>
        ensures written { OnOk result (Appends (W.contents out.old) (W.contents out.new)
            (output_bytes self.now)) }
        ensures fault { IfErr result (λ fault. fault ≡ faults.Write) }
    {
        match self {
            Output::Bytes(bytes) => out.write_all(bytes).map_err(|_| Fault::Write),
            Output::Listing(table) => write_listing(table, out).map_err(|_| Fault::Write),
        }
    }
}
