//! The program over any streams.

ghost use Rattle.std.specs.Prelude.{◌≡◌, ◌≤◌, ◌↔◌, IfOk, IfErr, OnOk, OnErr, IfSome, IsOk, IsErr};
ghost use Rattle.std.specs.Io.KnownBytes.{IsAtEnd, Keeps};
ghost use Rattle.btf_plain.specs.Error.{refusal_of};
ghost use Rattle.btf_cli.specs.declared.line.Command.TheVariants.{Ask};
ghost use Rattle.btf_cli.specs.declared.line.Line.{Line};
ghost use Rattle.btf_cli.specs.Fault.{IsReadingFault, FailsBy, HasFailed};
ghost use Rattle.btf_cli.specs.Line.{Asks, IfAsked, IsCommandLine};
ghost use Rattle.btf_cli.specs.Answer.{Writes, WritesFor, Declines, IfDeclined, IsAnswer, IsDeclined};
ghost use Rattle.btf_cli.specs.Output.{output_bytes};
ghost use Rattle.btf_model.specs.Refusal.{Refusal};

use crate::comparison::compare_ids;
use crate::fault::Fault;
use crate::line::{Command, Line, Query};
use crate::listing::{comparison_lines, size_line};
use crate::output::Output;
use crate::rewrite::rewrite_blob;
use btf_plain::BtfError;
use btf_table::Btf;
use std::alloc::Global;
use std::io::{ErrorKind, Read, Write};

const USAGE: &str = "usage: btftool little|big copy|types|size ID|compat ID ID|rewrite WORD..";

/// The whole input.
fn read_input<R: Read>(alloc: Global, input: &mut R) -> Result<Vec<u8>, Fault>
    ensures whole { IfOk result (λ v. IfSome (R.remaining input.old) (λ bytes. v.items ≡ bytes)) }
    ensures end { OnOk result (IsAtEnd (R.remaining input.new)) }
    ensures fault { IfErr result (λ fault. IsReadingFault fault) }
{
    let mut bytes = Vec::new(alloc);
    match input.read_to_end(&mut bytes) {
        Ok(_) => Ok(bytes),
        Err(e) if e.kind() == ErrorKind::OutOfMemory => Err(Fault::Btf(BtfError::OutOfMemory)),
        Err(_) => Err(Fault::Read),
    }
}

/// The output of a query of a table.
fn answer_query(alloc: Global, query: Query, table: Btf) -> Result<Output, BtfError>
    ensures made { IfOk result (λ output. Writes (Ask query) table (output_bytes output)) }
    ensures reported { IfErr result (λ e. IfSome (refusal_of e) (Declines (Ask query) table)) }
{
    match query {
        Query::Copy => Ok(Output::Bytes(table.to_bytes()?)),
        Query::Types => Ok(Output::Listing(table)),
        Query::Size(id) => {
            let size = table.type_size(id)?;
            Ok(Output::Bytes(size_line(alloc, size)?))
        }
        Query::Compat(id, other) => {
            let (answer, starts) = compare_ids(alloc, &table, id, other)?;
            Ok(Output::Bytes(comparison_lines(alloc, answer, starts)?))
        }
    }
}

/// The output of a command on a blob.
fn answer(alloc: Global, line: Line, blob: &[u8]) -> Result<Output, BtfError>
    requires { IsCommandLine line }
    ensures made { IfOk result (λ output. IsAnswer line.entry blob.now (output_bytes output)) }
    ensures refused { (f : Refusal) → IsDeclined line.entry blob.now f → IsErr result }
    // An error of the table has this cause.
    ensures reported { IfErr result (λ e. IfSome (refusal_of e) (IsDeclined line.entry blob.now)) }
{
    match line.command {
        Command::Ask(query) => {
            let table = Btf::parse(alloc, blob, line.endianness)?;
            answer_query(alloc, query, table)
        }
        Command::Rewrite(request) => {
            let bytes = rewrite_blob(alloc, line.endianness, request, blob)?;
            Ok(Output::Bytes(bytes))
        }
    }
}

/// Reads the input, and writes the output of the command on it.
fn carry_out<R: Read, W: Write>(
    alloc: Global,
    line: Line,
    input: &mut R,
    out: &mut W,
) -> Result<(), Fault>
    requires { IsCommandLine line }
    ensures written { OnOk result (WritesFor (R.remaining input.old)
        (W.contents out.old) (W.contents out.new) line.entry) }
    ensures refused { IfDeclined (R.remaining input.old) line.entry
        (IsErr result × Keeps (W.contents out.old) (W.contents out.new)) }
    // All errors but those of writing are found before the first byte is written.
    ensures failed { IfErr result (λ fault. FailsBy fault (R.remaining input.old)
        (W.contents out.old) (W.contents out.new) line.entry) }
    ensures end { OnOk result (IsAtEnd (R.remaining input.new)) }
{
    let blob = read_input(alloc, input)?;
    let output = answer(alloc, line, &blob)?;
    output.write_to(out)
}

/// The status of an outcome. The text of a fault is written to `err`.
fn status_of<E: Write>(outcome: Result<(), Fault>, err: &mut E) -> u8
    ensures ok { (result ≡ 0) ↔ IsOk outcome }
    ensures failed { OnErr outcome (result ≡ 1) }
    ensures quiet { OnOk outcome (err.new ≡ err.old) }
{
    match outcome {
        Ok(()) => 0,
        Err(fault) => {
            let _ = writeln!(err, "{fault}");
            1
        }
    }
}

/// The program: parses the command line, reads the input to its end, and writes the output.
///
/// Returns the status: 0 on success; 1 if a stream or an allocation fails, the table is invalid, or the command fails,
/// with the fault's text on `err`; 2 for an invalid command line, with the usage on `err` and nothing read.
pub fn run<R: Read, W: Write, E: Write>(
    alloc: Global,
    words: &[String],
    input: &mut R,
    out: &mut W,
    err: &mut E,
) -> u8
    // An invalid command line has status 2. Then nothing is read, and only the usage is written.
    ensures usage { (result ≡ 2) ↔ ((line : Line) → Asks words.now line → ⊥) }
    ensures usage_alone { result ≡ 2 → (input.new ≡ input.old) × (out.new ≡ out.old) }
    // On success the input represents a table, and the output of the command on it is written.
    ensures written { IfAsked words.now (λ line. result ≡ 0 → WritesFor (R.remaining input.old)
        (W.contents out.old) (W.contents out.new) line) }
    // On success the input has been read to its end.
    ensures end { result ≡ 0 → IsAtEnd (R.remaining input.new) }
    // On success nothing is written on standard error.
    ensures quiet { result ≡ 0 → err.new ≡ err.old }
    // Otherwise the status is 1 or 2.
    ensures status { result ≤ 2 }
    // If the input represents no table, or the command fails on it, the status is 1, and nothing is written on standard
    // output.
    ensures refused { IfAsked words.now (λ l. IfDeclined (R.remaining input.old) l
        ((result ≡ 1) × Keeps (W.contents out.old) (W.contents out.new))) }
    // Status 1 has a cause. Only if standard output fails, something can be written there, and then the command has an
    // output.
    ensures failed { IfAsked words.now (λ line. result ≡ 1 → HasFailed (R.remaining input.old)
        (W.contents out.old) (W.contents out.new) line) }
{
    let Some(line) = Line::read(words) else {
        let _ = writeln!(err, "{USAGE}");
        return 2;
    };
    let outcome = carry_out(alloc, line, input, out);
    status_of(outcome, err)
}
