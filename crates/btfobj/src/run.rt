//! Carrying out a request.

use crate::files::{STREAM, read_file};
use crate::new_file::write_file;
use crate::output::Output;
use crate::relocate::{relocate_file, summarize};
use btf_plain::BtfKind;
use btf_rewrite_model::{BtfFeature, FeatureAnswer};
use btf_table::Btf;
use btf_text::Selection;
use btfobj_cli::{
    Action, Ending, Fault, InputFile, Request, Rewrite, check, compat, dump, explain, ext,
    file_has_externs, header, layout, running_base, sanitize, table_alone,
};
use std::alloc::Global;
use std::hash::RandomState;
use std::io::{ErrorKind, Write};
use std::process::ExitCode;
use std::{fmt, io};

/// The status of a program that SIGPIPE ends, in a shell.
const CLOSED_PIPE: u8 = 141;

/// What a loader of an object misses if the kernel has no DATASECs.
const NO_SECTIONS: &str =
    "the new table has no DATASEC, from which a loader such as libbpf reads maps; \
     --table-only writes the table for the kernel, and leaves the object to the loader";

/// What a loader of an object with externs misses if the kernel has no DATASECs.
const LOST_EXTERNS: &str =
    "the new table has no DATASEC for the externs of the object, so a loader that needs externs, such \
     as libbpf, cannot open the new object; --table-only writes the table for the kernel, and leaves \
     the object to the loader";

/// The error of a request: the file, and its error.
#[derive(Drop)]
pub struct Failure<'a> {
    pub file: &'a str,
    pub cause: Cause,
}

/// The error of a file.
#[derive(Drop)]
pub enum Cause {
    /// It cannot be read or written.
    Io(io::Error),
    /// The command fails on it.
    Fault(Fault),
}

impl fmt::Display for Failure<'_> {
    fn fmt<W: fmt::Write>(&self, f: &mut fmt::Formatter<W>) -> fmt::Result {
        let file = self.file;
        match &self.cause {
            Cause::Io(e) => write!(f, "btfobj: {file}: {e}"),
            Cause::Fault(e) => write!(f, "btfobj: {file}: {e}"),
        }
    }
}

/// The status of a relocation that poisons an instruction.
const POISONED: u8 = 3;

/// The status of a rewrite that writes an object without its externs.
const WITHOUT_EXTERNS: u8 = 4;

/// The answer of a request without an error.
#[derive(Clone, Copy)]
pub enum Answer {
    /// It was carried out, and a check is positive.
    Yes,
    /// A check is negative, or a record has an error.
    No,
    /// An instruction was poisoned.
    Poisoned,
    /// The new object lacks the externs of the old one.
    WithoutExterns,
}

impl From<bool> for Answer {
    fn from(is_positive: bool) -> Answer {
        if is_positive { Answer::Yes } else { Answer::No }
    }
}

impl From<Ending> for Answer {
    fn from(ending: Ending) -> Answer {
        match ending {
            Ending::Written => Answer::Yes,
            Ending::Poisoned => Answer::Poisoned,
            Ending::Refused => Answer::No,
        }
    }
}

impl Answer {
    /// The answer of two files. An error and a negative check go before a poisoned instruction.
    fn and(self, other: Answer) -> Answer {
        match (self, other) {
            (Answer::No, _) | (_, Answer::No) => Answer::No,
            (Answer::Yes, other) => other,
            (answer, _) => answer,
        }
    }

    /// The status of the answer.
    fn status(self) -> u8 {
        match self {
            Answer::Yes => 0,
            Answer::No => 1,
            Answer::Poisoned => POISONED,
            Answer::WithoutExterns => WITHOUT_EXTERNS,
        }
    }
}

/// Carries out a request on each of its files, and returns the status: 0 on success, 1 for an error or a negative check
/// of any file, else 3 for a poisoned instruction, 4 for an object that lacks its externs, and 141 if the reader of
/// standard output closed it.
pub fn carry_out(rt: &HostRuntime, request: &Request<'_>) -> ExitCode {
    let mut all = Answer::Yes;
    for file in &request.files {
        match answer_file(rt, *file, request) {
            Ok(answer) => all = all.and(answer),
            Err(reason) => return report_output(rt, &reason),
        }
    }
    ExitCode::from(all.status())
}

/// Carries out a request on a file, and reports its failure. The error is the reason if standard output failed.
fn answer_file(rt: &HostRuntime, file: &str, request: &Request<'_>) -> io::Result<Answer> {
    let mut out = Output::new(rt);
    let failure = match answer_titled(rt, file, request, &mut out) {
        Ok(answer) => return Ok(answer),
        Err(failure) => failure,
    };
    match out.into_failure() {
        Some(reason) => Err(reason),
        None => {
            // An error of standard error cannot be reported.
            let _ = eprintln!(rt; "{failure}");
            Ok(Answer::No)
        }
    }
}

/// Reports that standard output failed, and returns the status. A closed pipe is not reported.
pub fn report_output(rt: &HostRuntime, reason: &io::Error) -> ExitCode {
    if reason.kind() == ErrorKind::BrokenPipe {
        return ExitCode::from(CLOSED_PIPE);
    }
    // An error of standard error cannot be reported.
    let _ = eprintln!(rt; "btfobj: cannot write standard output: {reason}");
    ExitCode::FAILURE
}

/// Carries out a request on a file. Of several files, each has its name before what is written of it.
fn answer_titled<'a>(
    rt: &HostRuntime,
    file: &'a str,
    request: &Request<'a>,
    out: &mut Output<'_>,
) -> Result<Answer, Failure<'a>> {
    if request.files.len() > 1 {
        write_title(file, out)?;
    }
    answer_action(rt, file, &request.action, out)
}

/// Writes the name of a file, as readelf does.
fn write_title<'a>(file: &'a str, out: &mut Output<'_>) -> Result<(), Failure<'a>> {
    match write!(out, "\nFile: {file}\n") {
        Ok(()) => Ok(()),
        Err(e) => Err(Failure {
            file,
            cause: Cause::Io(e),
        }),
    }
}

/// Does what is asked with a file.
fn answer_action<'a>(
    rt: &HostRuntime,
    file: &'a str,
    action: &Action<'a>,
    out: &mut Output<'_>,
) -> Result<Answer, Failure<'a>> {
    match action {
        Action::Dump { base, selection } => listed(write_types(rt, file, *base, selection, out)),
        Action::Header { base, names, kind } => {
            listed(write_declarations(rt, file, *base, names, *kind, out))
        }
        Action::Layout { base, name } => listed(write_members(rt, file, *base, name, out)),
        Action::Ext { base } => listed(write_records(rt, file, *base, out)),
        Action::Check {
            base,
            rewrite,
            target,
        } => check_file(rt, file, *base, rewrite, *target, out),
        Action::Sanitize {
            base,
            output,
            rewrite,
            is_table_only,
        } => write_sanitized(rt, file, *base, output, rewrite, *is_table_only, out),
        Action::Compat {
            target,
            base,
            names,
        } => {
            let target = (*target, *base);
            Ok(Answer::from(are_compatible(rt, file, target, names, out)?))
        }
        Action::Relocate { relocation } => relocate_file(rt, file, relocation, out),
    }
}

/// The answer of a command that only lists.
fn listed<'a>(outcome: Result<(), Failure<'a>>) -> Result<Answer, Failure<'a>> {
    outcome?;
    Ok(Answer::Yes)
}

/// Writes the selected types of a file.
fn write_types<'a>(
    rt: &HostRuntime,
    file: &'a str,
    base: Option<&'a str>,
    selection: &Selection<'_>,
    out: &mut Output<'_>,
) -> Result<(), Failure<'a>> {
    let (bytes, base) = read_with_base(rt, file, base)?;
    blame(
        file,
        dump(rt.alloc(), &bytes, base.as_ref(), selection, out),
    )
}

/// Writes types of a file as a C header: those of these names and this kind, and the types that they need.
fn write_declarations<'a>(
    rt: &HostRuntime,
    file: &'a str,
    base: Option<&'a str>,
    names: &[&str],
    kind: Option<BtfKind>,
    out: &mut Output<'_>,
) -> Result<(), Failure<'a>> {
    let (bytes, base) = read_with_base(rt, file, base)?;
    blame(
        file,
        header(rt.alloc(), bytes, base.as_ref(), names, kind, out),
    )
}

/// Writes the layout of a structure or a union of a file.
fn write_members<'a>(
    rt: &HostRuntime,
    file: &'a str,
    base: Option<&'a str>,
    name: &str,
    out: &mut Output<'_>,
) -> Result<(), Failure<'a>> {
    let (bytes, base) = read_with_base(rt, file, base)?;
    blame(file, layout(rt.alloc(), &bytes, base.as_ref(), name, out))
}

/// Writes the contents of the `.BTF.ext` of a file.
fn write_records<'a>(
    rt: &HostRuntime,
    file: &'a str,
    base: Option<&'a str>,
    out: &mut Output<'_>,
) -> Result<(), Failure<'a>> {
    let (bytes, base) = read_with_base(rt, file, base)?;
    blame(file, ext(rt.alloc(), &bytes, base.as_ref(), out))
}

/// Writes what a rewrite of a file would change, and the relocations that the table of another file cannot satisfy, if
/// there is one. Answers no if the kernel lacks a feature that the table needs.
fn check_file<'a>(
    rt: &HostRuntime,
    file: &'a str,
    base: Option<&'a str>,
    rewrite: &Rewrite<'_>,
    target: Option<&'a str>,
    out: &mut Output<'_>,
) -> Result<Answer, Failure<'a>> {
    let (bytes, base) = read_with_base(rt, file, base)?;
    let keys = hasher(rt, file)?;
    let checked = check(rt.alloc(), &bytes, base.as_ref(), rewrite, keys, out);
    let checked = blame_rewrite(rt, file, &bytes, checked)?;
    let ending = match target {
        Some(target) => summarize(rt, file, &bytes, target, out)?,
        None => Ending::Written,
    };
    Ok(if checked.lacks {
        Answer::No
    } else {
        Answer::from(ending)
    })
}

/// The bytes of a file.
pub fn read<'a>(rt: &HostRuntime, file: &'a str) -> Result<Vec<u8>, Failure<'a>> {
    match read_file(rt, file) {
        Ok(bytes) => Ok(bytes),
        Err(e) => Err(Failure {
            file,
            cause: Cause::Io(e),
        }),
    }
}

/// A hasher with random keys, so that an object cannot choose names that collide.
pub fn hasher<'a>(rt: &HostRuntime, file: &'a str) -> Result<RandomState, Failure<'a>> {
    match RandomState::new(rt) {
        Ok(keys) => Ok(keys),
        Err(e) => Err(Failure {
            file,
            cause: Cause::Io(e),
        }),
    }
}

/// Attributes the fault of an outcome to this file.
pub fn blame<'a, T>(file: &'a str, outcome: Result<T, Fault>) -> Result<T, Failure<'a>> {
    match outcome {
        Ok(value) => Ok(value),
        Err(e) => Err(Failure {
            file,
            cause: Cause::Fault(e),
        }),
    }
}

/// Attributes the fault of a rewrite of a file's bytes to the file.
fn blame_rewrite<'a, T>(
    rt: &HostRuntime,
    file: &'a str,
    bytes: &[u8],
    outcome: Result<T, Fault>,
) -> Result<T, Failure<'a>> {
    match outcome {
        Ok(value) => Ok(value),
        Err(e) => Err(Failure {
            file,
            cause: Cause::Fault(explain(rt.alloc(), bytes, e)),
        }),
    }
}

/// The bytes of a rewritten file, or of its table alone, and whether a new object lacks the externs of the old one.
fn sanitize_file<'a>(
    rt: &HostRuntime,
    file: &'a str,
    base: Option<&'a str>,
    rewrite: &Rewrite<'_>,
    is_table_only: bool,
) -> Result<(Vec<u8>, Answer), Failure<'a>> {
    let (bytes, base) = read_with_base(rt, file, base)?;
    let keys = hasher(rt, file)?;
    let sanitized = sanitize(rt.alloc(), &bytes, base.as_ref(), rewrite, keys);
    let (written, answers) = blame_rewrite(rt, file, &bytes, sanitized)?;
    if is_table_only {
        let table = blame(file, table_alone(rt.alloc(), &written))?;
        return Ok((table, Answer::Yes));
    }
    // No loader reads maps from the table of a module.
    if base.is_some() || !bytes.starts_with(b"\x7fELF") || !lacks_sections(&answers) {
        return Ok((written, Answer::Yes));
    }
    let answer = report_sections(rt, file, &bytes)?;
    Ok((written, answer))
}

/// Reports that the new table of an object has no DATASECs, and returns whether it thereby lacks externs.
fn report_sections<'a>(
    rt: &HostRuntime,
    file: &'a str,
    bytes: &[u8],
) -> Result<Answer, Failure<'a>> {
    let (text, answer) = if blame(file, file_has_externs(rt.alloc(), bytes))? {
        (LOST_EXTERNS, Answer::WithoutExterns)
    } else {
        (NO_SECTIONS, Answer::Yes)
    };
    // An error of standard error cannot be reported.
    let _ = eprintln!(rt; "btfobj: {file}: {text}");
    Ok(answer)
}

/// Whether a rewrite took the DATASECs out of a table.
fn lacks_sections(answers: &[FeatureAnswer]) -> bool {
    for answer in answers {
        if answer.feature == BtfFeature::DataSec && !answer.granted {
            return true;
        }
    }
    false
}

/// Writes a rewritten file, or its table alone. Answers whether a new object lacks the externs of the old one.
fn write_sanitized<'a>(
    rt: &HostRuntime,
    file: &'a str,
    base: Option<&'a str>,
    output: &'a str,
    rewrite: &Rewrite<'_>,
    is_table_only: bool,
    out: &mut Output<'_>,
) -> Result<Answer, Failure<'a>> {
    let (written, answer) = sanitize_file(rt, file, base, rewrite, is_table_only)?;
    write(rt, output, &written, out)?;
    Ok(answer)
}

/// Writes bytes to a file, or to standard output for `-`.
pub fn write<'a>(
    rt: &HostRuntime,
    file: &'a str,
    bytes: &[u8],
    out: &mut Output<'_>,
) -> Result<(), Failure<'a>> {
    let done = if file == STREAM {
        out.write_all(bytes)
    } else {
        write_file(rt, file, bytes)
    };
    match done {
        Ok(()) => Ok(()),
        Err(e) => Err(Failure {
            file,
            cause: Cause::Io(e),
        }),
    }
}

/// The table of a file, over the table of its base if it has one.
pub fn read_table<'a>(
    rt: &HostRuntime,
    file: &'a str,
    base: Option<&'a str>,
) -> Result<Btf, Failure<'a>> {
    let base = read_base(rt, file, base)?;
    read_over(rt, file, base.as_ref())
}

/// The table of a file, over a base if there is one.
pub fn read_over<'a>(
    rt: &HostRuntime,
    file: &'a str,
    base: Option<&Btf>,
) -> Result<Btf, Failure<'a>> {
    let bytes = read(rt, file)?;
    let input = blame(file, InputFile::read(rt.alloc(), &bytes))?;
    blame(file, input.whole_table_over(rt.alloc(), base))
}

/// The bytes of a file, and the base of its table if it has one.
fn read_with_base<'a>(
    rt: &HostRuntime,
    file: &'a str,
    base: Option<&'a str>,
) -> Result<(Vec<u8>, Option<Btf>), Failure<'a>> {
    let base = read_base(rt, file, base)?;
    Ok((read(rt, file)?, base))
}

/// The base of the table in a file: the table of the file that is given as the base; or else, for a module of the
/// running kernel, the kernel's table, which is reported.
fn read_base<'a>(
    rt: &HostRuntime,
    file: &'a str,
    base: Option<&'a str>,
) -> Result<Option<Btf>, Failure<'a>> {
    let name = match (base, running_base(file)) {
        (Some(name), _) => name,
        (None, Some(name)) => {
            // An error of standard error cannot be reported.
            let _ = eprintln!(rt; "btfobj: {file}: read over {name}");
            name
        }
        (None, None) => return Ok(None),
    };
    Ok(Some(read_over(rt, name, None)?))
}

/// Whether the types of these names are compatible in the tables of two files, the second of which has a base or not.
fn are_compatible<'a>(
    rt: &HostRuntime,
    local: &'a str,
    target: (&'a str, Option<&'a str>),
    names: &[&str],
    out: &mut Output<'_>,
) -> Result<bool, Failure<'a>> {
    let (target, base) = target;
    let local_table = read_table(rt, local, None)?;
    let target_table = read_table(rt, target, base)?;
    blame(local, compat(&local_table, &target_table, names, out))
}
