//! The request of a command line.

use crate::command::command;
use crate::relocation::Form;
use crate::rewrite::Rewrite;
use btf_loader::{CandidatePolicy, Refusals};
use btf_object::{Kernel, TableReader};
use btf_plain::BtfKind;
use btf_rewrite_model::{FillPolicy, feature_named};
use btf_text::Selection;
use clap::error::ErrorKind;
use clap::{ArgMatches, Command, Error};
use std::alloc::{AllocError, Global};

/// The table of the running kernel.
const RUNNING_KERNEL: &str = "/sys/kernel/btf/vmlinux";

/// Where the tables of the running kernel and of its modules are.
const RUNNING_TABLES: &str = "/sys/kernel/btf/";

/// The settings of a relocation.
#[derive(Debug, Drop)]
pub struct Relocation<'a> {
    /// The file with the kernel's table.
    pub target: &'a str,
    /// The file with the base of that table, if it is split.
    pub base: Option<&'a str>,
    /// The files with the tables of modules, which continue the kernel's table.
    pub modules: Vec<&'a str>,
    /// The file for the relocated object; `-` is standard output.
    pub output: Option<&'a str>,
    /// Which candidates a record has.
    pub policy: CandidatePolicy,
    /// What a record with an error does.
    pub refusals: Refusals,
    /// Whether a poisoned instruction leaves the status 0.
    pub allows_poison: bool,
    /// The form of the list.
    pub form: Form,
}

impl Relocation<'_> {
    /// Whether the records are listed: if no object is written, and as JSON also beside an object, unless that goes to
    /// standard output.
    pub fn is_listed(&self) -> bool {
        match self.output {
            Some(output) => self.form == Form::Json && output != "-",
            None => true,
        }
    }
}

/// The request of a command line: the files, and what to do with each of them. A file `-` is standard input, and an
/// output `-` is standard output.
#[derive(Debug, Drop)]
pub struct Request<'a> {
    /// The files: one, or more for an action that only lists.
    pub files: Vec<&'a str>,
    /// What to do.
    pub action: Action<'a>,
}

/// What to do with a file. The file `base` has the base of a split table.
#[derive(Debug, Drop)]
pub enum Action<'a> {
    /// Dumps the types of the file's table.
    Dump {
        base: Option<&'a str>,
        selection: Selection<'a>,
    },
    /// Writes types as a C header: all types, or those of these names or of this kind, and the types that they need.
    Header {
        base: Option<&'a str>,
        names: Vec<&'a str>,
        kind: Option<BtfKind>,
    },
    /// Writes the layout of a structure or a union.
    Layout {
        base: Option<&'a str>,
        name: &'a str,
    },
    /// Writes the contents of `.BTF.ext`.
    Ext {
        base: Option<&'a str>,
    },
    /// Writes the changes that a rewrite would make, and if there is a target, the relocations that it cannot satisfy.
    Check {
        base: Option<&'a str>,
        rewrite: Rewrite<'a>,
        target: Option<&'a str>,
    },
    /// Rewrites the file, and writes the new file, or its table alone.
    Sanitize {
        base: Option<&'a str>,
        output: &'a str,
        rewrite: Rewrite<'a>,
        is_table_only: bool,
    },
    /// Relocates the code of the object.
    Relocate {
        relocation: Relocation<'a>,
    },
    /// Compares the types of these names in the file's table and another one, which has the base.
    Compat {
        target: &'a str,
        base: Option<&'a str>,
        names: Vec<&'a str>,
    },
}

/// The request of the words of a command line, including the program's name. The error is the text to print instead: an
/// error of the command line, the help, or the version.
pub fn read_request<'a>(alloc: Global, words: &'a [&'a str]) -> Result<Request<'a>, Error> {
    let mut command = command(alloc)?;
    let matches = command.try_get_matches_from_mut(words)?;
    let (name, matches) = match matches.subcommand() {
        Some(found) => found,
        None => return Err(refusal(&mut command, "a command is missing")),
    };
    let files = matches.get_strs("file").unwrap_or(&[]);
    if files.len() > most_files(matches) {
        return Err(refusal(&mut command, "-o and --json take one FILE"));
    }
    let action = read_action(alloc, &mut command, name, matches)?;
    Ok(Request {
        files: Vec::from_slice(alloc, files)?,
        action,
    })
}

/// The number of files that an action takes: one if it writes an object or a document.
fn most_files(matches: &ArgMatches<'_>) -> usize {
    if matches.get_flag("json") || matches.get_str("output").is_some() {
        1
    } else {
        usize::MAX
    }
}

/// What a command does.
fn read_action<'a>(
    alloc: Global,
    command: &mut Command<'_>,
    name: &str,
    matches: &ArgMatches<'a>,
) -> Result<Action<'a>, Error> {
    let base = matches.get_str("base");
    match name {
        "dump" => Ok(Action::Dump {
            base,
            selection: read_selection(command, matches)?,
        }),
        "header" => Ok(Action::Header {
            base,
            names: Vec::from_slice(alloc, matches.get_strs("names").unwrap_or(&[]))?,
            kind: matches.get_str("kind").and_then(kind_of_name),
        }),
        "layout" => Ok(Action::Layout {
            base,
            name: text(matches, "name"),
        }),
        "ext" => Ok(Action::Ext { base }),
        "check" => match (base, matches.get_str("target")) {
            (Some(_), Some(_)) => Err(refusal(
                command,
                "--base is for the table of a module, which has no relocations for --target",
            )),
            (base, target) => Ok(Action::Check {
                base,
                rewrite: read_rewrite(alloc, command, matches, TableReader::Kernel)?,
                target,
            }),
        },
        "sanitize" => {
            let is_table_only = matches.get_flag("table-only");
            // A kernel takes the table alone, and loaders take the object.
            let reader = if is_table_only {
                TableReader::Kernel
            } else {
                TableReader::Loaders
            };
            Ok(Action::Sanitize {
                base,
                output: text(matches, "output"),
                rewrite: read_rewrite(alloc, command, matches, reader)?,
                is_table_only,
            })
        }
        "relocate" => Ok(Action::Relocate {
            relocation: read_relocation(alloc, matches)?,
        }),
        _ => Ok(Action::Compat {
            target: text(matches, "target"),
            base,
            names: Vec::from_slice(alloc, matches.get_strs("names").unwrap_or(&[]))?,
        }),
    }
}

/// The settings of a relocation. A list has all records, those with an error too.
fn read_relocation<'a>(
    alloc: Global,
    matches: &ArgMatches<'a>,
) -> Result<Relocation<'a>, AllocError> {
    let tables = matches.get_strs("target").unwrap_or(&[]);
    let (target, modules) = match tables.split_first() {
        Some((kernel, modules)) => (*kernel, modules),
        None => (RUNNING_KERNEL, tables),
    };
    let output = matches.get_str("output");
    let refuses = output.is_some() && !matches.get_flag("keep-going");
    Ok(Relocation {
        target,
        base: matches.get_str("base"),
        modules: Vec::from_slice(alloc, modules)?,
        output,
        policy: if matches.get_flag("fresh") {
            CandidatePolicy::Fresh
        } else {
            CandidatePolicy::Shared
        },
        refusals: if refuses {
            Refusals::Refuse
        } else {
            Refusals::Keep
        },
        allows_poison: matches.get_flag("allow-poison"),
        form: if matches.get_flag("json") {
            Form::Json
        } else {
            Form::Lines
        },
    })
}

/// The file with the base of the table in a file, if that is the table of a module of the running kernel.
pub fn running_base(file: &str) -> Option<&'static str> {
    if file.starts_with(RUNNING_TABLES) && file != RUNNING_KERNEL {
        Some(RUNNING_KERNEL)
    } else {
        None
    }
}

/// The value of an argument; empty if it was not given. A required argument is always given.
fn text<'a>(matches: &ArgMatches<'a>, id: &str) -> &'a str {
    matches.get_str(id).unwrap_or("")
}

/// An error of the command line with this message.
fn refusal(command: &mut Command<'_>, message: &str) -> Error {
    match command.error(ErrorKind::ValueValidation, message) {
        Ok(error) => error,
        Err(error) => Error::from(error),
    }
}

/// The selection of the types to write.
fn read_selection<'a>(
    command: &mut Command<'_>,
    matches: &ArgMatches<'a>,
) -> Result<Selection<'a>, Error> {
    let mut selection = Selection {
        from: None,
        to: None,
        name: matches.get_str("name"),
        kind: matches.get_str("kind").and_then(kind_of_name),
    };
    let Some(ids) = matches.get_str("ids") else {
        return Ok(selection);
    };
    match read_range(ids) {
        Some((Some(from), Some(to))) if from >= to => Err(refusal(
            command,
            "the range of --ids is empty: it has no id from A on and below B",
        )),
        Some((from, to)) => {
            selection.from = from;
            selection.to = to;
            Ok(selection)
        }
        None => Err(refusal(
            command,
            "the value of --ids is no number, and no range A..B of two numbers",
        )),
    }
}

/// The ends of a range `A..B`, either of which may be left out, or of one number alone.
fn read_range(text: &str) -> Option<(Option<u32>, Option<u32>)> {
    let Some((from, to)) = text.split_once("..") else {
        let id = text.parse::<u32>().ok()?;
        return Some((Some(id), id.checked_add(1)));
    };
    Some((read_end(from)?, read_end(to)?))
}

/// The end of a range, which may be left out; None if it is no number of 32 bits.
fn read_end(text: &str) -> Option<Option<u32>> {
    if text.is_empty() {
        return Some(None);
    }
    match text.parse::<u32>() {
        Ok(end) => Some(Some(end)),
        Err(_) => None,
    }
}

/// The kind of a name, ignoring case.
fn kind_of_name(name: &str) -> Option<BtfKind> {
    (1..20)
        .filter_map(|number| BtfKind::try_from(number).ok())
        .find(|kind| btf_text::kind_name(*kind).eq_ignore_ascii_case(name))
}

/// The settings of a rewrite for this reader.
fn read_rewrite<'a>(
    alloc: Global,
    command: &mut Command<'_>,
    matches: &ArgMatches<'a>,
    reader: TableReader,
) -> Result<Rewrite<'a>, Error> {
    let policy = if matches.get_flag("fill-sized") {
        FillPolicy::FillSized
    } else {
        FillPolicy::KeepSized
    };
    let kernel = match matches.get_str("kernel") {
        Some(version) => read_kernel(alloc, command, version)?,
        None => kernel_with(matches.get_strs("has").unwrap_or(&[])),
    };
    let placeholder = matches.get_str("placeholder");
    let is_finalized = !matches.get_flag("no-finalize") && placeholder.is_none();
    Ok(Rewrite {
        kernel,
        policy,
        placeholder,
        is_finalized,
        reader,
    })
}

/// The kernel of a version. A number alone, such as 6, is the first version of its series.
fn read_kernel(alloc: Global, command: &mut Command<'_>, version: &str) -> Result<Kernel, Error> {
    let first = format!(in alloc; "{version}.0")?;
    let is_series = version.parse::<u32>().is_ok();
    let version = if is_series { first.as_str() } else { version };
    let message = match Kernel::of_version(version) {
        Some(kernel) if has_btf(version) => return Ok(kernel),
        Some(_) => "the first version of Linux with BTF is 4.18",
        None => "the value of --kernel is no version such as 5.4 or 5.15.0-91-generic",
    };
    Err(refusal(command, message))
}

/// Whether a version of Linux is 4.18 or later.
fn has_btf(version: &str) -> bool {
    let Some((major, rest)) = version.split_once('.') else {
        return false;
    };
    match (first_number(major), first_number(rest)) {
        (Some(4), Some(minor)) => minor >= 18,
        (Some(major), _) => major > 4,
        _ => false,
    }
}

/// The number at the start of a text.
fn first_number(text: &str) -> Option<u32> {
    let end = text
        .bytes()
        .position(|byte| !byte.is_ascii_digit())
        .unwrap_or(text.len());
    text.get(..end)?.parse::<u32>().ok()
}

/// A kernel that has the features of these names.
fn kernel_with(names: &[&str]) -> Kernel {
    let mut kernel = Kernel::new();
    for name in names {
        if let Some(feature) = feature_named(name) {
            kernel = kernel.with(feature);
        }
    }
    kernel
}
