//! The commands and arguments of `btfobj`, and the help for them: rows, of which loops make the command line. A loop
//! costs its proof the same for any number of rows.

use btf_rewrite_model::FEATURE_NAMES;
use clap::{Arg, ArgAction, ArgGroup, Command};
use std::alloc::{AllocError, Global};

/// The version of the program.
const VERSION: &str = "0.1.0";

/// The kinds that `--kind` takes.
static KINDS: [&str; 19] = [
    "INT",
    "PTR",
    "ARRAY",
    "STRUCT",
    "UNION",
    "ENUM",
    "FWD",
    "TYPEDEF",
    "VOLATILE",
    "CONST",
    "RESTRICT",
    "FUNC",
    "FUNC_PROTO",
    "VAR",
    "DATASEC",
    "FLOAT",
    "DECL_TAG",
    "TYPE_TAG",
    "ENUM64",
];

/// How an argument is given.
enum Form {
    /// By its place.
    Place,
    /// By its place, one or more of them.
    Places,
    /// `--NAME VALUE`.
    Value,
    /// `--NAME VALUE`, any number of times.
    Values,
    /// `--NAME`.
    Flag,
    /// `-o OUT`.
    Output,
    /// One of `KINDS`.
    Kind,
    /// Features by their names, with commas between them.
    Features,
}

/// An argument.
struct Argument {
    /// The commands that take it.
    of: &'static [&'static str],
    name: &'static str,
    form: Form,
    /// What its value is called in the help.
    value: &'static str,
    is_required: bool,
    help: &'static str,
}

/// A command.
struct Description {
    name: &'static str,
    about: &'static str,
    after_help: &'static str,
    /// Whether `--kernel` or `--has` has to be given.
    is_for_kernel: bool,
}

/// The arguments: the help of a command has them in this order.
static ARGUMENTS: [Argument; 29] = [
    Argument {
        of: &["header", "layout", "sanitize"],
        name: "file",
        form: Form::Place,
        value: "FILE",
        is_required: true,
        help: "The object or table",
    },
    Argument {
        of: &["dump", "check"],
        name: "file",
        form: Form::Places,
        value: "FILE",
        is_required: true,
        help: "The object or table; each further one is listed after it",
    },
    Argument {
        of: &["ext"],
        name: "file",
        form: Form::Places,
        value: "FILE",
        is_required: true,
        help: "The object; each further one is listed after it",
    },
    Argument {
        of: &["relocate"],
        name: "file",
        form: Form::Places,
        value: "FILE",
        is_required: true,
        help: "The program's object; without -o and --json, each further one is listed after it",
    },
    Argument {
        of: &["layout"],
        name: "name",
        form: Form::Place,
        value: "NAME",
        is_required: true,
        help: "The structure, the union, or the typedef of one",
    },
    Argument {
        of: &["compat"],
        name: "file",
        form: Form::Place,
        value: "FILE",
        is_required: true,
        help: "The program's object or table",
    },
    Argument {
        of: &["compat"],
        name: "target",
        form: Form::Place,
        value: "TARGET",
        is_required: true,
        help: "The kernel's object or table",
    },
    Argument {
        of: &["header"],
        name: "names",
        form: Form::Places,
        value: "NAME",
        is_required: false,
        help: "Only types of these names, and the types that they need",
    },
    Argument {
        of: &["compat"],
        name: "names",
        form: Form::Places,
        value: "NAME",
        is_required: true,
        help: "The types",
    },
    Argument {
        of: &["check"],
        name: "target",
        form: Form::Value,
        value: "TABLE",
        is_required: false,
        help: "Write also the relocations that this table, the kernel's, cannot satisfy",
    },
    Argument {
        of: &["relocate"],
        name: "target",
        form: Form::Values,
        value: "TABLE",
        is_required: false,
        help: "The kernel's object or table, by default that of the running kernel; each further one \
              is that of a module",
    },
    Argument {
        of: &["dump", "header", "layout", "ext", "check", "sanitize"],
        name: "base",
        form: Form::Value,
        value: "BASE",
        is_required: false,
        help: "The kernel's object or table, if FILE has the split table of a module",
    },
    Argument {
        of: &["compat"],
        name: "base",
        form: Form::Value,
        value: "BASE",
        is_required: false,
        help: "The kernel's object or table, if TARGET has the split table of a module",
    },
    Argument {
        of: &["relocate"],
        name: "base",
        form: Form::Value,
        value: "BASE",
        is_required: false,
        help: "The kernel's object or table, if TABLE has the split table of a module",
    },
    Argument {
        of: &["dump"],
        name: "ids",
        form: Form::Value,
        value: "A..B",
        is_required: false,
        help: "Only ids from A on and below B, either of which may be left out; or only this id",
    },
    Argument {
        of: &["dump"],
        name: "name",
        form: Form::Value,
        value: "TEXT",
        is_required: false,
        help: "Only types of this name",
    },
    Argument {
        of: &["dump", "header"],
        name: "kind",
        form: Form::Kind,
        value: "KIND",
        is_required: false,
        help: "Only types of this kind",
    },
    Argument {
        of: &["sanitize"],
        name: "output",
        form: Form::Output,
        value: "OUT",
        is_required: true,
        help: "The new file; - is standard output",
    },
    Argument {
        of: &["relocate"],
        name: "output",
        form: Form::Output,
        value: "OUT",
        is_required: false,
        help: "Write the relocated object to this file, and a list only with --json; - is standard output",
    },
    Argument {
        of: &["sanitize"],
        name: "table-only",
        form: Form::Flag,
        value: "",
        is_required: false,
        help: "Write the rewritten table alone, which a loader gives to the kernel",
    },
    Argument {
        of: &["check", "sanitize"],
        name: "kernel",
        form: Form::Value,
        value: "VERSION",
        is_required: false,
        help: "The features of this version of Linux, as 5.4 or what uname -r prints; from 4.18 on",
    },
    Argument {
        of: &["check", "sanitize"],
        name: "has",
        form: Form::Features,
        value: "FEATURE",
        is_required: false,
        help: "These features, with commas between them",
    },
    Argument {
        of: &["check", "sanitize"],
        name: "fill-sized",
        form: Form::Flag,
        value: "",
        is_required: false,
        help: "Give a DATASEC that has a size and no entries one, where the kernel takes none without",
    },
    Argument {
        of: &["check", "sanitize"],
        name: "placeholder",
        form: Form::Value,
        value: "NAME",
        is_required: false,
        help: "The variable that takes the place of functions in .ksyms; implies --no-finalize",
    },
    Argument {
        of: &["check", "sanitize"],
        name: "no-finalize",
        form: Form::Flag,
        value: "",
        is_required: false,
        help: "Rewrite the table as the compiler wrote it; else it first gets its offsets and sizes, \
              as libbpf sets them",
    },
    Argument {
        of: &["relocate"],
        name: "fresh",
        form: Form::Flag,
        value: "",
        is_required: false,
        help: "Give each record all candidates, as the kernel does, not as libbpf",
    },
    Argument {
        of: &["relocate"],
        name: "keep-going",
        form: Form::Flag,
        value: "",
        is_required: false,
        help: "With -o: write the object even if a record has an error",
    },
    Argument {
        of: &["relocate"],
        name: "allow-poison",
        form: Form::Flag,
        value: "",
        is_required: false,
        help: "Status 0 where an instruction is poisoned, as in dead code",
    },
    Argument {
        of: &["relocate"],
        name: "json",
        form: Form::Flag,
        value: "",
        is_required: false,
        help: "Write the list as a JSON document",
    },
];

/// The commands in the order of the help.
static COMMANDS: [Description; 8] = [
    Description {
        name: "dump",
        about: "Writes every type, as bpftool btf dump file FILE format raw does",
        after_help: "Example: btfobj dump /sys/kernel/btf/vmlinux --name task_struct --kind struct",
        is_for_kernel: false,
    },
    Description {
        name: "header",
        about: "Writes the types as a C header, as bpftool btf dump file FILE format c does",
        after_help: "Examples: btfobj header /sys/kernel/btf/vmlinux > vmlinux.h\n          \
             btfobj header vmlinux task_struct sk_buff --kind struct",
        is_for_kernel: false,
    },
    Description {
        name: "layout",
        about: "Writes the members of a structure or a union with their offsets, sizes and holes, as pahole does",
        after_help: "Example: btfobj layout /sys/kernel/btf/vmlinux sk_buff",
        is_for_kernel: false,
    },
    Description {
        name: "ext",
        about: "Writes the functions, lines and relocations of .BTF.ext, by sections of the program",
        after_help: "Example: btfobj ext prog.o",
        is_for_kernel: false,
    },
    Description {
        name: "check",
        about: "Writes what the table needs of a kernel, and which types a rewrite for the kernel changes",
        after_help: "Examples: btfobj check prog.o --kernel 5.4\n          \
             btfobj check prog.o --kernel 5.15 --target vmlinux-5.15\n          \
             btfobj check module.btf --base vmlinux --kernel 5.8\n\
             Exit status: 0 where the kernel has what the table needs and each relocation has a value,\n\
             1 where it has not or a relocation has an error, 3 where a relocation poisons its instruction.",
        is_for_kernel: true,
    },
    Description {
        name: "sanitize",
        about: "Rewrites the table for a kernel, as a loader does when it loads the object",
        after_help: "Examples: btfobj sanitize prog.o -o prog.5.4.o --kernel 5.4\n          \
             btfobj sanitize prog.o -o prog.old.o --has Func,DataSec --fill-sized\n          \
             btfobj sanitize module.btf --base vmlinux -o module.5.8.btf --kernel 5.8",
        is_for_kernel: true,
    },
    Description {
        name: "relocate",
        about: "Applies the CO-RE relocations of an object for a kernel, or lists what they do",
        after_help: "Examples: btfobj relocate prog.o\n          \
             btfobj relocate prog.o --target vmlinux -o prog.relocated.o\n          \
             btfobj relocate prog.o --target vmlinux --target module.ko\n\
             Exit status: 0 where each record has a value, 1 where a record has an error, 3 where an\n\
             instruction is poisoned.",
        is_for_kernel: false,
    },
    Description {
        name: "compat",
        about: "Says whether types of these names are compatible in two tables, as a relocation of the first asks",
        after_help: "Example: btfobj compat prog.o /sys/kernel/btf/vmlinux task_struct\n\
             Exit status: 0 where all are compatible, else 1.",
        is_for_kernel: false,
    },
];

/// An argument as its form says.
fn arg_of<'a>(alloc: Global, row: &'a Argument) -> Arg<'a> {
    let arg = Arg::new(alloc, row.name)
        .help(row.help)
        .required(row.is_required);
    match row.form {
        Form::Place => arg.value_name(row.value),
        Form::Places => arg.value_name(row.value).num_args(1..),
        Form::Value => arg.long(row.name).value_name(row.value),
        Form::Values => arg
            .long(row.name)
            .value_name(row.value)
            .action(ArgAction::Append),
        Form::Flag => arg.long(row.name).action(ArgAction::SetTrue),
        Form::Output => arg.long(row.name).value_name(row.value).short('o'),
        Form::Kind => arg
            .long(row.name)
            .value_name(row.value)
            .value_parser(KINDS.as_slice())
            .ignore_case(true),
        Form::Features => arg
            .long(row.name)
            .value_name(row.value)
            .value_delimiter(',')
            .value_parser(FEATURE_NAMES.as_slice()),
    }
}

/// The arguments of which one has to be given.
fn kernel_or_has<'a>(alloc: Global) -> Result<ArgGroup<'a>, AllocError> {
    let group = ArgGroup::new(alloc, "features").arg("kernel")?;
    Ok(group.arg("has")?.required(true))
}

/// A command with its arguments.
fn described<'a>(alloc: Global, row: &'a Description) -> Result<Command<'a>, AllocError> {
    let mut command = Command::new(alloc, row.name)
        .about(row.about)
        .after_help(row.after_help);
    for it in ARGUMENTS.iter().filter(|it| it.of.contains(&row.name)) {
        command = command.arg(arg_of(alloc, it))?;
    }
    Ok(command)
}

/// A command with its arguments, and with the group of those about a kernel if it is for one.
fn subcommand<'a>(alloc: Global, row: &'a Description) -> Result<Command<'a>, AllocError> {
    let command = described(alloc, row)?;
    if row.is_for_kernel {
        command.group(kernel_or_has(alloc)?)
    } else {
        Ok(command)
    }
}

/// The whole command line.
pub fn command<'a>(alloc: Global) -> Result<Command<'a>, AllocError> {
    let mut command = Command::new(alloc, "btfobj")
        .version(VERSION)
        .about("Reads and rewrites the BTF of ELF objects, and BTF tables alone")
        .subcommand_required(true)
        .arg_required_else_help(true)
        .after_help(
            "FILE is an ELF object or a BTF table of either byte order; - is standard input.\n\
             Exit status: 0, 1 where a file is refused or a check says no, 2 for the command line,\n\
             3 where a relocation poisons its instruction.",
        );
    for row in &COMMANDS {
        command = command.subcommand(subcommand(alloc, row)?)?;
    }
    Ok(command)
}
