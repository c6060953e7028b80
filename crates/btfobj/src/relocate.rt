//! Carrying out `relocate`, and what `check` says of relocations.

use crate::output::Output;
use crate::run::{Answer, Cause, Failure, blame, hasher, read, read_over, read_table, write};
use btf_loader::{CandidatePolicy, Refusals, SectionOutcomes};
use btf_relocate::{Target, Targets};
use btf_table::Btf;
use btfobj_cli::{
    Ending, Fault, Form, Relocated, Relocation, TableInPlace, asks_for_few_types, list_relocations,
    relocate, running_base,
};

/// Relocates the code of an object. Writes the new object, or without an output what was done for its records; as JSON
/// it is also written beside an output.
pub fn relocate_file<'a>(
    rt: &HostRuntime,
    file: &'a str,
    relocation: &Relocation<'a>,
    out: &mut Output<'_>,
) -> Result<Answer, Failure<'a>> {
    let bytes = read(rt, file)?;
    let searches = searches_of(rt, file, &bytes, relocation.policy);
    if is_read_in_place(relocation, searches) {
        return relocate_in_place(rt, file, &bytes, relocation, out);
    }
    let table = read_table(rt, relocation.target, relocation.base)?;
    let tables = read_modules(rt, &relocation.modules, &table)?;
    relocate_over(rt, file, &bytes, relocation, searches, &table, &tables, out)
}

/// Whether the target's table is read in the bytes of its file, because few types of it are needed.
fn is_read_in_place(relocation: &Relocation<'_>, searches: Searches) -> bool {
    match (searches, relocation.base, running_base(relocation.target)) {
        (Searches::Few, None, None) => relocation.modules.is_empty(),
        _ => false,
    }
}

/// Relocates the code of an object for a table in the bytes of its file.
fn relocate_in_place<'a>(
    rt: &HostRuntime,
    file: &'a str,
    bytes: &[u8],
    relocation: &Relocation<'a>,
    out: &mut Output<'_>,
) -> Result<Answer, Failure<'a>> {
    let target = read(rt, relocation.target)?;
    let table = blame(
        relocation.target,
        TableInPlace::of_file(rt.alloc(), &target),
    )?;
    let kernel = Target::of_view(table.table());
    relocate_for(rt, file, bytes, relocation, &kernel, &[], out)
}

/// Relocates the code of an object for these tables: a kernel's, and those of its modules.
fn relocate_over<'a, 't>(
    rt: &HostRuntime,
    file: &'a str,
    bytes: &[u8],
    relocation: &Relocation<'a>,
    searches: Searches,
    table: &'t Btf,
    tables: &'t [Btf],
    out: &mut Output<'_>,
) -> Result<Answer, Failure<'a>> {
    let kernel = target_over(rt, relocation.target, table, searches)?;
    let modules = targets_over(rt, &relocation.modules, tables, searches)?;
    relocate_for(rt, file, bytes, relocation, &kernel, &modules, out)
}

/// Relocates the code of an object for a kernel with modules.
fn relocate_for<'a, 'b, 't>(
    rt: &HostRuntime,
    file: &'a str,
    bytes: &[u8],
    relocation: &Relocation<'a>,
    kernel: &'b Target<'t>,
    modules: &'b [Target<'t>],
    out: &mut Output<'_>,
) -> Result<Answer, Failure<'a>> {
    let targets = Targets { kernel, modules };
    let (policy, refusals) = (relocation.policy, relocation.refusals);
    let (written, sections) = relocated(rt, file, bytes, &targets, policy, refusals)?;
    let relocated = Relocated {
        bytes,
        sections: &sections,
        targets: &targets,
    };
    if let Some(output) = relocation.output {
        write(rt, output, &written, out)?;
    }
    if relocation.is_listed() {
        list(rt, file, &relocated, relocation.form, out)?;
    }
    Ok(match Ending::of(&sections) {
        Ending::Poisoned if relocation.allows_poison => Answer::Yes,
        ending => Answer::from(ending),
    })
}

/// The object relocated for these tables, and what was done for its records.
fn relocated<'a>(
    rt: &HostRuntime,
    file: &'a str,
    bytes: &[u8],
    targets: &Targets<'_, '_>,
    policy: CandidatePolicy,
    refusals: Refusals,
) -> Result<(Vec<u8>, Vec<SectionOutcomes>), Failure<'a>> {
    let keys = hasher(rt, file)?;
    blame(
        file,
        relocate(rt.alloc(), bytes, targets, policy, refusals, keys),
    )
}

/// Writes the number of relocation records of an object, and the records that the table of a file cannot satisfy.
/// Returns how the records end.
pub fn summarize<'a>(
    rt: &HostRuntime,
    file: &'a str,
    bytes: &[u8],
    target: &'a str,
    out: &mut Output<'_>,
) -> Result<Ending, Failure<'a>> {
    let table = read_table(rt, target, None)?;
    let (policy, refusals) = (CandidatePolicy::Shared, Refusals::Keep);
    let target = target_over(rt, target, &table, searches_of(rt, file, bytes, policy))?;
    let targets = Targets {
        kernel: &target,
        modules: &[],
    };
    let (_, sections) = relocated(rt, file, bytes, &targets, policy, refusals)?;
    let relocated = Relocated {
        bytes,
        sections: &sections,
        targets: &targets,
    };
    list(rt, file, &relocated, Form::Summary, out)?;
    Ok(Ending::of(&sections))
}

/// Writes what became of the records of an object.
fn list<'a>(
    rt: &HostRuntime,
    file: &'a str,
    relocated: &Relocated<'_, '_>,
    form: Form,
    out: &mut Output<'_>,
) -> Result<(), Failure<'a>> {
    let keys = hasher(rt, file)?;
    blame(
        file,
        list_relocations(rt.alloc(), relocated, form, keys, out),
    )
}

/// How often an object searches the tables that it is relocated against.
#[derive(Clone, Copy)]
enum Searches {
    /// For few types, each of them once.
    Few,
    /// Often.
    Many,
}

/// How often an object searches the tables that it is relocated against. One that cannot be read does not.
fn searches_of(rt: &HostRuntime, file: &str, bytes: &[u8], policy: CandidatePolicy) -> Searches {
    if let CandidatePolicy::Fresh = policy {
        return Searches::Many;
    }
    let Ok(keys) = hasher(rt, file) else {
        return Searches::Few;
    };
    match asks_for_few_types(rt.alloc(), bytes, keys) {
        Ok(false) => Searches::Many,
        Ok(true) | Err(_) => Searches::Few,
    }
}

/// The table of a file as a target, with an index of its types if it is searched often.
fn target_over<'a, 't>(
    rt: &HostRuntime,
    file: &'a str,
    table: &'t Btf,
    searches: Searches,
) -> Result<Target<'t>, Failure<'a>> {
    if let Searches::Few = searches {
        return Ok(Target::without_index(table));
    }
    match Target::new(rt.alloc(), table) {
        Ok(target) => Ok(target),
        Err(e) => Err(Failure {
            file,
            cause: Cause::Fault(Fault::from(e)),
        }),
    }
}

/// The tables of modules in these files, each over the kernel's table.
fn read_modules<'a>(
    rt: &HostRuntime,
    files: &[&'a str],
    kernel: &Btf,
) -> Result<Vec<Btf>, Failure<'a>> {
    let mut tables = Vec::new(rt.alloc());
    for file in files {
        let table = read_over(rt, *file, Some(kernel))?;
        add(*file, &mut tables, table)?;
    }
    Ok(tables)
}

/// The tables of these files as targets.
fn targets_over<'a, 't>(
    rt: &HostRuntime,
    files: &[&'a str],
    tables: &'t [Btf],
    searches: Searches,
) -> Result<Vec<Target<'t>>, Failure<'a>> {
    let mut targets = Vec::new(rt.alloc());
    for (file, table) in files.iter().zip(tables) {
        let target = target_over(rt, *file, table, searches)?;
        add(*file, &mut targets, target)?;
    }
    Ok(targets)
}

/// Appends what was made of a file.
fn add<'a, T: Drop>(file: &'a str, all: &mut Vec<T>, value: T) -> Result<(), Failure<'a>> {
    match all.push(value) {
        Ok(()) => Ok(()),
        Err(e) => Err(Failure {
            file,
            cause: Cause::Fault(Fault::from(e)),
        }),
    }
}
