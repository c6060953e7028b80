//! `btf_bench`: measures the times of the library's calls, `btf_bench FILE [WHAT] [REPS] [--csv|--names]`.
//!
//! FILE is a table in little-endian order, such as `/sys/kernel/btf/vmlinux`. For each work, or for WHAT alone, it
//! prints the least and the median time of REPS runs, and the least time by record. With `--csv` it prints them in
//! nanoseconds, separated by commas; with `--names` it prints the names of the works without times.
//!
//! WHAT can also be a work on what an attacker could make, of which `bench/hostile.py` writes the files:
//! `compare=ID,ID` compares two types; `rewrite=OFFSET` rewrites the table for a kernel that has all features, with a
//! section and a symbol of the name at this string offset; `text=OFFSET,COUNT` reads the text there COUNT times;
//! `ext=FILE` parses the `.BTF.ext` of FILE, and `keyed_ext=FILE` parses it with random keys.
//!
//! `btf_bench FILE relocate=TARGET,RECORDS [REPS] [--csv|--names]` measures relocations of one table against that of
//! the file TARGET, the index of the target included. The file RECORDS has a line for each record: its type, the string
//! offset of its access string, and its kind.
#![tactic(auto)]

mod relocations;
mod table;
mod timing;
mod work;

use crate::relocations::Relocations;
use crate::table::{Form, Row};
use crate::timing::Timing;
use crate::work::{Bench, NAMES};
use btf::{Btf, Endianness};
use std::alloc::Global;
use std::test::Fail;
use std::{env, fs};

/// The words after the program's name.
fn words(rt: &HostRuntime, alloc: Global) -> Result<Vec<String>, Fail> {
    let mut words = Vec::new(alloc);
    for word in env::args(rt)?.skip(1) {
        words.push(word)?;
    }
    Ok(words)
}

/// The word at a place; empty if there is none.
fn word(words: &[String], place: usize) -> &str {
    words.get(place).map_or("", |it| it.as_str())
}

/// The table of a file.
fn table_of(rt: &HostRuntime, file: &str) -> Result<Btf, Fail> {
    let blob = fs::read(rt, file)?;
    Ok(Btf::parse(rt.alloc(), &blob, Endianness::Little)?)
}

/// Times a work, and prints its line.
fn time(rt: &HostRuntime, bench: &Bench, name: &str, reps: usize, form: Form) -> Result<(), Fail> {
    let mut timing = Timing::new(rt.alloc());
    for _ in 0..reps {
        timing.add(bench.nanoseconds(rt, name)?)?;
    }
    Row {
        name,
        units: bench.records(),
        unit: "record",
    }
    .print(rt, &timing, form)
}

/// Times the works on a table, or one of them, and prints a line for each.
fn time_works(rt: &HostRuntime, words: &[String], reps: usize, form: Form) -> Result<(), Fail> {
    let blob = fs::read(rt, word(words, 0))?;
    let btf = Btf::parse(rt.alloc(), &blob, Endianness::Little)?;
    let what = word(words, 1);
    let bench = Bench::new(rt.alloc(), &blob, &btf)?;
    if !matches!(what, "" | "all") {
        return time(rt, &bench, what, reps, form);
    }
    for name in &NAMES {
        time(rt, &bench, *name, reps, form)?;
    }
    Ok(())
}

/// Times the relocations of the records of a file, and prints their line.
fn time_relocations(
    rt: &HostRuntime,
    files: (&str, &str, &str),
    reps: usize,
    form: Form,
) -> Result<(), Fail> {
    let (local, kernel) = (table_of(rt, files.0)?, table_of(rt, files.1)?);
    let lines = fs::read_to_string(rt, files.2)?;
    let relocations = Relocations::new(rt.alloc(), &local, &kernel, lines.as_str())?;
    let mut timing = Timing::new(rt.alloc());
    for _ in 0..reps {
        timing.add(relocations.nanoseconds(rt)?)?;
    }
    Row {
        name: "relocate",
        units: relocations.count(),
        unit: "record",
    }
    .print(rt, &timing, form)
}

fn main(rt: HostRuntime) -> Result<(), Fail> {
    let words = words(&rt, rt.alloc())?;
    let reps = word(&words, 2).parse().unwrap_or(15);
    let form = Form::from(word(&words, 3));
    let files = word(&words, 1).strip_prefix("relocate=");
    match files.and_then(|it| it.split_once(',')) {
        Some((target, records)) => {
            time_relocations(&rt, (word(&words, 0), target, records), reps, form)
        }
        None => time_works(&rt, &words, reps, form),
    }
}
