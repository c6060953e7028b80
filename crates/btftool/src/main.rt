//! `btftool`: reads a BTF table from standard input, and writes what a command makes of it.
#![tactic(auto)]

use btf_cli::run;
use std::alloc::Global;
use std::io::{ErrorKind, Write};
use std::process::ExitCode;
use std::{env, io};

/// The words after the program's name.
fn words(rt: &HostRuntime, alloc: Global) -> io::Result<Vec<String>> {
    let mut words = Vec::new(alloc);
    for word in env::args(rt)?.skip(1) {
        words.push(word)?;
    }
    Ok(words)
}

/// Reports that there is no memory for the words.
fn refused(rt: &HostRuntime) -> ExitCode {
    // A fault in reporting changes nothing.
    let _ = rt.stderr().write_all(b"out of memory\n");
    ExitCode::FAILURE
}

fn main(rt: HostRuntime) -> ExitCode {
    let words = match words(&rt, rt.alloc()) {
        Ok(words) => words,
        Err(e) if e.kind() == ErrorKind::OutOfMemory => return refused(&rt),
        // Words that are no text are words that can't be read, as none are.
        Err(_) => Vec::new(rt.alloc()),
    };
    let status = run(
        rt.alloc(),
        &words,
        &mut rt.stdin(),
        &mut rt.stdout(),
        &mut rt.stderr(),
    );
    ExitCode::from(status)
}
