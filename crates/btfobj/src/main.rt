//! `btfobj`: reads ELF objects and BTF tables, writes their contents as text, and rewrites them for an old kernel.
#![tactic(auto)]

mod files;
mod new_file;
mod output;
mod relocate;
mod run;

use crate::run::{carry_out, report_output};
use btfobj_cli::read_request;
use clap::Error;
use std::alloc::{AllocError, Global};
use std::io::ErrorKind;
use std::process::ExitCode;
use std::{env, io};

/// The size of the largest piece of memory that is taken from the heap of the allocator. glibc takes a larger piece
/// from the system, which clears each page at its first use, until one of this size was freed (mallopt(3)).
const LARGEST_PIECE: usize = 1 << 24;

/// Lets the allocator use freed memory again for large pieces. A failure changes nothing but the speed.
fn enlarge_heap_pieces(alloc: Global) {
    drop(Vec::<u8>::with_capacity(alloc, LARGEST_PIECE));
}

/// The words of the command line, including the program's name.
fn read_words(rt: &HostRuntime) -> io::Result<Vec<String>> {
    let mut words = Vec::new(rt.alloc());
    for word in env::args(rt)? {
        words.push(word)?;
    }
    Ok(words)
}

/// Why the command line cannot be read.
fn why_unread(error: &io::Error) -> &'static str {
    match error.kind() {
        ErrorKind::InvalidData => {
            "a word of the command line is not UTF-8; give such a file as standard input, by -"
        }
        ErrorKind::OutOfMemory => "out of memory",
        _ => "cannot read the command line",
    }
}

/// The words as borrowed texts.
fn lend(alloc: Global, words: &[String]) -> Result<Vec<&str>, AllocError> {
    let mut lent = Vec::with_capacity(alloc, words.len())?;
    for word in words {
        lent.push(word.as_str())?;
    }
    Ok(lent)
}

/// Prints an error of the command line, the help, or the version, and returns the status.
fn print_error(rt: &HostRuntime, error: &Error) -> ExitCode {
    let is_refusal = error.use_stderr();
    match error.print(rt) {
        Ok(()) => ExitCode::from(if is_refusal { 2 } else { 0 }),
        Err(_e) if is_refusal => ExitCode::FAILURE,
        Err(e) => report_output(rt, &e),
    }
}

fn main(rt: HostRuntime) -> ExitCode {
    enlarge_heap_pieces(rt.alloc());
    let words = match read_words(&rt) {
        Ok(words) => words,
        Err(e) => {
            let _ = eprintln!(rt; "btfobj: {}", why_unread(&e));
            return ExitCode::from(2);
        }
    };
    let Ok(words) = lend(rt.alloc(), &words) else {
        let _ = eprintln!(rt; "btfobj: out of memory");
        return ExitCode::FAILURE;
    };
    match read_request(rt.alloc(), &words) {
        Ok(request) => carry_out(&rt, &request),
        Err(error) => print_error(&rt, &error),
    }
}
