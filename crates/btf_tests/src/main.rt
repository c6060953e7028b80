//! Answers calls that neither the C library nor `btftool` or `btfobj` makes: each line of standard input is a call, and
//! a line of standard output is its answer. `tests/run` compares the answers with the rows of tests/rows.
#![tactic(auto)]

mod comparison;
mod elf;
mod ext;
mod names;
mod objects;
mod orders;
mod records;
mod relocation;
mod rewriting;
mod symbols;
mod viewed;
mod words;

use crate::words::Words;
use std::alloc::Global;
use std::io;

/// The answer of a call about an object, a relocation or an order.
fn answer_of_object(name: &str, words: &mut Words<'_>) -> anyhow::Result<String> {
    match name {
        "relocations" => relocation::relocations(words),
        "declarations" => orders::declarations(words),
        "looks_split" => orders::looks(words),
        "elf_sections" => elf::sections(words),
        "elf_symbols" => elf::symbols(words),
        "elf_section" => elf::section(words),
        "replaced" => elf::replaced(words),
        "kernel" => objects::kernel(words),
        "kernel_with" => objects::kernel_with(words),
        "layout" => objects::layout(words),
        "ksyms_of" => objects::ksyms_ids(words),
        "sanitized" => objects::sanitized(words),
        "finalized" => objects::finalized(words),
        "prepared" => objects::prepared(words),
        // No row expects it.
        _ => Ok(String::new(words.alloc)),
    }
}

/// The answer of a call.
fn answer(alloc: Global, line: &str) -> anyhow::Result<String> {
    let mut words = Words::new(alloc, line);
    match words.word() {
        "record" => records::record(&mut words),
        "bits" => records::int_bits(&mut words),
        "built" => records::built_record(&mut words),
        "traced" => comparison::traced(&mut words),
        "names" => names::names(&mut words),
        "ext" => ext::ext(&mut words),
        "sections" => ext::sections(&mut words),
        "rewrite_bytes" => rewriting::bytes(&mut words),
        "rewrite_by_call" => rewriting::by_call(&mut words),
        "asked" => rewriting::asked(&mut words),
        "ksyms" => symbols::step(&mut words),
        "viewed" => viewed::types(&mut words),
        name => answer_of_object(name, &mut words),
    }
}

fn main(rt: HostRuntime) -> anyhow::Result<()> {
    let text = io::read_to_string(rt.alloc(), rt.reader())?;
    for line in text.as_str().lines() {
        match answer(rt.alloc(), line) {
            Ok(answer) => println!(rt; "{}", answer.as_str()),
            Err(e) => println!(rt; "{e}"),
        }?;
    }
    Ok(())
}
