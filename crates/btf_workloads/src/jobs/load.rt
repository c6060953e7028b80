//! Programs that are loaded, one after the other.

use crate::digest::Digest;
use crate::jobs::rewrite::bit;
use crate::program::{Program, drawn_program};
use crate::random::Random;
use btf::{Btf, BtfExt, BtfFeatureResolver, Endianness, relocations_of};
use std::alloc::Global;
use std::test::Fail;

/// Adds the records of `.BTF.ext` for a section of code.
fn add_section(
    alloc: Global,
    ext: &BtfExt,
    table: &Btf,
    name: &str,
    digest: &mut Digest,
) -> Result<(), Fail> {
    let functions = ext.func_info().get(name)?;
    digest.add_bytes(&functions.func_info_bytes()?);
    let lines = ext.line_info().get(name)?;
    digest.add_bytes(&lines.line_info_bytes()?);
    let relocations = relocations_of(alloc, ext, table, name)?;
    for words in &relocations {
        digest.add(u64::from(words[0]).wrapping_add(u64::from(words[1])));
    }
    Ok(())
}

/// Adds the records of `.BTF.ext` for all sections of code of a program.
fn add_sections(
    alloc: Global,
    program: &Program,
    table: &Btf,
    digest: &mut Digest,
) -> Result<(), Fail> {
    let ext = BtfExt::parse(&program.ext.bytes, program.order, table)?;
    for name in &program.code {
        add_section(alloc, &ext, table, name.as_str(), digest)?;
    }
    Ok(())
}

/// Loads a program into the kernel of some features.
fn load_one(
    alloc: Global,
    program: &Program,
    features: u32,
    digest: &mut Digest,
) -> Result<(), Fail> {
    let mut table = Btf::parse(alloc, &program.table.bytes, program.order)?;
    add_sections(alloc, program, &table, digest)?;
    let mut resolver = BtfFeatureResolver::new(|feature| features & bit(feature) != 0);
    table.fixup_and_sanitize(
        &program.sections,
        &program.symbols,
        program.ksyms,
        &mut resolver,
    )?;
    digest.add_bytes(&table.to_bytes()?);
    Ok(())
}

/// The programs that are loaded in turn: of some sizes, and in both orders.
fn programs(alloc: Global, random: &mut Random, size: u32) -> Result<Vec<Program>, Fail> {
    let mut programs = Vec::new(alloc);
    for place in 0..8 {
        let order = match place % 4 {
            3 => Endianness::Big,
            _ => Endianness::Little,
        };
        programs.push(drawn_program(alloc, random, order, size.wrapping_add(place))?)?;
    }
    Ok(programs)
}

/// Loads each program, changed, into a kernel.
fn load_each(
    alloc: Global,
    random: &mut Random,
    programs: &mut [Program],
    digest: &mut Digest,
) -> Result<(), Fail> {
    for program in programs {
        program.table.change(random);
        program.ext.change(random);
        let features = random.below(256);
        load_one(alloc, program, features, digest)?;
    }
    Ok(())
}

/// Loads programs of about this number of functions.
pub fn load(alloc: Global, random: &mut Random, size: u32, rounds: u32) -> Result<Digest, Fail> {
    let mut digest = Digest::new();
    let mut programs = programs(alloc, random, size)?;
    for _ in 0..rounds {
        load_each(alloc, random, &mut programs, &mut digest)?;
    }
    Ok(digest)
}
