//! A kernel's table that is parsed and written, and one that is rewritten for another kernel.

use crate::digest::Digest;
use crate::kernel::kernel_input;
use crate::random::Random;
use btf::{Btf, BtfFeature, BtfFeatureResolver, Endianness, FillPolicy, rewrite_bytes_with};
use std::alloc::Global;
use std::collections::HashMap;
use std::test::Fail;

/// Parses tables, and writes them.
pub fn copy(alloc: Global, random: &mut Random, types: u32, rounds: u32) -> Result<Digest, Fail> {
    let mut digest = Digest::new();
    let mut input = kernel_input(alloc, random, types)?;
    for _ in 0..rounds {
        input.change(random);
        let table = Btf::parse(alloc, &input.bytes, Endianness::Little)?;
        digest.add_bytes(&table.to_bytes()?);
    }
    Ok(digest)
}

/// The bit of a feature in the number of a kernel's features.
pub fn bit(feature: BtfFeature) -> u32 {
    match feature {
        BtfFeature::Func => 1,
        BtfFeature::FuncGlobal => 2,
        BtfFeature::DataSec => 4,
        BtfFeature::DataSecZero => 8,
        BtfFeature::Float => 16,
        BtfFeature::DeclTag => 32,
        BtfFeature::TypeTag => 64,
        BtfFeature::Enum64 => 128,
    }
}

/// Rewrites a table for the kernel of some features, from bytes to bytes.
fn rewrite_for(alloc: Global, bytes: &[u8], features: u32) -> Result<Vec<u8>, Fail> {
    let sections = HashMap::new(alloc);
    let symbols = HashMap::new(alloc);
    let mut resolver = BtfFeatureResolver::new(|feature| features & bit(feature) != 0);
    let (bytes, _) = rewrite_bytes_with(
        alloc,
        bytes,
        Endianness::Little,
        &sections,
        &symbols,
        None,
        FillPolicy::KeepSized,
        &mut resolver,
    )?;
    Ok(bytes)
}

/// Rewrites tables, each for another kernel; every fourth has none of the features, and every fourth all.
pub fn rewrite(
    alloc: Global,
    random: &mut Random,
    types: u32,
    rounds: u32,
) -> Result<Digest, Fail> {
    let mut digest = Digest::new();
    let mut input = kernel_input(alloc, random, types)?;
    for round in 0..rounds {
        input.change(random);
        let features = match round % 4 {
            0 => 0,
            1 => 255,
            _ => random.below(256),
        };
        digest.add_bytes(&rewrite_for(alloc, &input.bytes, features)?);
    }
    Ok(digest)
}
