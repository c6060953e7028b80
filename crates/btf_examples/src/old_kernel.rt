//! Rewrites a program's table for a kernel that lacks newer features, from bytes to bytes.

use btf::{BtfFeature, BtfFeatureResolver, Endianness, SectionIndex, rewrite_bytes};
use std::collections::HashMap;
use std::test::Fail;

/// Rewrites the table for a kernel that has functions and data sections and none of the newer features. Prints the
/// features that the rewrite asked about, and the length of the new table.
pub fn print_rewritten(rt: &HostRuntime, bytes: &[u8]) -> Result<(), Fail> {
    let alloc = rt.alloc();
    // The sizes of the object's sections and the offsets of its symbols, which clang leaves 0 in the table.
    let mut sections = HashMap::new(alloc);
    for (name, size) in [(".bss", 16u64), (".maps", 16)] {
        sections.insert(String::from_str(alloc, name)?, (SectionIndex(0), size))?;
    }
    let mut symbols = HashMap::new(alloc);
    for (name, offset) in [("total", 0u64), ("installed", 8), ("counts", 0)] {
        symbols.insert(String::from_str(alloc, name)?, offset)?;
    }
    // A loader would try a small program for each feature. The rewrite asks about a feature at most once, and only if
    // the table needs it.
    let has = |feature| matches!(feature, BtfFeature::Func | BtfFeature::DataSec);
    let mut kernel = BtfFeatureResolver::new(has);
    let ksyms = None;
    let (rewritten, answers) = rewrite_bytes(
        alloc,
        bytes,
        Endianness::Little,
        &sections,
        &symbols,
        ksyms,
        &mut kernel,
    )?;
    for answer in answers.iter() {
        println!(rt; "{:?}: {}", answer.feature, answer.granted)?;
    }
    println!(rt; "{} bytes, rewritten {}", bytes.len(), rewritten.len())?;
    Ok(())
}
