//! How many types of a target an object asks for.

use crate::fault::Fault;
use crate::relocation::read_parts;
use arrayvec::ArrayVec;
use std::alloc::Global;
use std::hash::BuildHasher;

/// Up to this number, a search over all types of the target for each type is faster than an index of them.
const FEW: usize = 16;

/// Whether the relocation records of an object are about few types, so that a target needs no index.
///
/// The errors are those of `InputFile::read`, `InputFile::whole_table` and `InputFile::ext`, and `Table` with the error
/// of `BtfExt::parse`.
pub fn asks_for_few_types<H: BuildHasher + Clone + Drop>(
    alloc: Global,
    bytes: &[u8],
    hash_builder: H,
) -> Result<bool, Fault> {
    let (_, ext) = read_parts(alloc, bytes, hash_builder)?;
    let mut types = ArrayVec::new();
    for (_, records) in ext.relocations() {
        if !add_types(&mut types, records) {
            return Ok(false);
        }
    }
    Ok(true)
}

/// Adds the types of these records; false if there are more than a few.
fn add_types(types: &mut ArrayVec<u32, FEW>, records: &[[u32; 4]]) -> bool {
    for record in records {
        if types.contains(&record[1]) {
            continue;
        }
        if types.try_push(record[1]).is_err() {
            return false;
        }
    }
    true
}
