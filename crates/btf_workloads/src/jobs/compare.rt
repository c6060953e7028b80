//! The comparisons of a relocation engine, between a program's table and a kernel's.

use crate::digest::Digest;
use crate::kernel::kernel_input;
use crate::random::Random;
use btf::{Btf, BtfError, Endianness, fields_are_compatible, types_are_compatible};
use std::alloc::Global;
use std::test::Fail;

/// Adds whether a type is compatible with the one of an equal id, both ways.
fn compare(local: &Btf, target: &Btf, id: u32, digest: &mut Digest) {
    digest.add_found(types_are_compatible(local, id, target, id));
    digest.add_found(types_are_compatible(target, id, local, id));
    digest.add_found(fields_are_compatible(local, id, target, id));
}

/// Compares all types of two tables with equal ids.
fn compare_all(local: &Btf, target: &Btf, digest: &mut Digest) {
    let mut id = 0u32;
    for _ in local.types() {
        compare(local, target, id, digest);
        id = id.wrapping_add(1);
    }
}

/// The id that the target has for the kind and the name of a type of the local table.
fn look_up(local: &Btf, target: &Btf, id: u32) -> Result<u32, BtfError> {
    let record = local.type_by_id(id)?;
    let name = local.type_name(record)?;
    target.id_by_type_name_kind(name.as_str(), record.kind())
}

/// Looks this number of types of the local table up in the target.
fn look_up_some(random: &mut Random, local: &Btf, target: &Btf, count: u32, digest: &mut Digest) {
    let types = u32::try_from(local.types().len()).unwrap_or(0);
    let share = types / count.max(1);
    for place in 0..count {
        let id = random.from(place.wrapping_mul(share), share);
        digest.add_found(look_up(local, target, id));
    }
}

/// Relocates against kernels: compares each type with the type of the same id, and looks some up by name.
pub fn relocate(
    alloc: Global,
    random: &mut Random,
    types: u32,
    rounds: u32,
) -> Result<Digest, Fail> {
    let mut digest = Digest::new();
    let mut input = kernel_input(alloc, random, types)?;
    let local = Btf::parse(alloc, &input.bytes, Endianness::Little)?;
    for _ in 0..rounds {
        input.change(random);
        let target = Btf::parse(alloc, &input.bytes, Endianness::Little)?;
        compare_all(&local, &target, &mut digest);
        look_up_some(random, &local, &target, 30, &mut digest);
    }
    Ok(digest)
}
