//! A kernel's table that is listed.

use crate::digest::Digest;
use crate::kernel::kernel_input;
use crate::random::Random;
use btf::{Btf, BtfType, Endianness};
use std::alloc::Global;
use std::test::Fail;

/// Adds the items of a type, except for the names, which many lists share.
fn list_items(record: &BtfType, digest: &mut Digest) {
    match record {
        BtfType::Enum(enumeration) => {
            for variant in enumeration.variants() {
                digest.add(u64::from(variant.value));
            }
        }
        BtfType::FuncProto(prototype) => {
            for param in prototype.params() {
                digest.add(u64::from(param.btf_type));
            }
        }
        _ => list_members(record, digest),
    }
}

/// Adds the positions of the members of a structure or a union.
fn list_members(record: &BtfType, digest: &mut Digest) {
    if let Some(members) = record.members() {
        for member in members {
            let first = record.member_bit_offset(member).unwrap_or(0);
            digest.add(u64::from(member.btf_type).wrapping_add(first as u64));
        }
    }
}

/// Adds a type: its kind, its name, its size, and the type that it resolves to.
fn list_type(table: &Btf, id: u32, record: &BtfType, digest: &mut Digest) -> Result<(), Fail> {
    digest.add(record.kind() as u64);
    digest.add_bytes(table.type_name(record)?.as_str().as_bytes());
    let size = table.type_size(id);
    digest.add(size.unwrap_or(usize::MAX) as u64);
    digest.add(u64::from(table.resolve_type(id).unwrap_or(u32::MAX)));
    list_items(record, digest);
    Ok(())
}

/// Adds all types of a table.
fn list_types(table: &Btf, digest: &mut Digest) -> Result<(), Fail> {
    let mut id = 0u32;
    for record in table.types() {
        list_type(table, id, record, digest)?;
        id = id.wrapping_add(1);
    }
    Ok(())
}

/// Lists tables.
pub fn list(alloc: Global, random: &mut Random, types: u32, rounds: u32) -> Result<Digest, Fail> {
    let mut digest = Digest::new();
    let mut input = kernel_input(alloc, random, types)?;
    for _ in 0..rounds {
        input.change(random);
        let table = Btf::parse(alloc, &input.bytes, Endianness::Little)?;
        list_types(&table, &mut digest)?;
    }
    Ok(digest)
}
