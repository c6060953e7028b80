//! A table after another one: the types of a kernel module after those of the kernel.

ghost use Rattle.std.specs.Prelude.{◌≡◌, ◌≤◌, ◌<◌, length, OnErr, Ok};
ghost use Rattle.btf_model.specs.Table.{type_bytes};
ghost use Rattle.btf_plain.specs.Error.{IsOrNoMemory, Meets, MeetsOrNoMemory};
ghost use Rattle.btf_table.specs.Joined.{Fits, followed, under, CutsTable};

use crate::table::types::{clone_records, types_len};
use crate::table::{Btf, Changes, SECTION_LIMIT};
use btf_plain::BtfError;

/// The length of a table's strings in bytes, for the crates that use this one.
pub fn string_len(table: &Btf) -> u32
    ensures { result ≡ length table.now.strings }
{
    table.string_len() as u32
}

/// A table after its base: the base's strings and types, without fallbacks, and then those of the table, without its id
/// 0. Byte order and header are the table's. For the crates that use this one.
///
/// Fails with `InvalidHeader` if the strings of both exceed 4,294,967,295 bytes, and else with `InvalidTypeInfo` if the
/// records do.
pub fn join_tables(base: &Btf, own: Btf) -> Result<Btf, BtfError>
    ensures { MeetsOrNoMemory (λ b. b) result (Fits (followed (under base.now own) own)
        (λ joined. joined ≡ followed (under base.now own) own)) }
{
    let mut joined = base_under(base, &own)?;
    append_table(&mut joined, own)?;
    Ok(joined)
}

/// Appends the strings and the types of another table, without its id 0. Byte order and header stay. For the crates
/// that use this one.
///
/// Fails as `join_tables`. An error leaves the table unchanged.
pub fn append_table(table: &mut Btf, own: Btf) -> Result<(), BtfError>
    ensures joined { MeetsOrNoMemory (λ u. u) result (Fits (followed table.old own)
        (λ _. table.new ≡ followed table.old own)) }
    ensures err { OnErr result (table.new ≡ table.old) }
{
    let type_len = len_after(table, &own)?;
    let alloc = table.allocator();
    let Btf {
        strings,
        mut types,
        ..
    } = own;
    types.remove(0);
    table.apply(Changes {
        types: Vec::new(alloc),
        new_strings: strings,
        new_types: types,
        type_len,
    })?;
    Ok(())
}

/// Removes all types except the first `types`, id 0 included, and all strings except their first `strings` bytes. For
/// the crates that use this one.
pub fn cut_table(table: &mut Btf, types: u32, strings: u32)
    requires first { 0 < types }
    requires types { types ≤ length table.old.records }
    ensures { CutsTable table.old table.new types strings }
{
    let count = types as usize;
    let removed = types_len(&table.types[count..], table.endianness);
    table.type_len -= removed as u32;
    table.types.truncate(count);
    table.strings.truncate(strings as usize);
}

/// The length of the records of both tables in bytes. Fails if the sections of both tables together are too long for a
/// blob: with `InvalidHeader` if the strings are, or else with `InvalidTypeInfo`.
fn len_after(base: &Btf, own: &Btf) -> Result<usize, BtfError>
    ensures { Meets (λ n. n) result (Fits (followed base.now own.now)
        (λ n. n ≡ length (type_bytes (followed base.now own.now)))) }
{
    if base.strings.len() + own.strings.len() > SECTION_LIMIT {
        return Err(BtfError::InvalidHeader);
    }
    let len = base.type_len as usize + own.type_len as usize;
    if len > SECTION_LIMIT {
        return Err(BtfError::InvalidTypeInfo);
    }
    Ok(len)
}

/// A copy of a base without fallbacks, in the byte order and with the header of another table. It has room for the
/// types and strings of that table.
fn base_under(base: &Btf, own: &Btf) -> Result<Btf, BtfError>
    ensures { IsOrNoMemory (λ b. b) result (Ok (under base.now own.now)) }
{
    let len = base.string_len() + own.string_len();
    let mut strings = Vec::with_capacity(base.allocator(), len)?;
    strings.extend_from_slice(&base.strings)?;
    Ok(Btf {
        endianness: own.endianness,
        magic: own.magic,
        version: own.version,
        flags: own.flags,
        strings,
        types: clone_records(&base.types, own.types.len())?,
        type_len: base.type_len,
    })
}
