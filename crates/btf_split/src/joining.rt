//! A split table after its base.

ghost use Rattle.std.specs.Prelude.{◌≡◌, ◌<◌, ◌≤◌, length, Ok, Err, OnOk, OnErr};
ghost use Rattle.btf_model.specs.Refusal.{Refusal};
ghost use Rattle.btf_model.specs.Table.{Table};
ghost use Rattle.btf_split_model.specs.Split.{Appends, Joins, IsJoined, IsJoinedRefusal, cut, over_base};
ghost use Rattle.btf_plain.specs.Error.{Meets, MeetsOrNoMemory, IsOrNoMemory};

use btf_plain::{BtfError, Endianness};
use btf_table::{Btf, allocator_of, append_table, cut_table, join_tables, string_len, type_count};
use std::alloc::Global;

/// The table of a kernel module: the split table in `data`, whose words are in this byte order, over its base, the
/// kernel's table.
///
/// The result has the base's types under the base's ids, and then the types of the data; its strings are the base's and
/// then the data's. Byte order, magic, version and flags are the data's; the base may have another byte order. The
/// 64-bit enum values that the base retains of a rewrite are not in the result. Ids and string offsets are not checked,
/// as in `Btf::parse`.
///
/// Reports the first error, in this order: the errors of `Btf::parse` for the data; `InvalidHeader` if the strings of
/// base and data together exceed 4,294,967,295 bytes; and `InvalidTypeInfo` if their records do. Takes time linear in
/// the base and the data, because it copies the base: `append_split` takes time linear in the data.
pub fn parse_split(
    alloc: Global,
    base: &Btf,
    data: &[u8],
    endianness: Endianness,
) -> Result<Btf, BtfError>
    // The base with the split table, or the first reason to refuse the data.
    ensures parsed { MeetsOrNoMemory (λ b. b) result (Joins endianness base.now «data».now) }
    // Parsing succeeds exactly for data that is a split table over the base.
    ensures only_table { (t : Table) → IsJoined endianness base.now «data».now t
        → IsOrNoMemory (λ b. b) result (Ok t) }
    ensures only_refusal { (f : Refusal) → IsJoinedRefusal endianness base.now «data».now f
        → IsOrNoMemory (λ b. b) result (Err f) }
{
    read_joined(alloc, base, data, endianness)
}

/// Appends a split table, whose words are in this byte order, to its base. `truncate` with the numbers of the base's
/// types and bytes of strings removes it, so a program can read the modules of a kernel one after another over one
/// table.
///
/// The table then has the types and the strings that `parse_split` returns, and keeps its byte order, magic, version
/// and flags.
///
/// Fails as `parse_split`. An error leaves the table unchanged.
pub fn append_split(table: &mut Btf, data: &[u8], endianness: Endianness) -> Result<(), BtfError>
    ensures appended { MeetsOrNoMemory (λ _. table.new) result
        (Appends endianness table.old «data».now) }
    ensures err { OnErr result (table.new ≡ table.old) }
{
    let own = Btf::parse(allocator_of(table), data, endianness)?;
    append_table(table, own)
}

/// Removes all types of a table except the first `base_types`, id 0 included, and all bytes of its strings except the
/// first `base_strings`.
///
/// Fails with `UnknownBtfType` of `base_types` if it is 0 or the table has fewer types, and then with
/// `InvalidStringOffset` of `base_strings` if the table has fewer bytes of strings. An error leaves the table
/// unchanged. Takes time linear in what is removed, and allocates no memory.
pub fn truncate(table: &mut Btf, base_types: u32, base_strings: u32) -> Result<(), BtfError>
    ensures cut { Meets (λ _. table.new) result (λ answer. answer
        ≡ over_base base_types base_strings table.old (cut base_types base_strings table.old)) }
    ensures err { OnErr result (table.new ≡ table.old) }
{
    check_base(table, base_types, base_strings)?;
    cut_table(table, base_types, base_strings);
    Ok(())
}

/// Fails if a table has no base with these numbers of types and of bytes of strings: with `UnknownBtfType`, or else
/// with `InvalidStringOffset`.
pub(crate) fn check_base(table: &Btf, base_types: u32, base_strings: u32) -> Result<(), BtfError>
    ensures checked { Meets (λ u. u) result (λ answer. answer
        ≡ over_base base_types base_strings table.now tt) }
    ensures fits { OnOk result ((0 < base_types) × (base_types ≤ length table.now.records)
        × (base_strings ≤ length table.now.strings)) }
{
    if base_types == 0 || base_types > type_count(table) {
        return Err(BtfError::UnknownBtfType {
            type_id: base_types,
        });
    }
    if base_strings > string_len(table) {
        return Err(BtfError::InvalidStringOffset {
            offset: base_strings as usize,
        });
    }
    Ok(())
}

/// The base with the split table, or the first reason to refuse the data.
fn read_joined(
    alloc: Global,
    base: &Btf,
    data: &[u8],
    endianness: Endianness,
) -> Result<Btf, BtfError>
    ensures { MeetsOrNoMemory (λ b. b) result (Joins endianness base.now «data».now) }
{
    let own = Btf::parse(alloc, data, endianness)?;
    join_tables(base, own)
}
