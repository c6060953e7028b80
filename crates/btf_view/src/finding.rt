//! The type of a kind and a name.

ghost use Rattle.std.specs.Prelude.{◌≡◌, ◌≢◌, ◌<◌, ◌+◌, ◌^◌, ℕ, IfSome, IsTrue, Some, slice_get};
ghost use Rattle.btf_model.specs.Record as model;
ghost use Rattle.btf_model.specs.Record.{Record, kind_number};
ghost use Rattle.btf_plain.specs.Kind as kinds;
ghost use Rattle.btf_view.specs.Finding.{LooksUp};
ghost use Rattle.btf_view.specs.Places.{ForRecords};
ghost use Rattle.btf_view.specs.Record.{IsReadAs};
ghost use Rattle.btf_view.specs.TableRef.{IsNextOfKinds};

use crate::record::raw_head_at;
use crate::text::has_name;
use btf_plain::{BtfKind, Endianness, Head};
use btf_table::{comparable_end_in, first_byte, readable_bytes};

/// The result of looking up a kind and a name.
#[derive(Clone, Copy, Debug, PartialEq, Eq)]
pub enum Lookup {
    /// The least id of a type of the kind and the name.
    Found(u32),
    /// No type has the kind and the name.
    Missing,
    /// A type of the kind, below any that has the name, has this string offset, at which no text can be read.
    Unreadable(u32),
}

/// The number of a kind.
#[inline(always)]
pub(crate) fn number_of(kind: BtfKind) -> u32
    ensures { slice_get model.kinds result ≡ Some (kinds.kind kind) }
{
    match kind {
        BtfKind::Unknown => 0,
        BtfKind::Int => 1,
        BtfKind::Ptr => 2,
        BtfKind::Array => 3,
        BtfKind::Struct => 4,
        BtfKind::Union => 5,
        BtfKind::Enum => 6,
        BtfKind::Fwd => 7,
        BtfKind::Typedef => 8,
        BtfKind::Volatile => 9,
        BtfKind::Const => 10,
        BtfKind::Restrict => 11,
        BtfKind::Func => 12,
        BtfKind::FuncProto => 13,
        BtfKind::Var => 14,
        BtfKind::DataSec => 15,
        BtfKind::Float => 16,
        BtfKind::DeclTag => 17,
        BtfKind::TypeTag => 18,
        BtfKind::Enum64 => 19,
    }
}

/// What reading retains of the name of a record with this head, whose kind has this number: 0 for kind 0.
#[inline(always)]
fn kept_name(head: &Head, number: u32) -> u32
    ensures { (r : Record) → IsReadAs head.now r → number ≡ kind_number head.now.info
        → result ≡ r.name }
{
    if number == 0 { 0 } else { head.name }
}

/// Whether a type with this head has another kind than the one of this number, or a name that begins with another byte.
/// One branch tells most types from the one that is sought; a processor does not predict a branch on the kind alone.
#[inline(always)]
fn is_other(readable: &[u8], head: &Head, number: u32, first: u8) -> bool
    ensures { IsTrue result → kind_number head.now.info ≡ number
        → (byte : ℕ) × (slice_get readable.now head.now.name ≡ Some byte) × (byte ≢ first) }
{
    match readable.get(head.name as usize) {
        Some(byte) => (head.kind() ^ number) | (*byte as u32 ^ first as u32) != 0,
        None => false,
    }
}

/// The least id of a type of this kind and name. No name of the table is read to its end, unless the name that is
/// searched for can't be compared with bytes.
#[inline(always)]
pub(crate) fn find_in(
    types: &[u8],
    strings: &[u8],
    places: &[u32],
    endianness: Endianness,
    name: &str,
    kind: BtfKind,
) -> Lookup
    ensures { ForRecords endianness types.now places.now
        (λ records. LooksUp strings.now records (kinds.kind kind) name.now result) }
{
    let number = number_of(kind);
    let end = comparable_end_in(strings, name);
    let readable = readable_bytes(strings, end);
    let first = first_byte(name);
    let ids = places.len().min(u32::MAX as usize);
    for id in 0..ids {
        let raw = raw_head_at(types, places[id], endianness);
        if number != 0 && is_other(readable, &raw, number, first) {
            continue;
        }
        if raw.kind() != number {
            continue;
        }
        let offset = kept_name(&raw, number);
        let Some(is_named) = has_name(strings, offset, name, end) else {
            return Lookup::Unreadable(offset);
        };
        if is_named {
            return Lookup::Found(id as u32);
        }
    }
    Lookup::Missing
}

/// The least id, from this one on, of a type whose kind has one of two numbers.
#[inline(always)]
pub(crate) fn next_of_kinds_in(
    types: &[u8],
    places: &[u32],
    endianness: Endianness,
    first: u32,
    kind: u32,
    other: u32,
) -> Option<u32>
    ensures next { ForRecords endianness types.now places.now
        (λ records. IsNextOfKinds records first kind other result) }
    ensures small { IfSome result (λ id. id + 1 < 2 ^ 32) }
{
    let ids = places.len().min(u32::MAX as usize);
    for id in first as usize..ids {
        let number = raw_head_at(types, places[id], endianness).kind();
        if number == kind || number == other {
            return Some(id as u32);
        }
    }
    None
}
