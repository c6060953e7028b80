//! The size of a type.

ghost use Rattle.std.specs.Prelude.{◌≡◌, ◌+◌, List, Some};
ghost use Rattle.btf_model.specs.Record.{Array, Record, kind_of};
ghost use Rattle.btf_model.specs.Walk as model;
ghost use Rattle.btf_model.specs.Walk.{HasSize};
ghost use Rattle.btf_plain.specs.Error.{Meets};
ghost use Rattle.btf_table.specs.Extent.{extent_of};
ghost use Rattle.btf_view.specs.Many.{FillsSizes, SizeOrMost};
ghost use Rattle.btf_view.specs.Places.{ForRecords, IsRecordAt};

use crate::record::{raw_head_at, word_at};
use crate::walk::places_from;
use btf_plain::{BtfError, BtfKind, Endianness};
use btf_table::{Extent, WALK_LIMIT, product};

/// How a type gives its size. There are only three ways, because the compiler makes a jump table of a match with more,
/// and a processor does not predict which way such a jump goes.
#[derive(Clone, Copy)]
enum Sizing {
    /// The type has a size of its own.
    Own,
    /// The type has the size of the one type that it refers to.
    Referred,
    /// An ARRAY has the size of its elements, and the other types have none.
    Other,
}

/// How a type gives its size, by the number of its kind.
static SIZINGS: [Sizing; 32] = [
    Sizing::Other, // the type of id 0
    Sizing::Own, // INT
    Sizing::Own, // PTR
    Sizing::Other, // ARRAY
    Sizing::Own, // STRUCT
    Sizing::Own, // UNION
    Sizing::Own, // ENUM
    Sizing::Other, // FWD
    Sizing::Referred, // TYPEDEF
    Sizing::Referred, // VOLATILE
    Sizing::Referred, // CONST
    Sizing::Referred, // RESTRICT
    Sizing::Other, // FUNC
    Sizing::Referred, // FUNC_PROTO
    Sizing::Referred, // VAR
    Sizing::Own, // DATASEC
    Sizing::Own, // FLOAT
    Sizing::Referred, // DECL_TAG
    Sizing::Referred, // TYPE_TAG
    Sizing::Own, // ENUM64
    // No kind has the other numbers.
    Sizing::Other,
    Sizing::Other,
    Sizing::Other,
    Sizing::Other,
    Sizing::Other,
    Sizing::Other,
    Sizing::Other,
    Sizing::Other,
    Sizing::Other,
    Sizing::Other,
    Sizing::Other,
    Sizing::Other,
];

/// What the ARRAY at a place gives for its size.
#[inline(always)]
fn array_extent(types: &[u8], place: u32, endianness: Endianness) -> Extent
    ensures { (r : Record) → IsRecordAt endianness types.now place r
        → kind_of r.info ≡ Some Array → extent_of result ≡ model.array_extent r.tail }
{
    let at = place as usize + 12;
    if types.len() < at + 12 {
        return Extent::Nothing;
    }
    let element = word_at(types, at, endianness);
    Extent::Times(word_at(types, at + 8, endianness), element)
}

/// What the type at a place gives for its size. A word that reading drops gives nothing.
#[inline(always)]
fn extent_at(types: &[u8], place: u32, endianness: Endianness) -> Extent
    ensures { (r : Record) → IsRecordAt endianness types.now place r
        → extent_of result ≡ model.extent (kind_of r.info) r }
{
    let head = raw_head_at(types, place, endianness);
    let kind = head.kind();
    let sizing = SIZINGS[kind as usize];
    match sizing {
        Sizing::Own if kind == BtfKind::Ptr as u32 => Extent::Bytes(8),
        Sizing::Own => Extent::Bytes(head.third),
        Sizing::Referred => Extent::Times(1, head.third),
        Sizing::Other if kind == BtfKind::Array as u32 => array_extent(types, place, endianness),
        Sizing::Other => Extent::Nothing,
    }
}

/// The size of a type in bytes, on the walk over arrays and types that refer to one other type.
#[inline(always)]
pub(crate) fn size_of(
    types: &[u8],
    places: &[u32],
    endianness: Endianness,
    type_id: u32,
) -> Result<u32, BtfError>
    ensures { ForRecords endianness types.now places.now
        (λ records. Meets (λ n. n) result (HasSize records type_id)) }
{
    let mut id = type_id;
    let mut count = 1;
    for _ in 0..WALK_LIMIT {
        let Some(place) = places.get(id as usize) else {
            return Err(BtfError::UnknownBtfType { type_id: id });
        };
        match extent_at(types, *place, endianness) {
            Extent::Bytes(bytes) => return product(bytes, count),
            Extent::Times(times, next) => {
                count = match product(count, times) {
                    Ok(count) => count,
                    Err(error) => return Err(error),
                };
                id = next;
            }
            Extent::Nothing => return Err(BtfError::UnexpectedBtfType { type_id: id }),
        }
    }
    Err(BtfError::MaximumTypeDepthReached { type_id })
}

/// The size of a type in bytes, or 2^64 - 1 if it has none.
#[inline(always)]
fn size_or_most(types: &[u8], places: &[u32], endianness: Endianness, id: u32) -> u64
    ensures { ForRecords endianness types.now places.now (λ records. SizeOrMost records id result) }
{
    let Ok(size) = size_of(types, places, endianness, id) else {
        return u64::MAX;
    };
    size as u64
}

/// Writes the sizes of the types from an id on, as many as fit, and returns their number.
#[inline(always)]
pub(crate) fn fill_sizes(
    types: &[u8],
    places: &[u32],
    endianness: Endianness,
    first: u32,
    out: &mut [u64],
) -> usize
    ensures { ForRecords endianness types.now places.now
        (λ records. FillsSizes records first out.old out.new result) }
{
    let count = places_from(places, first, out.len());
    for index in 0..count {
        out[index] = size_or_most(types, places, endianness, first + index as u32);
    }
    count
}
