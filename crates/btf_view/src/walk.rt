//! Walks from type to type.

ghost use Rattle.std.specs.Prelude.{◌≡◌, ◌+◌, ◌-◌, ◌<◌, ◌≤◌, ◌^◌, List, Some, length, min};
ghost use Rattle.btf_model.specs.Record.{Record};
ghost use Rattle.btf_model.specs.Walk as model;
ghost use Rattle.btf_model.specs.Walk.{modified_type, Resolves};
ghost use Rattle.btf_plain.specs.Error.{Meets};
ghost use Rattle.btf_plain.specs.Kind as kinds;
ghost use Rattle.btf_view.specs.Many.{FillsResolved, ResolvedOrMost};
ghost use Rattle.btf_view.specs.Places.{ForRecords};
ghost use Rattle.btf_view.specs.Record.{IsReadAs};

use crate::record::raw_head_at;
use btf_plain::{BtfError, BtfKind, Endianness, Head};
use btf_table::WALK_LIMIT;

/// The id of the type that a modifier of this kind describes, by its third word; None for another kind.
#[inline(always)]
fn modified_by(kind: BtfKind, third: u32) -> Option<u32>
    ensures { (r : Record) → third ≡ r.third
        → result ≡ model.modified (Some (kinds.kind kind)) r }
{
    match kind {
        BtfKind::Typedef
        | BtfKind::Volatile
        | BtfKind::Const
        | BtfKind::Restrict
        | BtfKind::TypeTag => Some(third),
        _ => None,
    }
}

/// The id of the type that a modifier with this head describes; None for a type of another kind.
#[inline(always)]
fn modified(head: &Head) -> Option<u32>
    ensures { (r : Record) → IsReadAs head.now r → result ≡ modified_type r }
{
    let Ok(kind) = BtfKind::try_from(head.kind()) else {
        return None;
    };
    modified_by(kind, head.third)
}

/// The id of the first type that is no modifier, on the walk over modifiers from an id on.
#[inline(always)]
pub(crate) fn resolve_from(
    types: &[u8],
    places: &[u32],
    endianness: Endianness,
    type_id: u32,
) -> Result<u32, BtfError>
    ensures { ForRecords endianness types.now places.now
        (λ records. Meets (λ id. id) result (Resolves records type_id)) }
{
    let mut id = type_id;
    for _ in 0..WALK_LIMIT {
        let Some(place) = places.get(id as usize) else {
            return Err(BtfError::UnknownBtfType { type_id: id });
        };
        let head = raw_head_at(types, *place, endianness);
        let Some(next) = modified(&head) else {
            return Ok(id);
        };
        id = next;
    }
    Err(BtfError::MaximumTypeDepthReached { type_id })
}

/// The id that an id resolves to, or 2^32 - 1 if it resolves to none.
#[inline(always)]
fn resolved_or_most(types: &[u8], places: &[u32], endianness: Endianness, id: u32) -> u32
    ensures { ForRecords endianness types.now places.now
        (λ records. ResolvedOrMost records id result) }
{
    let Ok(to) = resolve_from(types, places, endianness, id) else {
        return u32::MAX;
    };
    to
}

/// The number of types from an id on, as many as fit in this room. Ids have 32 bits.
#[inline(always)]
pub(crate) fn places_from(places: &[u32], first: u32, room: usize) -> usize
    ensures places { length places.now < 2 ^ 32 → result ≡ min room (length places.now - first) }
    ensures room { result ≤ room }
    ensures ids { 0 < result → first + result < 2 ^ 32 }
{
    let ids = places.len().min(u32::MAX as usize);
    ids.saturating_sub(first as usize).min(room)
}

/// Writes what the ids from one on resolve to, as many as fit, and returns their number.
#[inline(always)]
pub(crate) fn fill_resolved(
    types: &[u8],
    places: &[u32],
    endianness: Endianness,
    first: u32,
    out: &mut [u32],
) -> usize
    ensures { ForRecords endianness types.now places.now
        (λ records. FillsResolved records first out.old out.new result) }
{
    let count = places_from(places, first, out.len());
    for index in 0..count {
        out[index] = resolved_or_most(types, places, endianness, first + index as u32);
    }
    count
}
