//! Views of tables that are only read: a caller has the blob, and an array with the place of each record.
//!
//! `vbtf_raw_view_index` fills the places. The other calls read the two sections of the blob by them, allocate nothing,
//! and use no handle, so that any number of threads can make them at the same time. They end for all places; what they
//! return is that of the table if the places are those that `vbtf_raw_view_index` wrote for the same blob.

ghost use Rattle.std.specs.Prelude.{◌≡◌, ◌+◌, ◌<◌, ◌≤◌, None, length, slice_get};
ghost use Rattle.std.specs.Option.{MatchOption};
ghost use Rattle.std.specs.Str.{IsUtf8};
ghost use Rattle.btf_model.specs.Record.{kinds};
ghost use Rattle.btf_model.specs.Refusal.{UnknownBtfTypeName};
ghost use Rattle.btf_model.specs.Walk.{HasSize, Resolves};
ghost use Rattle.btf_view.specs.Forms.{ListsTypes};
ghost use Rattle.btf_view.specs.Items.{ItemsOf, ListsMembersFrom, entries, members, params, variants};
ghost use Rattle.btf_view.specs.Many.{FillsResolved, FillsSizes};
ghost use Rattle.vbtf.specs.Lists.{EndsListing};
ghost use Rattle.vbtf.specs.Status.{EndsCall, ReportsRefusal};
ghost use Rattle.vbtf.specs.View.{EndsLookingUp, EndsIndexingBlob, ForPlaces, IsViewIn, IsViewOf};

use crate::fault::{Fault, INVALID_ARGUMENT, NAME_ROOM, NO_ROOM, report, write};
use crate::orders::{choose_order, number_of, order_of};
use btf_plain::{BtfError, BtfKind};
use btf_table::readable_end;
use btf_view::{
    Entry, Lookup, Member, Param, Sections, TypeWords, Unindexed, Variant, View, index,
};

/// What a blob has: its byte order, its header's values, where its sections are, and the number of its types.
#[repr(C)]
#[derive(Drop)]
pub struct ViewParts {
    /// The offset of the type section in the blob.
    pub types_at: u64,
    /// The length of the type section in bytes.
    pub types_len: u64,
    /// The offset of the string section in the blob.
    pub strings_at: u64,
    /// The length of the string section in bytes.
    pub strings_len: u64,
    /// The end of the string offsets at which a name can be read.
    pub names_len: u64,
    /// The number of types, including the type of id 0; each has a place.
    pub count: u64,
    /// The byte order: 0 for little, 1 for big.
    pub order: u32,
    /// The magic of the header.
    pub magic: u16,
    /// The version of the header.
    pub version: u8,
    /// The flags of the header.
    pub flags: u8,
}

/// Finds the sections of a blob and the places of its records. `order` is the byte order: 0 for little, 1 for big, 2
/// for the order of the magic at the beginning of the blob.
///
/// Status 1, 2 or 4 with the first error, 100 exactly if the blob represents a table with more types than places, and 102
/// if the order is another number. A type section of n bytes needs at most n / 12 + 1 places. After an error `parts` is
/// unchanged, and the places have no meaning.
#[unsafe(no_mangle)]
pub extern "C" fn vbtf_raw_view_index(
    data: &[u8],
    order: u32,
    places: &mut [u32],
    parts: &mut ViewParts,
    fault: &mut Fault,
) -> u32
    ensures indexed { EndsIndexingBlob result order «data».now places.new parts.new fault.new }
    ensures order { 2 < order → (result ≡ INVALID_ARGUMENT) × (parts.new ≡ parts.old) }
{
    let Some(endianness) = choose_order(order, data) else {
        return INVALID_ARGUMENT;
    };
    match index(data, endianness, places) {
        Ok(sections) => {
            *parts = parts_of(data, number_of(endianness), &sections);
            0
        }
        Err(Unindexed::Refused(error)) => report(error, fault),
        Err(Unindexed::TooFewPlaces) => NO_ROOM,
    }
}

/// The parts of a blob in the form that C reads.
fn parts_of(data: &[u8], order: u32, sections: &Sections) -> ViewParts
    requires { sections.now.strings_at + sections.now.strings_len ≤ length «data».now }
    ensures { IsViewOf «data».now order sections.now result }
{
    let strings = &data[sections.strings_at..sections.strings_at + sections.strings_len];
    ViewParts {
        types_at: sections.types_at as u64,
        types_len: sections.types_len as u64,
        strings_at: sections.strings_at as u64,
        strings_len: sections.strings_len as u64,
        names_len: readable_end(strings) as u64,
        count: sections.count as u64,
        order,
        magic: sections.magic,
        version: sections.version,
        flags: sections.flags,
    }
}

/// The view of two sections by the places of the records, in the order of a number. None if the number is not 0 or 1.
fn view_in<'a>(
    types: &'a [u8],
    strings: &'a [u8],
    places: &'a [u32],
    order: u32,
) -> Option<View<'a>>
    ensures { MatchOption result (1 < order)
        (λ view. IsViewIn order types.now strings.now places.now view) }
{
    let Some(endianness) = order_of(order) else {
        return None;
    };
    Some(View {
        endianness,
        types,
        strings,
        places,
    })
}

/// Writes the first words of the types from an id on, in the order of the ids, to a buffer: as many as there are and as
/// fit. Their number goes to `count`; it is 0 if no type has the id.
///
/// Status 102 if the order is not 0 or 1; the buffer is then unchanged.
#[unsafe(no_mangle)]
pub extern "C" fn vbtf_raw_view_types(
    types: &[u8],
    places: &[u32],
    order: u32,
    first: u32,
    out: &mut [TypeWords],
    count: &mut u64,
) -> u32
    ensures status { order ≤ 1 → result ≡ 0 }
    ensures filled { ForPlaces order types.now places.now
        (λ records. ListsTypes records first out.old out.new count.new) }
    ensures order { 1 < order → (result ≡ INVALID_ARGUMENT) × (out.new ≡ out.old) }
{
    let Some(view) = view_in(types, &[], places, order) else {
        return INVALID_ARGUMENT;
    };
    *count = view.types(first, out) as u64;
    0
}

/// Writes the sizes in bytes of the types from an id on, in the order of the ids, to a buffer: as many as there are
/// types and as fit. Their number goes to `count`; it is 0 if no type has the id. A type for which `vbtf_raw_view_size`
/// returns an error has 2^64 - 1.
///
/// Status 102 if the order is not 0 or 1; the buffer is then unchanged.
#[unsafe(no_mangle)]
pub extern "C" fn vbtf_raw_view_sizes(
    types: &[u8],
    places: &[u32],
    order: u32,
    first: u32,
    out: &mut [u64],
    count: &mut u64,
) -> u32
    ensures status { order ≤ 1 → result ≡ 0 }
    ensures filled { ForPlaces order types.now places.now
        (λ records. FillsSizes records first out.old out.new count.new) }
    ensures order { 1 < order → (result ≡ INVALID_ARGUMENT) × (out.new ≡ out.old) }
{
    let Some(view) = view_in(types, &[], places, order) else {
        return INVALID_ARGUMENT;
    };
    *count = view.sizes(first, out) as u64;
    0
}

/// Writes the ids that the ids from one on resolve to, in their order, to a buffer: as many as there are types and as
/// fit. Their number goes to `count`; it is 0 if no type has the id. An id for which `vbtf_raw_view_resolve` returns an
/// error has 2^32 - 1.
///
/// Status 102 if the order is not 0 or 1; the buffer is then unchanged.
#[unsafe(no_mangle)]
pub extern "C" fn vbtf_raw_view_resolved(
    types: &[u8],
    places: &[u32],
    order: u32,
    first: u32,
    out: &mut [u32],
    count: &mut u64,
) -> u32
    ensures status { order ≤ 1 → result ≡ 0 }
    ensures filled { ForPlaces order types.now places.now
        (λ records. FillsResolved records first out.old out.new count.new) }
    ensures order { 1 < order → (result ≡ INVALID_ARGUMENT) × (out.new ≡ out.old) }
{
    let Some(view) = view_in(types, &[], places, order) else {
        return INVALID_ARGUMENT;
    };
    *count = view.resolved(first, out) as u64;
    0
}

/// The size of a type in bytes.
///
/// Status 2, 9, 10 or 12 with the first error of the walk, and 102 if the order is not 0 or 1.
#[unsafe(no_mangle)]
pub extern "C" fn vbtf_raw_view_size(
    types: &[u8],
    places: &[u32],
    order: u32,
    id: u32,
    size: &mut u64,
    fault: &mut Fault,
) -> u32
    ensures sized { ForPlaces order types.now places.now
        (λ records. EndsCall result size.new fault.new (HasSize records id)) }
    ensures order { 1 < order → result ≡ INVALID_ARGUMENT }
{
    let Some(view) = view_in(types, &[], places, order) else {
        return INVALID_ARGUMENT;
    };
    match view.size(id) {
        Ok(found) => {
            *size = found as u64;
            0
        }
        Err(error) => report(error, fault),
    }
}

/// The id of the type that an id resolves to: the first type after its modifiers.
///
/// Status 9 or 12 with the first error of the walk, and 102 if the order is not 0 or 1.
#[unsafe(no_mangle)]
pub extern "C" fn vbtf_raw_view_resolve(
    types: &[u8],
    places: &[u32],
    order: u32,
    id: u32,
    to: &mut u32,
    fault: &mut Fault,
) -> u32
    ensures resolved { ForPlaces order types.now places.now
        (λ records. EndsCall result to.new fault.new (Resolves records id)) }
    ensures order { 1 < order → result ≡ INVALID_ARGUMENT }
{
    let Some(view) = view_in(types, &[], places, order) else {
        return INVALID_ARGUMENT;
    };
    match view.resolve(id) {
        Ok(found) => {
            *to = found;
            0
        }
        Err(error) => report(error, fault),
    }
}

/// Writes the members of a STRUCT or UNION to a buffer, in order: as many as there are and as fit. Their number goes to
/// `count`.
///
/// Status 9 if no type has the id, 10 if its type has another kind, and 102 if the order is not 0 or 1. After an error
/// the buffer is unchanged.
#[unsafe(no_mangle)]
pub extern "C" fn vbtf_raw_view_members(
    types: &[u8],
    places: &[u32],
    order: u32,
    id: u32,
    out: &mut [Member],
    count: &mut u64,
    fault: &mut Fault,
) -> u32
    ensures listed { ForPlaces order types.now places.now (λ rs.
        EndsListing result out.old out.new count.new fault.new (ItemsOf members rs id)) }
    ensures order { 1 < order → (result ≡ INVALID_ARGUMENT) × (out.new ≡ out.old) }
{
    let Some(view) = view_in(types, &[], places, order) else {
        return INVALID_ARGUMENT;
    };
    match view.members(id, out) {
        Ok(written) => {
            *count = written as u64;
            0
        }
        Err(error) => report(error, fault),
    }
}

/// Writes the variants of an ENUM or ENUM64 to a buffer, as `vbtf_raw_view_members` writes the members.
///
/// Status 9 if no type has the id, 10 if its type has another kind, and 102 if the order is not 0 or 1. After an error
/// the buffer is unchanged.
#[unsafe(no_mangle)]
pub extern "C" fn vbtf_raw_view_variants(
    types: &[u8],
    places: &[u32],
    order: u32,
    id: u32,
    out: &mut [Variant],
    count: &mut u64,
    fault: &mut Fault,
) -> u32
    ensures listed { ForPlaces order types.now places.now (λ rs.
        EndsListing result out.old out.new count.new fault.new (ItemsOf variants rs id)) }
    ensures order { 1 < order → (result ≡ INVALID_ARGUMENT) × (out.new ≡ out.old) }
{
    let Some(view) = view_in(types, &[], places, order) else {
        return INVALID_ARGUMENT;
    };
    match view.variants(id, out) {
        Ok(written) => {
            *count = written as u64;
            0
        }
        Err(error) => report(error, fault),
    }
}

/// Writes the parameters of a FUNC_PROTO to a buffer, as `vbtf_raw_view_members` writes the members.
///
/// Status 9 if no type has the id, 10 if its type has another kind, and 102 if the order is not 0 or 1. After an error
/// the buffer is unchanged.
#[unsafe(no_mangle)]
pub extern "C" fn vbtf_raw_view_params(
    types: &[u8],
    places: &[u32],
    order: u32,
    id: u32,
    out: &mut [Param],
    count: &mut u64,
    fault: &mut Fault,
) -> u32
    ensures listed { ForPlaces order types.now places.now (λ rs.
        EndsListing result out.old out.new count.new fault.new (ItemsOf params rs id)) }
    ensures order { 1 < order → (result ≡ INVALID_ARGUMENT) × (out.new ≡ out.old) }
{
    let Some(view) = view_in(types, &[], places, order) else {
        return INVALID_ARGUMENT;
    };
    match view.params(id, out) {
        Ok(written) => {
            *count = written as u64;
            0
        }
        Err(error) => report(error, fault),
    }
}

/// Writes the entries of a DATASEC to a buffer, as `vbtf_raw_view_members` writes the members.
///
/// Status 9 if no type has the id, 10 if its type has another kind, and 102 if the order is not 0 or 1. After an error
/// the buffer is unchanged.
#[unsafe(no_mangle)]
pub extern "C" fn vbtf_raw_view_entries(
    types: &[u8],
    places: &[u32],
    order: u32,
    id: u32,
    out: &mut [Entry],
    count: &mut u64,
    fault: &mut Fault,
) -> u32
    ensures listed { ForPlaces order types.now places.now (λ rs.
        EndsListing result out.old out.new count.new fault.new (ItemsOf entries rs id)) }
    ensures order { 1 < order → (result ≡ INVALID_ARGUMENT) × (out.new ≡ out.old) }
{
    let Some(view) = view_in(types, &[], places, order) else {
        return INVALID_ARGUMENT;
    };
    match view.entries(id, out) {
        Ok(written) => {
            *count = written as u64;
            0
        }
        Err(error) => report(error, fault),
    }
}

/// Writes the members of the types from an id on to `out`, type after type, and the number of the members of each type
/// to `counts`, 0 for a type that is no STRUCT or UNION. It stops before the first type that has no place in `counts`
/// or whose members do not all fit. The number of types goes to `done`, and the number of members to `written`.
///
/// Status 102 if the order is not 0 or 1; the buffers are then unchanged.
#[unsafe(no_mangle)]
pub extern "C" fn vbtf_raw_view_members_from(
    types: &[u8],
    places: &[u32],
    order: u32,
    first: u32,
    counts: &mut [u32],
    out: &mut [Member],
    done: &mut u64,
    written: &mut u64,
) -> u32
    ensures status { order ≤ 1 → result ≡ 0 }
    ensures lists { ForPlaces order types.now places.now (λ rs. ListsMembersFrom
        rs first counts.old counts.new out.old out.new (done.new, written.new)) }
    ensures order { 1 < order → result ≡ INVALID_ARGUMENT }
    ensures unchanged { 1 < order → (counts.new ≡ counts.old) × (out.new ≡ out.old) }
{
    let Some(view) = view_in(types, &[], places, order) else {
        return INVALID_ARGUMENT;
    };
    let (records, members) = view.members_from(first, counts, out);
    *done = records as u64;
    *written = members as u64;
    0
}

/// The least id of a type with this kind and name. The kind is a number from 0 to 19, and the name has no zero byte at
/// its end.
///
/// Status 6 if a type of the kind with a lower id has a name that cannot be read, 11 if no type has the kind and the
/// name, and 102 if the order is not 0 or 1, no kind has the number, or the name is not UTF-8.
#[unsafe(no_mangle)]
pub extern "C" fn vbtf_raw_view_find(
    types: &[u8],
    strings: &[u8],
    places: &[u32],
    order: u32,
    name: &[u8],
    kind: u32,
    id: &mut u32,
    fault: &mut Fault,
) -> u32
    ensures found { ForPlaces order types.now places.now (λ records.
        EndsLookingUp result strings.now records kind name.now id.new fault.new) }
    ensures not_utf8 { (IsUtf8 name.now → ⊥) → result ≡ INVALID_ARGUMENT }
    ensures no_kind { slice_get kinds kind ≡ None → result ≡ INVALID_ARGUMENT }
    ensures order { 1 < order → result ≡ INVALID_ARGUMENT }
{
    let Some(view) = view_in(types, strings, places, order) else {
        return INVALID_ARGUMENT;
    };
    let Ok(text) = str::from_utf8(name) else {
        return INVALID_ARGUMENT;
    };
    let Ok(kind) = BtfKind::try_from(kind) else {
        return INVALID_ARGUMENT;
    };
    match view.find(text, kind) {
        Lookup::Found(found) => {
            *id = found;
            0
        }
        Lookup::Missing => report_missing(fault, name),
        Lookup::Unreadable(offset) => {
            let offset = offset as usize;
            report(BtfError::InvalidStringOffset { offset }, fault)
        }
    }
}

/// Writes that no type has a name, with the beginning of the name.
fn report_missing(fault: &mut Fault, name: &[u8]) -> u32
    ensures { ReportsRefusal result fault.new (UnknownBtfTypeName name.now) }
{
    write(fault, 11, 0, 0, 0, 0);
    let len = NAME_ROOM.min(name.len());
    fault.name[..len].copy_from_slice(&name[..len]);
    fault.name_len = len as u32;
    11
}
