//! Writing many types or items to a buffer.

ghost use Rattle.std.specs.Prelude.{◌≡◌, ◌==◌, ◌||◌, ◌*◌, ◌+◌, ◌<◌, ◌≤◌, ◌^◌, IfSome, List, map, length, take, drop};
ghost use Rattle.btf_model.specs.Record.{Record, vlen};
ghost use Rattle.btf_model.specs.Word.{words_at};
ghost use Rattle.btf_view.specs.Forms.{Begins, HasAppended, ListsTypes, words_in};
ghost use Rattle.btf_view.specs.Items.{AppendsMembers, EndsMembers, FillsItems, ListsMembersFrom, members_or_none};
ghost use Rattle.btf_view.specs.Places.{ArePlaces, ForRecords, IsRecordAt};

use crate::forms::{Member, TypeWords, type_words};
use crate::items::Listed;
use crate::record::{head_at, most_head_at, raw_head_at, tail_at, word_at, word_pair_at};
use btf_plain::{BtfKind, BtfMember, Endianness};

/// Writes the first words of the type at a place. Most types take the short way.
#[inline(always)]
fn write_words(types: &[u8], place: u32, endianness: Endianness, slot: &mut TypeWords)
    ensures { (r : Record) → IsRecordAt endianness types.now place r → slot.new ≡ words_in r }
{
    let Some(head) = most_head_at(types, place, endianness) else {
        write_any(types, place, endianness, slot);
        return;
    };
    *slot = type_words(&head);
}

/// The same for each type. A call of its own keeps its values out of the registers of the loop.
#[cold]
#[inline(never)]
fn write_any(types: &[u8], place: u32, endianness: Endianness, slot: &mut TypeWords)
    ensures { (r : Record) → IsRecordAt endianness types.now place r → slot.new ≡ words_in r }
{
    *slot = type_words(&head_at(types, place, endianness));
}

/// Writes the first words of the types at these places, as many as fit, and returns their number.
#[inline(always)]
fn fill_words(types: &[u8], places: &[u32], endianness: Endianness, out: &mut [TypeWords]) -> usize
    ensures { (rs : List Record) → ArePlaces endianness types.now places.now rs
        → ListsTypes rs 0 out.old out.new result }
{
    let count = out.len().min(places.len());
    for index in 0..count {
        write_words(types, places[index], endianness, &mut out[index]);
    }
    count
}

/// Writes the first words of the types from an id on, as many as fit, and returns their number.
#[inline(always)]
pub(crate) fn fill_types(
    types: &[u8],
    places: &[u32],
    endianness: Endianness,
    first: u32,
    out: &mut [TypeWords],
) -> usize
    ensures { ForRecords endianness types.now places.now
        (λ records. ListsTypes records first out.old out.new result) }
{
    match places.get(first as usize..) {
        Some(rest) => fill_words(types, rest, endianness, out),
        None => 0,
    }
}

/// The number of items of a record with this info word.
#[inline(always)]
fn vlen_of(info: u32) -> usize
    ensures value { result ≡ vlen info }
    ensures small { result < 2 ^ 16 }
{
    (info & 0xffff) as usize
}

/// The number of bytes of this many items.
#[inline(always)]
fn items_len<T: Listed>(count: usize) -> usize
    requires { count < 2 ^ 16 }
    ensures { result ≡ 4 * (T.WIDTH * count) }
{
    if T::WIDTH == 2 { 8 * count } else { 12 * count }
}

/// The item at an offset.
#[inline(always)]
fn item_at<T: Listed>(bytes: &[u8], at: usize, endianness: Endianness) -> T
    requires { at + 4 * T.WIDTH ≤ length bytes.now }
    ensures { T.item_words result ≡ words_at endianness T.WIDTH (drop at bytes.now) }
{
    let words = word_pair_at(bytes, at, endianness);
    if T::WIDTH == 2 {
        return T::from_words([words.0, words.1, 0]);
    }
    T::from_words([words.0, words.1, word_at(bytes, at + 8, endianness)])
}

/// Writes the items of a record with this info word, whose words after the head the bytes begin with, as many as fit,
/// and returns their number.
#[inline(always)]
pub(crate) fn fill_items<T: Listed>(
    info: u32,
    tail: &[u8],
    endianness: Endianness,
    out: &mut [T::Form],
) -> usize
    ensures items { FillsItems T.WIDTH T.forms_in endianness info tail.now out.old out.new result }
    ensures few { (result ≤ length out.old) × (result < 2 ^ 16) }
{
    let vlen = vlen_of(info);
    if tail.len() < items_len::<T>(vlen) {
        return 0;
    }
    let count = out.len().min(vlen);
    for index in 0..count {
        let at = items_len::<T>(index);
        out[index] = item_at::<T>(tail, at, endianness).form(info);
    }
    count
}

/// Writes the members of a record with this info word, as `fill_items` does, from an index of a buffer on, and returns
/// their number; None if they do not all fit.
#[inline(always)]
fn append_items(
    info: u32,
    tail: &[u8],
    endianness: Endianness,
    out: &mut [Member],
    at: usize,
) -> Option<usize>
    requires { at ≤ length out.old }
    ensures items { AppendsMembers endianness info tail.now out.old out.new at result }
    ensures few { IfSome result (λ count. (at + count ≤ length out.old) × (count < 2 ^ 16)) }
{
    if out.len() - at < vlen_of(info) {
        return None;
    }
    Some(fill_items::<BtfMember>(info, tail, endianness, &mut out[at..]))
}

/// Whether records of the kind with this number have members. A loop over types tests each number, which takes fewer
/// instructions than to find the kind first.
#[inline(always)]
fn has_members(kind: u32) -> bool
    ensures { result ≡ (kind == 4 || kind == 5) }
{
    kind == BtfKind::Struct as u32 || kind == BtfKind::Union as u32
}

/// Writes the members of the record at a place from an index of a buffer on, and returns their number; None if they do
/// not all fit. A record that is no STRUCT or UNION has none.
#[inline(always)]
fn append_members(
    types: &[u8],
    place: u32,
    endianness: Endianness,
    out: &mut [Member],
    at: usize,
) -> Option<usize>
    requires { at ≤ length out.old }
    ensures items { (r : Record) → IsRecordAt endianness types.now place r
        → HasAppended (members_or_none r) out.old out.new at result }
    ensures few { IfSome result (λ count. (at + count ≤ length out.old) × (count < 2 ^ 16)) }
{
    let head = raw_head_at(types, place, endianness);
    if !has_members(head.kind()) {
        return Some(0);
    }
    let tail = tail_at(types, place, endianness);
    append_items(head.info, tail, endianness, out, at)
}

/// Writes the members of the records at these places, record after record, and the number of the members of each
/// record, as long as a record has a place in `counts` and its members fit. Returns the numbers of records and of
/// members.
#[inline(always)]
fn append_all(
    types: &[u8],
    places: &[u32],
    endianness: Endianness,
    counts: &mut [u32],
    out: &mut [Member],
) -> (usize, usize)
    ensures { (rs : List Record) → ArePlaces endianness types.now places.now rs
        → EndsMembers rs counts.old counts.new out.old out.new result }
{
    let records = counts.len().min(places.len());
    let mut written = 0;
    for index in 0..records {
        let Some(count) = append_members(types, places[index], endianness, out, written) else {
            return (index, written);
        };
        counts[index] = count as u32;
        written += count;
    }
    (records, written)
}

/// Writes the members of the types from an id on, as `append_all` does.
#[inline(always)]
pub(crate) fn fill_all_members(
    types: &[u8],
    places: &[u32],
    endianness: Endianness,
    first: u32,
    counts: &mut [u32],
    out: &mut [Member],
) -> (usize, usize)
    ensures { ForRecords endianness types.now places.now
        (λ records. ListsMembersFrom records first counts.old counts.new out.old out.new result) }
{
    match places.get(first as usize..) {
        Some(rest) => append_all(types, rest, endianness, counts, out),
        None => (0, 0),
    }
}
