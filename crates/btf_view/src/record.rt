//! The words of the record at a place.

ghost use Rattle.std.specs.Prelude.{◌≡◌, ◌⊎◌, ◌≢◌, ◌+◌, ◌<◌, ◌≤◌, ℕ, List, length, Some, IfSome, IsSomeAnd, drop, take};
ghost use Rattle.std.specs.Int.{from_le_bytes, w32};
ghost use Rattle.std.specs.Option.{option_map};
ghost use Rattle.btf_model.specs.Blob as blob;
ghost use Rattle.btf_model.specs.Record.{Record, Kind, kind_of};
ghost use Rattle.btf_model.specs.Spelling.{kept};
ghost use Rattle.btf_plain.specs.Head.{headed};
ghost use Rattle.btf_plain.specs.Kind as code;
ghost use Rattle.btf_view.specs.Places.{IsRecordAt};
ghost use Rattle.btf_view.specs.Record.{AreParts, HasHead, HasTail, IsReadAs};

use btf_plain::{BtfKind, Endianness, Head};

/// The word at an offset. The call knows that it is within the bytes, so that there is no check for each word.
#[inline(always)]
pub(crate) fn word_at(bytes: &[u8], at: usize, endianness: Endianness) -> u32
    requires { at + 4 ≤ length bytes.now }
    ensures { result ≡ blob.word_at endianness at bytes.now }
{
    // As four bytes in one piece, so that the word is one load.
    match bytes[at..at + 4].first_chunk::<4>() {
        Some(word) => endianness.read_u32(*word),
        None => 0,
    }
}

/// Two words in little order at an offset, read as one number.
#[inline(always)]
fn little_pair(bytes: &[u8], at: usize) -> (u32, u32)
    requires { at + 8 ≤ length bytes.now }
    ensures first { result.0 ≡ from_le_bytes w32 (take 4 (drop at bytes.now)) }
    ensures second { result.1 ≡ from_le_bytes w32 (take 4 (drop (at + 4) bytes.now)) }
{
    match bytes[at..at + 8].first_chunk::<8>() {
        Some(pair) => {
            let both = u64::from_le_bytes(*pair);
            ((both & 0xffff_ffff) as u32, (both >> 32) as u32)
        }
        None => (0, 0),
    }
}

/// Two words at an offset. Those of a little-endian table are one load.
#[inline(always)]
pub(crate) fn word_pair_at(bytes: &[u8], at: usize, endianness: Endianness) -> (u32, u32)
    requires { at + 8 ≤ length bytes.now }
    ensures first { result.0 ≡ blob.word_at endianness at bytes.now }
    ensures second { result.1 ≡ blob.word_at endianness (at + 4) bytes.now }
{
    match endianness {
        Endianness::Little => little_pair(bytes, at),
        Endianness::Big => (
            word_at(bytes, at, endianness),
            word_at(bytes, at + 4, endianness),
        ),
    }
}

/// No words: the head of the type of id 0.
const NO_HEAD: Head = Head {
    name: 0,
    info: 0,
    third: 0,
};

/// All bits of a word.
const ALL: u32 = u32::MAX;

/// The bits of the third word that reading retains, by the number of the kind: none of ARRAY and FWD. A table costs
/// less than a branch, because ARRAYs come at irregular distances, and a processor does not predict them.
static RETAINED: [u32; 32] = [
    ALL, ALL, ALL, 0, ALL, ALL, ALL, 0, ALL, ALL, ALL, ALL, ALL, ALL, ALL, ALL, ALL, ALL, ALL, ALL,
    ALL, ALL, ALL, ALL, ALL, ALL, ALL, ALL, ALL, ALL, ALL, ALL,
];

/// What reading retains of the third word of a record, by the number of its kind.
#[inline(always)]
fn kept_third(kind: u32, third: u32) -> u32
    requires { kind < 32 }
    ensures dropped { (kind ≡ 3) ⊎ (kind ≡ 7) → result ≡ 0 }
    ensures kept { kind ≢ 3 → kind ≢ 7 → result ≡ third }
{
    third & RETAINED[kind as usize]
}

/// What reading retains of a head. There is no branch but for kind 0, which only the type of id 0 has in most tables.
#[inline(always)]
pub(crate) fn kept_head(head: Head) -> Head
    ensures { (k : Kind) (tail : List ℕ) → kind_of head.info ≡ Some k
        → HasHead result (kept k (headed head tail)) }
{
    let kind = head.kind();
    if kind == 0 {
        return NO_HEAD;
    }
    Head {
        name: head.name,
        info: head.info,
        third: kept_third(kind, head.third),
    }
}

/// The first three words at a place, or zeroes if there are none. There is one check for the three.
#[inline(always)]
pub(crate) fn raw_head_at(types: &[u8], place: u32, endianness: Endianness) -> Head
    ensures { (r : Record) → IsRecordAt endianness types.now place r → IsReadAs result r }
{
    let at = place as usize;
    if types.len() < at + 12 {
        return NO_HEAD;
    }
    Head {
        name: word_at(types, at, endianness),
        info: word_at(types, at + 4, endianness),
        third: word_at(types, at + 8, endianness),
    }
}

/// The first three words of the record at a place, or zeroes if there is none.
#[inline(always)]
pub(crate) fn head_at(types: &[u8], place: u32, endianness: Endianness) -> Head
    ensures { (r : Record) → IsRecordAt endianness types.now place r → HasHead result r }
{
    kept_head(raw_head_at(types, place, endianness))
}

/// The first three words of the record at a place, if it has a kind other than 0. Most types have, so a loop over types
/// has a short way for them.
#[inline(always)]
pub(crate) fn most_head_at(types: &[u8], place: u32, endianness: Endianness) -> Option<Head>
    ensures { IfSome result (λ head. (r : Record) → IsRecordAt endianness types.now place r
        → HasHead head r) }
{
    let at = place as usize;
    if types.len() < at + 12 {
        return None;
    }
    let words = word_pair_at(types, at, endianness);
    let head = Head {
        name: words.0,
        info: words.1,
        third: word_at(types, at + 8, endianness),
    };
    if head.kind() == 0 {
        return None;
    }
    Some(kept_head(head))
}

/// The bytes after the first three words of the record at a place; none if the place is past the section.
#[inline(always)]
pub(crate) fn tail_at(types: &[u8], place: u32, endianness: Endianness) -> &[u8]
    ensures bytes { result.now ≡ drop (place + 12) types.now }
    ensures tail { (r : Record) → IsRecordAt endianness types.now place r
        → HasTail endianness result.now r }
{
    let _ = endianness;
    match types.get(place as usize + 12..) {
        Some(tail) => tail,
        None => &[],
    }
}

/// A record: its kind, its info word, and the bytes after its first three words.
#[derive(Clone, Copy)]
pub(crate) struct Parts<'a> {
    pub kind: BtfKind,
    pub info: u32,
    pub tail: &'a [u8],
}

/// The kind in the info word of a head.
#[inline(always)]
pub(crate) fn kind_of_head(head: &Head) -> Option<BtfKind>
    ensures { option_map code.kind result ≡ kind_of head.now.info }
{
    let Ok(kind) = BtfKind::try_from(head.kind()) else {
        return None;
    };
    Some(kind)
}

/// The parts of the record at a place. Each record has a kind.
#[inline(always)]
pub(crate) fn parts_at(types: &[u8], place: u32, endianness: Endianness) -> Option<Parts<'_>>
    ensures { (r : Record) → IsRecordAt endianness types.now place r
        → IsSomeAnd result (λ parts. AreParts endianness parts r) }
{
    let head = head_at(types, place, endianness);
    let Some(kind) = kind_of_head(&head) else {
        return None;
    };
    Some(Parts {
        kind,
        info: head.info,
        tail: tail_at(types, place, endianness),
    })
}
