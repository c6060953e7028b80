//! Whether a blob looks like a split table.

ghost use Rattle.std.specs.Prelude.{◌≡◌, ◌↔◌, ◌<◌, ◌^◌, IsTrue, length};
ghost use Rattle.btf_model.specs.Record as model;
ghost use Rattle.btf_split_model.specs.Hint.{LooksSplit, NamesBeyond, hint_records};
ghost use Rattle.btf_plain.specs.Kind as kinds;
ghost use Rattle.btf_split.specs.Hint.{kept_name, FindsFirstName};

use crate::blob::{has_sections, sections_of};
use btf_plain::{BtfKind, Endianness, Head};

/// The number of records that the hint looks at.
const HINT_RECORDS: usize = 64;

/// Whether the data looks like a split table: whether one of its first 64 records has a name at a string offset that
/// the data's own strings do not have. The words of the data are in this byte order.
///
/// This is only a hint for data of unknown origin, because nothing marks a split table: one whose first 64 names are at
/// offsets below the length of its own strings does not look split. Data whose sections are not in it does not look
/// split, and records after the first that cannot be read do not count. Allocates no memory.
pub fn looks_split(data: &[u8], endianness: Endianness) -> bool
    ensures { IsTrue result ↔ LooksSplit endianness «data».now }
{
    if !has_sections(data, endianness) {
        return false;
    }
    let sections = sections_of(data, endianness);
    has_name_beyond(sections.types, sections.strings.len(), endianness)
}

/// Whether one of the first records has a name at the limit or above it.
fn has_name_beyond(types: &[u8], limit: usize, endianness: Endianness) -> bool
    ensures { IsTrue result ↔ NamesBeyond endianness limit hint_records types.now }
{
    let mut rest = types;
    for _record in 0..HINT_RECORDS {
        let Some((name, behind)) = first_name(rest, endianness) else {
            return false;
        };
        if name as usize >= limit {
            return true;
        }
        rest = behind;
    }
    false
}

/// The string offset of the name of the record at the front of the bytes, and the bytes after the record. None if there
/// is no record.
fn first_name(bytes: &[u8], endianness: Endianness) -> Option<(u32, &[u8])>
    ensures { FindsFirstName bytes.now endianness result }
{
    let Ok((head, tail)) = Head::read(bytes, endianness) else {
        return None;
    };
    let Ok(kind) = BtfKind::try_from(head.kind()) else {
        return None;
    };
    let len = 4 * tail_words(kind, head.vlen());
    if tail.len() < len {
        return None;
    }
    Some((kept_name(kind, head.name), &tail[len..]))
}

/// The string offset that reading retains: an Unknown has no name.
fn kept_name(kind: BtfKind, name: u32) -> u32
    ensures { result ≡ kept_name (kinds.kind kind) name }
{
    match kind {
        BtfKind::Unknown => 0,
        _ => name,
    }
}

/// The number of words after the third.
fn tail_words(kind: BtfKind, vlen: usize) -> usize
    requires { vlen < 2 ^ 16 }
    ensures { result ≡ model.tail_words (kinds.kind kind) vlen }
{
    match kind {
        BtfKind::Int | BtfKind::Var | BtfKind::DeclTag => 1,
        BtfKind::Array => 3,
        BtfKind::Enum | BtfKind::FuncProto => 2 * vlen,
        BtfKind::Struct | BtfKind::Union | BtfKind::DataSec | BtfKind::Enum64 => 3 * vlen,
        _ => 0,
    }
}
