//! Texts of the string section, and the type of a name.

ghost use Rattle.std.specs.Prelude.{◌≡◌, ◌≢◌, ◌↔◌, ◌<◌, ◌^◌, ◌++◌, ◌∷◌, [], ℕ, List, length, take, drop, get_or, slice_get, map, Some, IfSome, IsTrue, MatchOption};
ghost use Rattle.std.specs.Option.{option_map};
ghost use Rattle.std.specs.Str.{IsUtf8};
ghost use Rattle.btf_model.specs.Record.{kind_of};
ghost use Rattle.btf_model.specs.Text as model;
ghost use Rattle.btf_model.specs.Text.{FindsName};
ghost use Rattle.btf_plain.specs.Error.{MeetsOrNoMemory, IsOrNoMemory, Meets};
ghost use Rattle.btf_plain.specs.Kind as kinds;
ghost use Rattle.btf_records.specs.BtfType.{record_of};
ghost use Rattle.btf_table.specs.Ascii.{BeginsAscii};
ghost use Rattle.btf_table.specs.BtfStr.{text_bytes, HasName, IsNamed};
ghost use Rattle.btf_table.specs.Readable.{IsReadableEnd, IsComparable, HasNameAt, ReadsWithoutMemory};

use crate::table::ascii::ascii_text;
use bstr::ByteSlice;
use btf_plain::{BtfError, BtfKind};
use btf_records::BtfType;
use std::alloc::Global;

/// A text of a table: the table's own bytes if they are UTF-8, else the text that they are read as.
#[derive(Debug, Drop)]
pub enum BtfStr<'a> {
    /// Bytes of the string section, which are UTF-8.
    Borrowed(&'a str),
    /// The text of bytes that are not UTF-8: U+FFFD replaces each maximal invalid piece.
    Owned(String),
}

impl<'a> BtfStr<'a> {
    ghost use Rattle.std.specs.Prelude.{◌≡◌};
    ghost use Rattle.btf_table.specs.BtfStr.{text_bytes};

    /// The text.
    pub fn as_str(&self) -> &str
        ensures { result.now ≡ text_bytes self.now }
    {
        match self {
            BtfStr::Borrowed(text) => *text,
            BtfStr::Owned(text) => text.as_str(),
        }
    }
}

/// The bytes from an offset up to the first zero byte; None if there is no zero byte. The first `ascii` bytes there are
/// known to be ASCII, and not zero, so the search begins after them.
pub fn bytes_at(strings: &[u8], offset: u32, ascii: usize) -> Option<&[u8]>
    requires { BeginsAscii (drop offset strings.now) ascii }
    ensures bytes { option_map (λ b. b.now) result ≡ model.bytes_at strings.now offset }
    ensures ascii { IfSome result (λ b. BeginsAscii b.now ascii) }
{
    let rest = strings.get(offset as usize..)?;
    let after = &rest[ascii..];
    let end = after.find_byte(0)?;
    Some(&rest[..ascii + end])
}

/// The text of the bytes if they are UTF-8. The first `ascii` bytes are known to be ASCII, so only the bytes after them
/// are checked.
fn utf8_text(bytes: &[u8], ascii: usize) -> Option<&str>
    requires { BeginsAscii bytes.now ascii }
    ensures { MatchOption result (¬ IsUtf8 bytes.now)
        (λ text. (text.now ≡ bytes.now) × IsUtf8 bytes.now) }
{
    match str::from_utf8(&bytes[ascii..]) {
        // SAFETY: ASCII followed by UTF-8 is UTF-8, which the call requires.
        Ok(_) => Some(unsafe { str::from_utf8_unchecked(bytes) }),
        Err(_) => None,
    }
}

/// The text at an offset, or `InvalidStringOffset` of the offset if there is no zero byte at it or after it. Most texts
/// are pure ASCII.
#[inline(always)]
pub fn text_at(alloc: Global, strings: &[u8], offset: u32) -> Result<BtfStr<'_>, BtfError>
    ensures text { IsOrNoMemory text_bytes result (model.text_at strings.now offset) }
    // Memory is allocated only for bytes that are not UTF-8.
    ensures no_memory { ReadsWithoutMemory strings.now offset result }
{
    match ascii_text(strings_from(strings, offset)) {
        Ok(text) => Ok(BtfStr::Borrowed(text)),
        Err(ascii) => any_text_at(alloc, strings, offset, ascii),
    }
}

/// The same for any bytes. The first `ascii` bytes are known to be ASCII and not zero.
#[inline(never)]
fn any_text_at(
    alloc: Global,
    strings: &[u8],
    offset: u32,
    ascii: usize,
) -> Result<BtfStr<'_>, BtfError>
    requires { BeginsAscii (drop offset strings.now) ascii }
    ensures text { IsOrNoMemory text_bytes result (model.text_at strings.now offset) }
    ensures no_memory { ReadsWithoutMemory strings.now offset result }
{
    let Some(bytes) = bytes_at(strings, offset, ascii) else {
        return Err(BtfError::InvalidStringOffset {
            offset: offset as usize,
        });
    };
    if let Some(text) = utf8_text(bytes, ascii) {
        return Ok(BtfStr::Borrowed(text));
    }
    let mut text = String::with_capacity(alloc, bytes.len())?;
    bytes.to_str_lossy_into(&mut text)?;
    Ok(BtfStr::Owned(text))
}

/// The end of the offsets of a string section at which a text can be read: for each lower offset there is a zero byte
/// at it or after it.
pub fn readable_end(strings: &[u8]) -> usize
    ensures { IsReadableEnd strings.now result }
{
    match strings.rfind_byte(0) {
        Some(last) => last + 1,
        None => 0,
    }
}

/// The strings from an offset on.
#[inline(always)]
pub fn strings_from(strings: &[u8], offset: u32) -> &[u8]
    ensures { result.now ≡ drop offset strings.now }
{
    strings.get(offset as usize..).unwrap_or(&[])
}

/// Whether a type has this kind.
fn has_kind(btf_type: &BtfType, kind: BtfKind) -> bool
    ensures { IsTrue result ↔ (kind_of (record_of btf_type.now).info ≡ Some (kinds.kind kind)) }
{
    btf_type.kind() == kind
}

/// Whether a name can be compared with the bytes of a text. It must have no zero byte, because a zero byte ends a text,
/// and no byte with which U+FFFD begins, because U+FFFD replaces bytes that are not UTF-8.
fn is_comparable(name: &str) -> bool
    ensures { IsTrue result → IsComparable name.now }
{
    let bytes = name.as_bytes();
    bytes.find_byte(0).is_none() && bytes.find_byte(0xef).is_none()
}

/// The readable end of the strings if a name can be compared with bytes, else None. A call of its own keeps its values
/// out of the registers of a search.
#[inline(never)]
pub fn comparable_end_in(strings: &[u8], name: &str) -> Option<usize>
    ensures { IfSome result (λ end. IsReadableEnd strings.now end × IsComparable name.now) }
{
    if is_comparable(name) {
        Some(readable_end(strings))
    } else {
        None
    }
}

/// Whether the first bytes of both differ. Most names that a lookup passes do, and then it compares no more of them.
#[inline(always)]
fn begins_otherwise(bytes: &[u8], name: &[u8]) -> bool
    ensures { IsTrue result → (rest : List ℕ) → bytes.now ≢ name.now ++ rest }
{
    match (bytes.first(), name.first()) {
        (Some(byte), Some(first)) => *byte != *first,
        _ => false,
    }
}

/// Whether this name and a zero byte are at an offset. No more bytes than these are read.
#[inline(always)]
pub fn has_name_at(strings: &[u8], offset: u32, name: &str) -> bool
    ensures { IsTrue result ↔ HasNameAt strings.now offset name.now }
{
    let rest = strings_from(strings, offset);
    let name = name.as_bytes();
    if begins_otherwise(rest, name) {
        return false;
    }
    let Some(after) = rest.strip_prefix(name) else {
        return false;
    };
    match after.first() {
        Some(byte) => *byte == 0,
        None => false,
    }
}

/// Whether the text at an offset is this name, or `InvalidStringOffset` if there is no text. With a readable end the
/// bytes are compared, and no text is read to its end. Otherwise the text is read, and bytes that are not UTF-8 need an
/// allocation.
pub fn has_name(
    alloc: Global,
    strings: &[u8],
    offset: u32,
    name: &str,
    readable_end: Option<usize>,
) -> Result<bool, BtfError>
    requires { IfSome readable_end (λ end. IsReadableEnd strings.now end × IsComparable name.now) }
    ensures named { MeetsOrNoMemory (λ b. b) result (HasName strings.now offset name.now) }
    ensures no_memory { IfSome (model.bytes_at strings.now offset) IsUtf8
        → Meets (λ b. b) result (HasName strings.now offset name.now) }
{
    let Some(end) = readable_end else {
        let text = text_at(alloc, strings, offset)?;
        return Ok(text.as_str() == name);
    };
    if offset as usize >= end {
        return Err(BtfError::InvalidStringOffset {
            offset: offset as usize,
        });
    }
    Ok(has_name_at(strings, offset, name))
}

/// The bytes at whose offsets a text can be read, if names are compared with bytes; else none.
pub fn readable_bytes(strings: &[u8], readable_end: Option<usize>) -> &[u8]
    ensures { MatchOption readable_end (result.now ≡ [])
        (λ end. result.now ≡ take end strings.now) }
{
    match readable_end {
        Some(end) => strings.get(..end).unwrap_or(strings),
        None => &[],
    }
}

/// The first byte of a name, or the zero byte after an empty one.
pub fn first_byte(name: &str) -> u8
    ensures { (rest : List ℕ) → get_or (name.now ++ 0 ∷ rest) 0 0 ≡ result }
{
    name.as_bytes().first().copied().unwrap_or(0)
}

/// Whether the text at an offset can be read and begins with another byte than this one.
#[inline(always)]
fn begins_otherwise_at(readable: &[u8], offset: u32, first: u8) -> bool
    ensures { IsTrue result → (byte : ℕ)
        × (slice_get readable.now offset ≡ Some byte) × (byte ≢ first) }
{
    match readable.get(offset as usize) {
        Some(byte) => *byte != first,
        None => false,
    }
}

/// Whether a type has this kind and this name, or why the name of a type of this kind can't be read. With a readable
/// end the bytes are compared, and otherwise the text that they are read as.
#[inline(never)]
fn has_kind_and_name(
    alloc: Global,
    strings: &[u8],
    btf_type: &BtfType,
    name: &str,
    kind: BtfKind,
    readable_end: Option<usize>,
) -> Result<bool, BtfError>
    requires { IfSome readable_end (λ end. IsReadableEnd strings.now end × IsComparable name.now) }
    ensures { MeetsOrNoMemory (λ b. b) result
        (IsNamed strings.now (kinds.kind kind) name.now (record_of btf_type.now)) }
{
    if !has_kind(btf_type, kind) {
        return Ok(false);
    }
    has_name(alloc, strings, btf_type.name_offset(), name, readable_end)
}

/// The id of the first type of this kind and name. The number of types fits in 32 bits. Names of the table are not read
/// to their end, unless the name that is searched for can't be compared with bytes.
///
/// Fails with `InvalidStringOffset` if a type of this kind before it has a name that can't be read, and with
/// `UnknownBtfTypeName` if no type has the kind and the name.
pub fn find_named(
    alloc: Global,
    strings: &[u8],
    types: &[BtfType],
    name: &str,
    kind: BtfKind,
) -> Result<u32, BtfError>
    requires { length types.now < 2 ^ 32 }
    ensures { MeetsOrNoMemory (λ id. id) result
        (FindsName strings.now (map record_of types.now) (kinds.kind kind) name.now) }
{
    let readable_end = comparable_end_in(strings, name);
    let readable = readable_bytes(strings, readable_end);
    let first = first_byte(name);
    for (id, btf_type) in types.iter().enumerate() {
        // Before the kind: most names of a table begin otherwise, so a processor predicts this branch, but not that of
        // the kind.
        if begins_otherwise_at(readable, btf_type.name_offset(), first) {
            continue;
        }
        if has_kind_and_name(alloc, strings, btf_type, name, kind, readable_end)? {
            return Ok(id as u32);
        }
    }
    Err(BtfError::UnknownBtfTypeName {
        type_name: name.to_string(alloc)?,
    })
}
