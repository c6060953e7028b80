//! Names in the string section.

ghost use Rattle.std.specs.Prelude.{◌≡◌, ◌↔◌, IfSome, IsTrue};
ghost use Rattle.btf_model.specs.Text.{lossy};
ghost use Rattle.btf_table.specs.Readable.{IsComparable, IsReadableEnd};
ghost use Rattle.btf_view.specs.Finding.{ComparesName, CutsText, chunk_text};

use bstr::ByteSlice;
use btf_table::{bytes_at, has_name_at};

/// What follows a text at the front of bytes; None if they do not begin with it.
fn after_text<'a>(bytes: &'a [u8], text: &str) -> Option<&'a [u8]>
    ensures { CutsText bytes.now text.now result }
{
    match bytes.strip_prefix(text.as_bytes()) {
        Some(after) => Some(after),
        None => None,
    }
}

/// What follows the text of a piece of bytes, as `after_text` does: valid UTF-8, and U+FFFD if bytes that are not UTF-8
/// follow it.
fn after_chunk<'a>(bytes: &'a [u8], valid: &str, invalid: &[u8]) -> Option<&'a [u8]>
    ensures { CutsText bytes.now (chunk_text valid.now invalid.now) result }
{
    let Some(after) = after_text(bytes, valid) else {
        return None;
    };
    if invalid.is_empty() {
        return Some(after);
    }
    match after_text(after, "\u{FFFD}") {
        Some(rest) => Some(rest),
        None => None,
    }
}

/// Whether this is the text of the bytes: U+FFFD replaces each longest piece that is not UTF-8. Nothing is allocated.
fn is_text_of(bytes: &[u8], name: &str) -> bool
    ensures { IsTrue result ↔ (lossy bytes.now ≡ name.now) }
{
    let mut rest = name.as_bytes();
    for chunk in bytes.utf8_chunks() {
        let Some(after) = after_chunk(rest, chunk.valid(), chunk.invalid()) else {
            return false;
        };
        rest = after;
    }
    rest.is_empty()
}

/// Whether the text at an offset is this name, which may have any bytes; None if there is no text.
#[inline(never)]
fn has_any_name(strings: &[u8], offset: u32, name: &str) -> Option<bool>
    ensures { ComparesName strings.now offset name.now result }
{
    match bytes_at(strings, offset, 0) {
        Some(text) => Some(is_text_of(text, name)),
        None => None,
    }
}

/// Whether the text at an offset is this name; None if there is no text. With a readable end the bytes are compared,
/// and no text is read to its end.
#[inline(always)]
pub(crate) fn has_name(
    strings: &[u8],
    offset: u32,
    name: &str,
    readable_end: Option<usize>,
) -> Option<bool>
    requires { IfSome readable_end (λ end. IsReadableEnd strings.now end × IsComparable name.now) }
    ensures { ComparesName strings.now offset name.now result }
{
    let Some(end) = readable_end else {
        return has_any_name(strings, offset, name);
    };
    if offset as usize >= end {
        return None;
    }
    Some(has_name_at(strings, offset, name))
}
