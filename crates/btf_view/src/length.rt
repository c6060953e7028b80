//! The length of a record.

ghost use Rattle.std.specs.Prelude.{◌≡◌, ◌+◌, ◌*◌, ◌<◌, ◌^◌};
ghost use Rattle.btf_model.specs.Record.{tail_words};
ghost use Rattle.btf_plain.specs.Kind as kinds;
ghost use Rattle.btf_view.specs.Index.{HasLength};

use btf_plain::{BtfError, BtfKind, Endianness, Head};

/// The number of words of a record of this kind after the third, without its items.
#[inline(always)]
fn fixed_words(kind: BtfKind) -> usize
    ensures value { result ≡ tail_words (kinds.kind kind) 0 }
    ensures small { result < 4 }
{
    match kind {
        BtfKind::Int | BtfKind::Var | BtfKind::DeclTag => 1,
        BtfKind::Array => 3,
        _ => 0,
    }
}

/// The number of words of an item of a record of this kind; 0 if it has no items.
#[inline(always)]
fn item_words(kind: BtfKind) -> usize
    ensures value { result + tail_words (kinds.kind kind) 0 ≡ tail_words (kinds.kind kind) 1 }
    ensures small { result < 4 }
{
    match kind {
        BtfKind::Enum | BtfKind::FuncProto => 2,
        BtfKind::Struct | BtfKind::Union | BtfKind::DataSec | BtfKind::Enum64 => 3,
        _ => 0,
    }
}

/// The number of words of a record of this kind after the third. There is no branch on the kind.
#[inline(always)]
pub(crate) fn words_after(kind: BtfKind, vlen: usize) -> usize
    requires { vlen < 2 ^ 16 }
    ensures value { result ≡ tail_words (kinds.kind kind) vlen }
    ensures small { result < 2 ^ 18 }
{
    fixed_words(kind) + item_words(kind) * vlen
}

/// The length in bytes of the record that the bytes begin with.
///
/// Fails with `InvalidTypeInfo` if the record is truncated, and with `InvalidTypeKind` if the library does not read its
/// kind.
#[inline(always)]
pub fn record_len(bytes: &[u8], endianness: Endianness) -> Result<usize, BtfError>
    ensures { HasLength endianness bytes.now result }
{
    let (head, _) = Head::read(bytes, endianness)?;
    let kind = BtfKind::try_from(head.kind())?;
    let len = 12 + 4 * words_after(kind, head.vlen());
    if bytes.len() < len {
        return Err(BtfError::InvalidTypeInfo);
    }
    Ok(len)
}
