//! Writing the part of a table above a base.

ghost use Rattle.std.specs.Prelude.{IfOk};
ghost use Rattle.btf_split_model.specs.Split.{split_blob};
ghost use Rattle.btf_plain.specs.Error.{IsOrNoMemory};
ghost use Rattle.btf_split.specs.Blob.{JoinsAgain};

use crate::blob::{HEADER_LEN, append_header, sections_of};
use crate::joining::check_base;
use btf_plain::BtfError;
use btf_table::{Btf, allocator_of, types_len};

/// The part of a table above a base, as a split table in the table's byte order. The base is the first `base_types`
/// types, id 0 included, and the first `base_strings` bytes of the strings. Its numbers are `type_count` and
/// `string_len` of its table.
///
/// Fails with `UnknownBtfType` of `base_types` if it is 0 or the table has fewer types, and then with
/// `InvalidStringOffset` of `base_strings` if the table has fewer bytes of strings. Takes time linear in the table, and
/// holds the bytes of the table while it writes.
pub fn split_bytes(table: &Btf, base_types: u32, base_strings: u32) -> Result<Vec<u8>, BtfError>
    ensures written { IsOrNoMemory (λ v. v.items) result
        (split_blob base_types base_strings table.now) }
    // Over any base that the table begins with, the bytes are parsed as the table again, except for retained 64-bit
    // enum values.
    ensures joins_again { IfOk result (λ v. JoinsAgain table.now base_types base_strings v.items) }
{
    check_base(table, base_types, base_strings)?;
    let blob = table.to_bytes()?;
    let endianness = table.endianness();
    let whole = sections_of(&blob, endianness);
    let types = table.types().as_slice();
    let start = types_len(&types[1..base_types as usize], endianness);
    let own_types = &whole.types[start..];
    let own_strings = &whole.strings[base_strings as usize..];
    let len = HEADER_LEN + own_types.len() + own_strings.len();
    let mut out = Vec::with_capacity(allocator_of(table), len)?;
    append_header(
        &mut out,
        &blob,
        own_types.len() as u32,
        own_strings.len() as u32,
        endianness,
    )?;
    out.extend_from_slice(own_types)?;
    out.extend_from_slice(own_strings)?;
    Ok(out)
}
