//! Reading words at the front of bytes, and appending words.

ghost use Rattle.std.specs.Prelude.{◌≡◌, ◌<◌, ◌^◌, ◌++◌, OnOk};
ghost use Rattle.std.specs.List.{flat_map, AllByRecursion};
ghost use Rattle.btf_model.specs.Word.{word};
ghost use Rattle.btf_plain.specs.Head.{SplitsWord};

use crate::error::BtfError;
use btf_model::Endianness;
use std::alloc::AllocError;

/// The first word of bytes, and the bytes after it.
pub fn split_word(bytes: &[u8], endianness: Endianness) -> Result<(u32, &[u8]), BtfError>
    ensures { SplitsWord bytes.now endianness result }
{
    let Some((word, rest)) = bytes.split_first_chunk::<4>() else {
        return Err(BtfError::InvalidTypeInfo);
    };
    Ok((endianness.read_u32(*word), rest))
}

/// Appends words to bytes, in one step.
pub fn push_array<const N: usize>(
    out: &mut Vec<u8>,
    endianness: Endianness,
    words: &[u32; N],
) -> Result<(), AllocError>
    ensures written { OnOk result (out.new.items ≡ out.old.items
        ++ flat_map (word endianness) words.now) }
    ensures words_fit { AllByRecursion (λ w. w < 2 ^ 32) words.now }
{
    let values = words.as_slice();
    let mut bytes = [[0; 4]; N];
    for index in 0..N {
        bytes[index] = endianness.write_u32(values[index]);
    }
    out.extend_from_slice(bytes.as_flattened())
}
