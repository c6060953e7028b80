//! Records of a section, all of one size. Only the first words of each are read.

ghost use Rattle.std.specs.Prelude.{◌≡◌, ℕ, ◌*◌, ◌≤◌, List, length, map, IfOk};
ghost use Rattle.btf_model.specs.Word.{words_at};
ghost use Rattle.btf_model.specs.Ext.{IsSection, record_words};
ghost use Rattle.btf_ext.specs.SecInfo.{section_of, section_words};

use crate::sections::SecInfo;
use crate::words::four_words;
use btf_plain::Endianness;
use std::alloc::{AllocError, Global};

/// The number of bytes of an instruction.
pub const INSTRUCTION_LEN: u32 = 8;

/// A record that is read from its first words.
pub trait Record: Sized + Drop {
    /// The number of words that are read.
    ghost width: { ℕ };

    /// The words of a record.
    ghost words: { Self → List ℕ };

    /// The words of a record, as a function of the words that are read.
    ghost read_as: { List ℕ → List ℕ };

    /// The record at the start of bytes.
    fn read(bytes: &[u8], endianness: Endianness) -> Self
        requires { 4 * width ≤ length bytes.now }
        ensures { words result ≡ read_as (words_at endianness width bytes.now) };
}

/// Four words, unchanged.
impl Record for [u32; 4] {
    ghost width = { 4 };

    ghost words = { λ words. words };

    ghost read_as = { λ words. words };

    fn read(bytes: &[u8], endianness: Endianness) -> Self {
        four_words(bytes, endianness)
    }
}

/// The records of a section, `rec_size` bytes each, in a vector of exactly their number.
pub fn read_records<T: Record>(
    alloc: Global,
    section: &SecInfo<'_>,
    rec_size: usize,
    endianness: Endianness,
) -> Result<Vec<T>, AllocError>
    requires whole { IsSection rec_size (section_of section.now) }
    requires wide { 4 * T.width ≤ rec_size }
    ensures { IfOk result (λ v. map T.words v.items ≡ map T.read_as
        (section_words endianness rec_size T.width section.now)) }
{
    let mut records = Vec::with_capacity(alloc, section.num_info as usize)?;
    let mut rest = section.bytes;
    for _ in 0..section.num_info {
        let (_, behind) = rest.split_at(rec_size);
        records.push(T::read(rest, endianness))?;
        rest = behind;
    }
    Ok(records)
}
