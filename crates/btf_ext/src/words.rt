//! Reading words from bytes, and writing them.

ghost use Rattle.std.specs.Prelude.{◌≡◌, ◌+◌, ◌≤◌, ◌++◌, length, drop, take, OnOk};
ghost use Rattle.std.specs.List.{flat_map};
ghost use Rattle.btf_model.specs.Word.{word, word_of, words_at};
ghost use Rattle.btf_model.specs.declared.endianness.Endianness.TheVariants.{Little};
ghost use Rattle.btf_model.specs.Blob as blob;

use btf_plain::{Endianness, push_array};
use std::alloc::AllocError;

/// The first word of bytes, and the bytes after it.
pub fn split_word(bytes: &[u8], endianness: Endianness) -> (u32, &[u8])
    requires { 4 ≤ length bytes.now }
    ensures word { result.0 ≡ word_of endianness (take 4 bytes.now) }
    ensures rest { result.1.now ≡ drop 4 bytes.now }
    ensures length { length result.1.now + 4 ≡ length bytes.now }
{
    let (word, rest) = bytes.split_first_chunk::<4>().unwrap();
    (endianness.read_u32(*word), rest)
}

/// The word at an offset.
pub fn word_at(bytes: &[u8], at: usize, endianness: Endianness) -> u32
    requires { at + 4 ≤ length bytes.now }
    ensures { result ≡ blob.word_at endianness at bytes.now }
{
    let (_, rest) = bytes.split_at(at);
    let (word, _) = split_word(rest, endianness);
    word
}

/// The first four words of bytes.
pub fn four_words(bytes: &[u8], endianness: Endianness) -> [u32; 4]
    requires { 16 ≤ length bytes.now }
    ensures { result ≡ words_at endianness 4 bytes.now }
{
    let (first, rest) = split_word(bytes, endianness);
    let (second, rest) = split_word(rest, endianness);
    let (third, rest) = split_word(rest, endianness);
    let (fourth, _) = split_word(rest, endianness);
    [first, second, third, fourth]
}

/// Appends words to bytes, the lowest byte first, in one step: all of them or none.
pub fn push_little<const N: usize>(out: &mut Vec<u8>, words: &[u32; N]) -> Result<(), AllocError>
    ensures { OnOk result (out.new.items ≡ out.old.items ++ flat_map (word Little) words.now) }
{
    push_array(out, Endianness::Little, words)
}
