//! Lists of items: the code that all kinds with a list share.

ghost use Rattle.std.specs.Prelude.{◌≡◌, ◌⊎◌, ℕ, ◌<◌, ◌^◌, ◌++◌, List, length, take, Ok, OnOk};
ghost use Rattle.std.specs.List.{flat_map, AllByRecursion};
ghost use Rattle.btf_model.specs.Word.{word};
ghost use Rattle.btf_plain.specs.Error.{MeetsOrNoMemory};
ghost use Rattle.btf_plain.specs.ReadItems.{ReadsItems, padded, ReadsItem};

use crate::bytes::{push_array, split_word};
use crate::error::BtfError;
use btf_model::Endianness;
use std::alloc::{AllocError, Global};

/// An item of a list: two or three words.
pub trait Item: Sized + Clone + Drop {
    /// The number of words of an item.
    const WIDTH: usize;

    ghost WIDTH: { ℕ };

    /// The words of an item.
    ghost item_words: { Self → List ℕ };

    /// The words of the item. If it has two, the third word is 0.
    fn words(&self) -> [u32; 3]
        ensures { result ≡ padded (item_words self.now) };

    /// The item with these words. If an item has two words, the third is ignored.
    fn from_words(words: [u32; 3]) -> Self
        ensures { item_words result ≡ take WIDTH words };

    /// Items with the same words are equal.
    ghost same_item: { (x y : Self) → item_words x ≡ item_words y → x ≡ y };

    /// A clone has the same words.
    ghost cloned_words: { (x y : Self) → Self.is_clone x y → item_words y ≡ item_words x };

    /// Each item has this number of words.
    ghost item_width: { (x : Self) → length (item_words x) ≡ WIDTH };

    /// An item has two or three words.
    ghost two_or_three: { (WIDTH ≡ 2) ⊎ (WIDTH ≡ 3) };
}

/// The item at the front of bytes, and the bytes after it. Fails with `InvalidTypeInfo` if the bytes are too few.
pub(crate) fn read_item<T: Item>(
    bytes: &[u8],
    endianness: Endianness,
) -> Result<(T, &[u8]), BtfError>
    ensures { ReadsItem bytes.now endianness T.WIDTH T.item_words result }
{
    let (first, rest) = split_word(bytes, endianness)?;
    let (second, rest) = split_word(rest, endianness)?;
    if T::WIDTH == 2 {
        return Ok((T::from_words([first, second, 0]), rest));
    }
    let (third, rest) = split_word(rest, endianness)?;
    Ok((T::from_words([first, second, third]), rest))
}

/// Appends an item to bytes.
fn push_item<T: Item>(out: &mut Vec<u8>, endianness: Endianness, item: &T) -> Result<(), AllocError>
    ensures written { OnOk result (out.new.items ≡ out.old.items
        ++ flat_map (word endianness) (T.item_words item.now)) }
    ensures words_fit { AllByRecursion (λ w. w < 2 ^ 32) (T.item_words item.now) }
{
    let words = item.words();
    if T::WIDTH == 2 {
        let [first, second, _] = words;
        push_array(out, endianness, &[first, second])
    } else {
        push_array(out, endianness, &words)
    }
}

/// A copy of an item, without an allocation.
pub(crate) fn copied<T: Item>(item: &T) -> T
    ensures { result ≡ item.now }
{
    T::from_words(item.words())
}

/// Appends items to bytes.
pub fn push_items<T: Item>(
    out: &mut Vec<u8>,
    endianness: Endianness,
    items: &[T],
) -> Result<(), AllocError>
    ensures written { OnOk result (out.new.items ≡ out.old.items
        ++ flat_map (word endianness) (flat_map T.item_words items.now)) }
    ensures words_fit { OnOk result
        (AllByRecursion (λ w. w < 2 ^ 32) (flat_map T.item_words items.now)) }
{
    for item in items {
        push_item(out, endianness, item)?;
    }
    Ok(())
}

/// Reads `count` items from the front of bytes, into a vector whose capacity is `count`. Fails with `InvalidTypeInfo`
/// if the bytes are too few.
pub fn read_items<T: Item>(
    alloc: Global,
    bytes: &[u8],
    endianness: Endianness,
    count: usize,
) -> Result<Vec<T>, BtfError>
    ensures { MeetsOrNoMemory (λ v. v.items) result
        (ReadsItems T.WIDTH T.item_words endianness bytes.now count) }
{
    let mut items = Vec::with_capacity(alloc, count)?;
    let mut rest = bytes;
    for _ in 0..count {
        let (item, behind) = read_item::<T>(rest, endianness)?;
        items.push(item)?;
        rest = behind;
    }
    Ok(items)
}
