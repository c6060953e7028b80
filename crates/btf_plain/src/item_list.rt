//! The list of a record. A few items are stored in the record itself.

ghost use Rattle.std.specs.Prelude.{◌≡◌, ◌<◌, ◌≤◌, length, map, take, slice_set, IfOk, IfSome};
ghost use Rattle.std.specs.List.{flat_map};
ghost use Rattle.btf_plain.specs.Error.{MeetsOrNoMemory};
ghost use Rattle.btf_plain.specs.ReadItems.{ReadsItems};
ghost use Rattle.btf_plain.specs.ItemList.{items_of};
ghost use Rattle.btf_plain.specs.Items.{variant_of_param};

use crate::error::BtfError;
use crate::item::{Item, copied, read_item, read_items};
use crate::items::{BtfEnum, BtfParam};
use btf_model::Endianness;
use std::alloc::{AllocError, Global};
use std::{array, fmt};

/// The length in bytes of an item of three words, which is the longest item.
const LONGEST_ITEM: usize = 12;

/// The items of a record. Most records have a few items, which are stored in the record itself without an allocation.
#[derive(Drop)]
pub enum ItemList<T, const N: usize> {
    /// A number of items at the front of an array. With 32 bits the number and the enum's tag take 8 bytes together.
    Few(u32, [T; N]),
    /// All items of a vector.
    Many(Vec<T>),
}

impl<T, const N: usize> ItemList<T, N> {
    /// The items, in order.
    pub fn as_slice(&self) -> &[T]
        ensures { result.now ≡ items_of self.now }
    {
        match self {
            ItemList::Few(count, items) => {
                let items = items.as_slice();
                &items[..items.len().min(*count as usize)]
            }
            ItemList::Many(items) => items.as_slice(),
        }
    }
}

impl<T: Item, const N: usize> ItemList<T, N> {
    /// Reads `count` items from the front of bytes. Fails with `InvalidTypeInfo` if the bytes are too few.
    pub fn read(
        alloc: Global,
        bytes: &[u8],
        endianness: Endianness,
        count: usize,
    ) -> Result<Self, BtfError>
        ensures { MeetsOrNoMemory items_of result
            (ReadsItems T.WIDTH T.item_words endianness bytes.now count) }
    {
        let Some(few) = few_of(count, N) else {
            return Ok(ItemList::Many(read_items(alloc, bytes, endianness, count)?));
        };
        // A loop with a constant number of rounds is faster, so all places of the array are filled if there are enough
        // bytes.
        if bytes.len() / LONGEST_ITEM >= N {
            if let Ok(items) = read_few(bytes, endianness, N) {
                return Ok(ItemList::Few(few, items));
            }
        }
        let items = read_few(bytes, endianness, count)?;
        Ok(ItemList::Few(few, items))
    }

    /// These items. A few are copied into the list itself, and their vector is freed.
    pub fn from_vec(items: Vec<T>) -> Self
        ensures { items_of result ≡ items.items }
    {
        let Some(count) = few_of(items.len(), N) else {
            return ItemList::Many(items);
        };
        let mut few: [T; N] = array::from_fn(|_| T::from_words([0; 3]));
        for index in 0..items.len() {
            few[index] = copied(&items[index]);
        }
        ItemList::Few(count, few)
    }

    /// Replaces the item at an index.
    pub fn set(&mut self, index: usize, item: T)
        requires { index < length (items_of self.old) }
        ensures { items_of self.new ≡ slice_set (items_of self.old) index item }
    {
        match self {
            ItemList::Few(_, items) => items.as_mut_slice()[index] = item,
            ItemList::Many(items) => items[index] = item,
        }
    }
}

impl<T: Item, const N: usize> Clone for ItemList<T, N> {
    ghost use Rattle.std.specs.Prelude.{◌≡◌, length};
    ghost use Rattle.std.specs.List.{flat_map};

    ghost is_clone = { λ xs ys. (flat_map T.item_words (items_of ys)
        ≡ flat_map T.item_words (items_of xs)) × (length (items_of ys) ≡ length (items_of xs)) };

    ghost is_infallible = { λ _. ⊥ };

    fn clone(&self) -> Result<Self, AllocError> {
        match self {
            ItemList::Few(count, items) => Ok(ItemList::Few(*count, copy_few(items))),
            ItemList::Many(items) => Ok(ItemList::Many(items.clone()?)),
        }
    }
}

/// The number of items if the record itself has places for them.
#[inline(always)]
fn few_of(count: usize, places: usize) -> Option<u32>
    ensures { IfSome result (λ few. (few ≡ count) × (few ≤ places)) }
{
    if count > places {
        None
    } else {
        u32::try_from(count).ok()
    }
}

/// The parameters of a prototype as variants of an ENUM. A few are copied without an allocation.
pub fn as_variants<const N: usize>(
    params: &ItemList<BtfParam, N>,
) -> Result<ItemList<BtfEnum, N>, AllocError>
    ensures { IfOk result (λ v. items_of v ≡ map variant_of_param (items_of params.now)) }
{
    match params {
        ItemList::Few(count, params) => Ok(ItemList::Few(*count, few_variants(params))),
        ItemList::Many(params) => Ok(ItemList::Many(many_variants(params)?)),
    }
}

/// A variant for each parameter of an array. A loop with a constant number of rounds is compiled to one copy of the
/// whole array.
fn few_variants<const N: usize>(params: &[BtfParam; N]) -> [BtfEnum; N]
    ensures { result ≡ map variant_of_param params.now }
{
    let mut variants: [BtfEnum; N] = array::from_fn(|_| BtfEnum::new(0, 0));
    for index in 0..N {
        let param = &params.as_slice()[index];
        variants[index] = BtfEnum::new(param.name_offset, param.btf_type);
    }
    variants
}

/// A variant for each parameter of a vector.
fn many_variants(params: &Vec<BtfParam>) -> Result<Vec<BtfEnum>, AllocError>
    ensures { IfOk result (λ v. v.items ≡ map variant_of_param params.now.items) }
{
    let mut variants = Vec::with_capacity(*params.allocator(), params.len())?;
    for param in params {
        variants.push(BtfEnum::new(param.name_offset, param.btf_type))?;
    }
    Ok(variants)
}

/// A copy of the items. A loop with a constant number of rounds is compiled to one copy of the whole array.
fn copy_few<T: Item, const N: usize>(items: &[T; N]) -> [T; N]
    ensures { result ≡ items.now }
{
    let mut copies: [T; N] = array::from_fn(|_| T::from_words([0; 3]));
    for index in 0..N {
        copies[index] = copied(&items.as_slice()[index]);
    }
    copies
}

/// Reads `count` items from the front of bytes into the first places of an array. Fails with `InvalidTypeInfo` if the
/// bytes are too few.
fn read_few<T: Item, const N: usize>(
    bytes: &[u8],
    endianness: Endianness,
    count: usize,
) -> Result<[T; N], BtfError>
    requires { count ≤ N }
    ensures { MeetsOrNoMemory (take count) result
        (ReadsItems T.WIDTH T.item_words endianness bytes.now count) }
{
    let mut items: [T; N] = array::from_fn(|_| T::from_words([0; 3]));
    let mut rest = bytes;
    for index in 0..count {
        let (item, after) = read_item::<T>(rest, endianness)?;
        items[index] = item;
        rest = after;
    }
    Ok(items)
}

impl<T: fmt::Debug, const N: usize> fmt::Debug for ItemList<T, N> {
    fn fmt<W: fmt::Write>(&self, f: &mut fmt::Formatter<W>) -> fmt::Result {
        fmt::Debug::fmt(self.as_slice(), f)
    }
}
