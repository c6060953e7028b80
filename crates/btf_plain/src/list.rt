//! The tail of a record with a list: as many items as vlen gives.

ghost use Rattle.std.specs.Prelude.{◌≡◌, ◌+◌, ◌*◌, ◌^◌, ◌<◌, ◌≤◌, length, Some, slice_get, refl};
ghost use Rattle.std.specs.List.{flat_map};
ghost use Rattle.btf_model.specs.Info.{flag_bit};
ghost use Rattle.btf_model.specs.Record.{vlen, kinds as all_kinds};
ghost use Rattle.btf_plain.specs.Kind as kinds;
ghost use Rattle.btf_plain.specs.Third.{third_kept};
ghost use Rattle.btf_plain.specs.ItemList.{items_of, listing};

use crate::bytes::push_array;
use crate::error::BtfError;
use crate::head::Head;
use crate::item::{Item, push_items};
use crate::item_list::ItemList;
use crate::record::{Kind, Record};
use crate::words::Words;
use btf_model::Endianness;
use std::alloc::{AllocError, Global};
use std::fmt;

/// The largest number of items in one record: vlen has 16 bits.
pub const MAX_VLEN: usize = 65535;

/// The words of items.
pub trait Items: Words {
    ghost use Rattle.std.specs.Prelude.{◌≡◌, ◌*◌, ℕ, List};
    ghost use Rattle.std.specs.List.{flat_map};

    /// An item.
    type Element: Item;

    /// The items, in order.
    ghost listed: { Self → List Self.Element };

    /// The items, in order.
    fn items(&self) -> &[Self::Element]
        ensures { result.now ≡ listed self.now };

    /// The words are those of the items.
    ghost words_listed: { (x : Self) → Self.words x
        ≡ flat_map Self.Element.item_words (listed x) };

    /// The number of words, by the number of items.
    ghost number_listed: { (n : ℕ) → Self.number n ≡ Self.Element.WIDTH * n };
}

impl<T: Item + fmt::Debug, const N: usize> Words for ItemList<T, N> {
    ghost words = { λ list. flat_map T.item_words (items_of list) };

    ghost number = { λ vlen. T.WIDTH * vlen };

    ghost kept = { λ ws. ws };

    fn number(vlen: usize) -> usize {
        T::WIDTH * vlen
    }

    fn read(
        alloc: Global,
        bytes: &[u8],
        endianness: Endianness,
        vlen: usize,
    ) -> Result<Self, BtfError> {
        ItemList::read(alloc, bytes, endianness, vlen)
    }

    fn append_to(
        &self,
        head: &Head,
        out: &mut Vec<u8>,
        endianness: Endianness,
    ) -> Result<(), AllocError> {
        push_array(out, endianness, &[head.name, head.info, head.third])?;
        push_items(out, endianness, self.as_slice())
    }

    ghost cloned = { λ xs ys same. same.0 };

    ghost words_kept = { λ _. refl };

    ghost length_kept = { λ _. refl };
}

impl<T: Item + fmt::Debug, const N: usize> Items for ItemList<T, N> {
    type Element = T;

    ghost listed = { items_of };

    fn items(&self) -> &[T] {
        self.as_slice()
    }

    ghost words_listed = { λ _. refl };

    ghost number_listed = { λ _. refl };
}

/// Bit 31, which is set if the flag is.
pub(crate) fn flag_word(flag: bool) -> u32
    ensures { result ≡ flag_bit flag }
{
    if flag { 1 << 31 } else { 0 }
}

impl<K: Kind> Record<K>
where
    K::Tail: Items,
{
    /// The record of a kind with this number, with this kind flag and these items.
    pub(crate) fn listing(number: u32, name: u32, flag: bool, third: u32, tail: K::Tail) -> Self
        requires small { number < 2 ^ 5 }
        requires kind { slice_get all_kinds number ≡ Some (kinds.kind K.KIND) }
        requires few { length (K.Tail.listed tail) ≤ MAX_VLEN }
        requires third { third_kept (kinds.kind K.KIND) third ≡ third }
        ensures { result ≡ listing number name flag third K.Tail.Element.item_words
            (K.Tail.listed tail) }
    {
        let info = number << 24 | tail.items().len() as u32 | flag_word(flag);
        Self::of(name, info, third, tail)
    }

    /// The items, in order.
    pub(crate) fn items(&self) -> &[<K::Tail as Items>::Element]
        ensures words { self.now.tail ≡ flat_map K.Tail.Element.item_words result.now }
        ensures count { vlen self.now.info ≡ length result.now }
    {
        self.tail.items()
    }
}
