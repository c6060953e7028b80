//! ARRAY: an array.

ghost use Rattle.std.specs.Prelude.{◌≡◌, [], ◌∷◌, refl};
ghost use Rattle.btf_model.specs.Made as made;
ghost use Rattle.btf_plain.specs.declared.kind.BtfKind.TheVariants.{Array};

use crate::btf_array::BtfArray;
use crate::bytes::{push_array, split_word};
use crate::error::BtfError;
use crate::head::Head;
use crate::kind::BtfKind;
use crate::record::{Kind, Record};
use crate::words::{Fixed, Words};
use btf_model::Endianness;
use std::alloc::{AllocError, Global};

/// The kind ARRAY.
pub struct ArrayKind;

impl Kind for ArrayKind {
    type Tail = BtfArray;

    const KIND: BtfKind = BtfKind::Array;

    ghost KIND = { Array };

    ghost tail_number = { λ _. refl };

    ghost is_kept = { λ _. refl };
}

/// An array (the kernel's documentation, "BTF_KIND_ARRAY"). Its third word is 0.
pub type Array = Record<ArrayKind>;

impl Record<ArrayKind> {
    /// An array of `len` elements of the type of id `element_type`, indexed by the type of id `index_type`.
    pub fn new(name_offset: u32, element_type: u32, index_type: u32, len: u32) -> Self
        ensures { result ≡ made.array name_offset element_type index_type len }
    {
        let array = BtfArray {
            element_type,
            index_type,
            len,
        };
        Self::of(name_offset, (BtfKind::Array as u32) << 24, 0, array)
    }

    /// The words of the array.
    pub fn array(&self) -> &BtfArray
        ensures { self.now.tail ≡
            result.now.element_type ∷ result.now.index_type ∷ result.now.len ∷ [] }
    {
        &self.tail
    }
}

/// The three words of the array.
impl Words for BtfArray {
    ghost words = { λ a. a.element_type ∷ a.index_type ∷ a.len ∷ [] };

    ghost number = { λ _. 3 };

    ghost kept = { λ ws. ws };

    fn number(_vlen: usize) -> usize {
        3
    }

    fn read(
        _alloc: Global,
        bytes: &[u8],
        endianness: Endianness,
        _vlen: usize,
    ) -> Result<Self, BtfError> {
        let (element_type, rest) = split_word(bytes, endianness)?;
        let (index_type, rest) = split_word(rest, endianness)?;
        let (len, _) = split_word(rest, endianness)?;
        Ok(BtfArray {
            element_type,
            index_type,
            len,
        })
    }

    fn append_to(
        &self,
        head: &Head,
        out: &mut Vec<u8>,
        endianness: Endianness,
    ) -> Result<(), AllocError> {
        let words = [
            head.name,
            head.info,
            head.third,
            self.element_type,
            self.index_type,
            self.len,
        ];
        push_array(out, endianness, &words)
    }

    ghost cloned = { λ x y h i. h.0 i ∷ h.1.0 i ∷ h.1.1 i ∷ [] };

    ghost words_kept = { λ _. refl };

    ghost length_kept = { λ _. refl };
}

impl Fixed for BtfArray {
    ghost is_copied = { λ x. (tt, (tt, tt)) };

    ghost same_number = { λ _ _. refl };
}
