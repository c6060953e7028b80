//! The items of the records that have a list.

ghost use Rattle.std.specs.Prelude.{◌≡◌, ◌/◌, ◌%◌, ◌^◌, [], ◌∷◌, slice_index, refl};
ghost use Rattle.std.proofs.Common.{inl, inr};
ghost use Rattle.btf_plain.specs.Items.{enum_words, enum64_words, member_words, param_words, code_entry_words};

use crate::item::Item;

/// A variant of an ENUM (the kernel's documentation, "BTF_KIND_ENUM").
#[derive(Clone, Debug, Drop)]
pub struct BtfEnum {
    /// The string offset of the name.
    pub name_offset: u32,
    /// The value, in two's complement if the ENUM is signed.
    pub value: u32,
}

impl BtfEnum {
    /// A variant with this name and value.
    pub fn new(name_offset: u32, value: u32) -> Self
        ensures { result ≡ record { name_offset = name_offset; value = value } }
    {
        Self { name_offset, value }
    }
}

/// A variant of an ENUM64 (the kernel's documentation, "BTF_KIND_ENUM64").
#[derive(Copy, Clone, Debug)]
pub struct BtfEnum64 {
    /// The string offset of the name.
    pub name_offset: u32,
    /// The low 32 bits of the value.
    pub value_low: u32,
    /// The high 32 bits of the value.
    pub value_high: u32,
}

impl BtfEnum64 {
    /// A variant with this name and value.
    pub fn new(name_offset: u32, value: u64) -> Self
        ensures { result ≡ record {
          name_offset = name_offset;
          value_low = value % 2 ^ 32;
          value_high = value / 2 ^ 32;
        } }
    {
        Self {
            name_offset,
            value_low: (value & 0xffff_ffff) as u32,
            value_high: (value >> 32) as u32,
        }
    }
}

/// A member of a STRUCT or a UNION (the kernel's documentation, "BTF_KIND_STRUCT").
#[derive(Clone, Debug, Drop)]
pub struct BtfMember {
    /// The string offset of the name.
    pub name_offset: u32,
    /// The id of the type.
    pub btf_type: u32,
    /// The bit offset; if the record's kind flag is set, the high 8 bits are the size of a bit-field.
    pub offset: u32,
}

/// A parameter of a FUNC_PROTO (the kernel's documentation, "BTF_KIND_FUNC_PROTO").
#[derive(Clone, Debug, Drop)]
pub struct BtfParam {
    /// The string offset of the name.
    pub name_offset: u32,
    /// The id of the type; 0 represents further arguments of any type.
    pub btf_type: u32,
}

/// An entry of a DATASEC (the kernel's documentation, "BTF_KIND_DATASEC").
#[derive(Clone, Debug, Drop)]
pub struct DataSecEntry {
    /// The id of the VAR.
    pub btf_type: u32,
    /// The offset of the variable in the section, in bytes.
    pub offset: u32,
    /// Its size in bytes.
    pub size: u32,
}

impl Item for BtfEnum {
    const WIDTH: usize = 2;

    ghost WIDTH = { 2 };

    ghost item_words = { enum_words };

    fn words(&self) -> [u32; 3] {
        [self.name_offset, self.value, 0]
    }

    fn from_words(words: [u32; 3]) -> Self {
        let [name_offset, value, _] = words;
        Self::new(name_offset, value)
    }

    ghost same_item = { λ x y same i. record {
      name_offset = slice_index (same i) 0;
      value = slice_index (same i) 1;
    } };

    ghost cloned_words = { λ x y h i. h.0 i ∷ h.1 i ∷ [] };

    ghost item_width = { λ x. refl };

    ghost two_or_three = { inl refl };
}

impl Item for BtfEnum64 {
    const WIDTH: usize = 3;

    ghost WIDTH = { 3 };

    ghost item_words = { enum64_words };

    fn words(&self) -> [u32; 3] {
        [self.name_offset, self.value_low, self.value_high]
    }

    fn from_words(words: [u32; 3]) -> Self {
        let [name_offset, value_low, value_high] = words;
        Self {
            name_offset,
            value_low,
            value_high,
        }
    }

    ghost same_item = { λ x y same i. record {
      name_offset = slice_index (same i) 0;
      value_low = slice_index (same i) 1;
      value_high = slice_index (same i) 2;
    } };

    ghost cloned_words = { λ x y h i. enum64_words (h i) };

    ghost item_width = { λ x. refl };

    ghost two_or_three = { inr refl };
}

impl Item for BtfMember {
    const WIDTH: usize = 3;

    ghost WIDTH = { 3 };

    ghost item_words = { member_words };

    fn words(&self) -> [u32; 3] {
        [self.name_offset, self.btf_type, self.offset]
    }

    fn from_words(words: [u32; 3]) -> Self {
        let [name_offset, btf_type, offset] = words;
        Self {
            name_offset,
            btf_type,
            offset,
        }
    }

    ghost same_item = { λ x y same i. record {
      name_offset = slice_index (same i) 0;
      btf_type = slice_index (same i) 1;
      offset = slice_index (same i) 2;
    } };

    ghost cloned_words = { λ x y h i. h.0 i ∷ h.1.0 i ∷ h.1.1 i ∷ [] };

    ghost item_width = { λ x. refl };

    ghost two_or_three = { inr refl };
}

impl Item for BtfParam {
    const WIDTH: usize = 2;

    ghost WIDTH = { 2 };

    ghost item_words = { param_words };

    fn words(&self) -> [u32; 3] {
        [self.name_offset, self.btf_type, 0]
    }

    fn from_words(words: [u32; 3]) -> Self {
        let [name_offset, btf_type, _] = words;
        Self {
            name_offset,
            btf_type,
        }
    }

    ghost same_item = { λ x y same i. record {
      name_offset = slice_index (same i) 0;
      btf_type = slice_index (same i) 1;
    } };

    ghost cloned_words = { λ x y h i. h.0 i ∷ h.1 i ∷ [] };

    ghost item_width = { λ x. refl };

    ghost two_or_three = { inl refl };
}

impl Item for DataSecEntry {
    const WIDTH: usize = 3;

    ghost WIDTH = { 3 };

    ghost item_words = { code_entry_words };

    fn words(&self) -> [u32; 3] {
        [self.btf_type, self.offset, self.size]
    }

    fn from_words(words: [u32; 3]) -> Self {
        let [btf_type, offset, size] = words;
        Self {
            btf_type,
            offset,
            size,
        }
    }

    ghost same_item = { λ x y same i. record {
      btf_type = slice_index (same i) 0;
      offset = slice_index (same i) 1;
      size = slice_index (same i) 2;
    } };

    ghost cloned_words = { λ x y h i. h.0 i ∷ h.1.0 i ∷ h.1.1 i ∷ [] };

    ghost item_width = { λ x. refl };

    ghost two_or_three = { inr refl };
}
