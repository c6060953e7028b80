//! The items of a record, in the form that C reads.

ghost use Rattle.std.specs.Prelude.{◌≡◌, ◌==◌, ◌*◌, ◌+◌, ◌^◌, if◌then◌else◌, refl};
ghost use Rattle.btf_model.specs.Record.{kind_flag, member_bit_field_size, member_bit_offset};
ghost use Rattle.btf_view.specs.Items.{entry_form, entry_forms, member_form, member_forms, param_form, param_forms, variant_form, variant_forms, wide_variant_forms};

use crate::forms::{Entry, Member, Param, Variant};
use btf_plain::{BtfEnum, BtfEnum64, BtfMember, BtfParam, DataSecEntry, Item};

/// An item of a record that has another form in C.
pub trait Listed: Item {
    ghost use Rattle.std.specs.Prelude.{◌≡◌, ◌++◌, ◌∷◌, [], ℕ, List};

    /// The form in C.
    type Form: Drop;

    /// The form of an item of a record with this info word.
    ghost form: { ℕ → Self → Self.Form };

    /// The forms of the items in the words after the head of a record with this info word.
    ghost forms_in: { ℕ → List ℕ → List Self.Form };

    /// The form in C of an item of a record with this info word.
    fn form(&self, info: u32) -> Self::Form
        ensures { result ≡ form info self.now };

    /// No words have no items.
    ghost no_form: { (info : ℕ) → forms_in info [] ≡ [] };

    /// Words that begin with those of an item have its form first.
    ghost next_form: { (info : ℕ) (item : Self) (rest : List ℕ)
        → forms_in info (Self.item_words item ++ rest) ≡ form info item ∷ forms_in info rest };
}

/// The bits of a member's offset word that are the size of a bit-field, in a record with this info word. They depend on
/// the record only, so a loop over its members computes them once.
#[inline(always)]
fn size_bits(info: u32) -> u32
    ensures { result ≡ (if kind_flag info == 1 then 0xff00_0000 else 0) }
{
    if info >> 31 == 1 { 0xff00_0000 } else { 0 }
}

/// The bit at which a member with this offset word begins, in a record with this info word.
#[inline(always)]
fn bit_offset(info: u32, offset: u32) -> u32
    ensures { result ≡ member_bit_offset info offset }
{
    offset & !size_bits(info)
}

/// The number of bits of a member with this offset word, in a record with this info word; 0 if it is no bit-field.
#[inline(always)]
fn bit_field_size(info: u32, offset: u32) -> u32
    ensures { result ≡ member_bit_field_size info offset }
{
    (offset & size_bits(info)) >> 24
}

impl Listed for BtfMember {
    type Form = Member;

    ghost form = { λ info m. member_form info m.name_offset m.btf_type m.offset };

    ghost forms_in = { member_forms };

    fn form(&self, info: u32) -> Member {
        Member {
            name_offset: self.name_offset,
            btf_type: self.btf_type,
            bit_offset: bit_offset(info, self.offset),
            bit_field_size: bit_field_size(info, self.offset),
        }
    }

    ghost no_form = { λ info. refl };

    ghost next_form = { λ info item rest. refl };
}

impl Listed for BtfEnum {
    type Form = Variant;

    ghost form = { λ info v. variant_form info 32 v.name_offset v.value };

    ghost forms_in = { variant_forms };

    fn form(&self, info: u32) -> Variant {
        Variant {
            name_offset: self.name_offset,
            bits: 32,
            is_signed: (info >> 31) as u8,
            value: self.value as u64,
        }
    }

    ghost no_form = { λ info. refl };

    ghost next_form = { λ info item rest. refl };
}

impl Listed for BtfEnum64 {
    type Form = Variant;

    ghost form = { λ info v. variant_form info 64 v.name_offset
        (v.value_high * 2 ^ 32 + v.value_low) };

    ghost forms_in = { wide_variant_forms };

    fn form(&self, info: u32) -> Variant {
        Variant {
            name_offset: self.name_offset,
            bits: 64,
            is_signed: (info >> 31) as u8,
            value: self.value_high as u64 * 0x1_0000_0000 + self.value_low as u64,
        }
    }

    ghost no_form = { λ info. refl };

    ghost next_form = { λ info item rest. refl };
}

impl Listed for BtfParam {
    type Form = Param;

    ghost form = { λ info p. param_form p.name_offset p.btf_type };

    ghost forms_in = { λ info words. param_forms words };

    fn form(&self, _: u32) -> Param {
        Param {
            name_offset: self.name_offset,
            btf_type: self.btf_type,
        }
    }

    ghost no_form = { λ info. refl };

    ghost next_form = { λ info item rest. refl };
}

impl Listed for DataSecEntry {
    type Form = Entry;

    ghost form = { λ info e. entry_form e.btf_type e.offset e.size };

    ghost forms_in = { λ info words. entry_forms words };

    fn form(&self, _: u32) -> Entry {
        Entry {
            btf_type: self.btf_type,
            offset: self.offset,
            size: self.size,
        }
    }

    ghost no_form = { λ info. refl };

    ghost next_form = { λ info item rest. refl };
}
