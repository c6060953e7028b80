//! ENUM: an enumeration of 32-bit values.

ghost use Rattle.std.specs.Prelude.{◌≡◌, ◌≤◌, length, vec_len, refl};
ghost use Rattle.std.specs.List.{flat_map};
ghost use Rattle.btf_model.specs.Record.{vlen};
ghost use Rattle.btf_model.specs.Info.{with_flag};
ghost use Rattle.btf_model.specs.Made as made;
ghost use Rattle.btf_plain.specs.Items.{enum_words};
ghost use Rattle.btf_plain.specs.declared.kind.BtfKind.TheVariants.{Enum};

use crate::item_list::ItemList;
use crate::items::BtfEnum;
use crate::kind::BtfKind;
use crate::list::{MAX_VLEN, flag_word};
use crate::record::{Enumerates, Kind, Measured, Record};

/// The kind ENUM.
pub struct EnumKind;

impl Kind for EnumKind {
    type Tail = ItemList<BtfEnum, 6>;

    const KIND: BtfKind = BtfKind::Enum;

    ghost KIND = { Enum };

    ghost tail_number = { λ _. refl };

    ghost is_kept = { λ _. refl };
}

impl Measured for EnumKind {}

impl Enumerates for EnumKind {}

/// An enumeration of 32-bit values (the kernel's documentation, "BTF_KIND_ENUM").
pub type Enum = Record<EnumKind>;

impl Record<EnumKind> {
    /// An enumeration of 4 bytes with these variants. There are at most `MAX_VLEN` of them.
    pub fn new(name_offset: u32, signed: bool, variants: Vec<BtfEnum>) -> Self
        requires { vec_len variants ≤ MAX_VLEN }
        ensures { result ≡ made.with_sign signed (made.enum name_offset (vec_len variants)
            (flat_map enum_words variants.items)) }
    {
        let items = ItemList::from_vec(variants);
        Self::listing(BtfKind::Enum as u32, name_offset, signed, 4, items)
    }

    /// The variants, in order.
    pub fn variants(&self) -> &[BtfEnum]
        ensures words { self.now.tail ≡ flat_map enum_words result.now }
        ensures count { vlen self.now.info ≡ length result.now }
    {
        self.items()
    }

    /// Sets whether the values have a sign, and changes nothing else.
    pub fn set_signed(&mut self, signed: bool)
        ensures { self.new ≡ record self.old { info = with_flag self.old.info signed } }
    {
        self.head.info = self.head.info & 0x7fff_ffff | flag_word(signed);
    }
}
