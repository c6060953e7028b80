//! ENUM64: an enumeration of 64-bit values.

ghost use Rattle.std.specs.Prelude.{◌≡◌, ◌≤◌, length, vec_len, refl};
ghost use Rattle.std.specs.List.{flat_map};
ghost use Rattle.btf_model.specs.Record.{vlen};
ghost use Rattle.btf_model.specs.Made as made;
ghost use Rattle.btf_plain.specs.Items.{enum64_words};
ghost use Rattle.btf_plain.specs.declared.kind.BtfKind.TheVariants.{Enum64};

use crate::item_list::ItemList;
use crate::items::BtfEnum64;
use crate::kind::BtfKind;
use crate::list::MAX_VLEN;
use crate::record::{Enumerates, Kind, Measured, Record};

/// The kind ENUM64.
pub struct Enum64Kind;

impl Kind for Enum64Kind {
    type Tail = ItemList<BtfEnum64, 4>;

    const KIND: BtfKind = BtfKind::Enum64;

    ghost KIND = { Enum64 };

    ghost tail_number = { λ _. refl };

    ghost is_kept = { λ _. refl };
}

impl Measured for Enum64Kind {}

impl Enumerates for Enum64Kind {}

/// An enumeration of 64-bit values (the kernel's documentation, "BTF_KIND_ENUM64").
pub type Enum64 = Record<Enum64Kind>;

impl Record<Enum64Kind> {
    /// An enumeration of 8 bytes with these variants. There are at most `MAX_VLEN` of them.
    pub fn new(name_offset: u32, signed: bool, variants: Vec<BtfEnum64>) -> Self
        requires { vec_len variants ≤ MAX_VLEN }
        ensures { result ≡ made.with_sign signed (made.enum64 name_offset (vec_len variants)
            (flat_map enum64_words variants.items)) }
    {
        let items = ItemList::from_vec(variants);
        Self::listing(BtfKind::Enum64 as u32, name_offset, signed, 8, items)
    }

    /// The variants, in order.
    pub fn variants(&self) -> &[BtfEnum64]
        ensures words { self.now.tail ≡ flat_map enum64_words result.now }
        ensures count { vlen self.now.info ≡ length result.now }
    {
        self.items()
    }
}
