//! STRUCT: a structure.

ghost use Rattle.std.specs.Prelude.{◌≡◌, ◌≤◌, length, vec_len, refl};
ghost use Rattle.std.specs.List.{flat_map};
ghost use Rattle.btf_model.specs.Record.{vlen, member_bit_offset, member_bit_field_size};
ghost use Rattle.btf_model.specs.Made as made;
ghost use Rattle.btf_plain.specs.Items.{member_words};
ghost use Rattle.btf_plain.specs.declared.kind.BtfKind.TheVariants.{Struct};

use crate::item_list::ItemList;
use crate::items::BtfMember;
use crate::kind::BtfKind;
use crate::list::MAX_VLEN;
use crate::record::{Kind, Measured, Record};

/// The kind STRUCT.
pub struct StructKind;

impl Kind for StructKind {
    type Tail = ItemList<BtfMember, 4>;

    const KIND: BtfKind = BtfKind::Struct;

    ghost KIND = { Struct };

    ghost tail_number = { λ _. refl };

    ghost is_kept = { λ _. refl };
}

impl Measured for StructKind {}

/// A structure (the kernel's documentation, "BTF_KIND_STRUCT").
pub type Struct = Record<StructKind>;

impl Record<StructKind> {
    /// A structure of `size` bytes with these members. There are at most `MAX_VLEN` of them.
    pub fn new(name_offset: u32, members: Vec<BtfMember>, size: u32) -> Self
        requires { vec_len members ≤ MAX_VLEN }
        ensures { result ≡ made.struct name_offset size (vec_len members)
            (flat_map member_words members.items) }
    {
        let items = ItemList::from_vec(members);
        Self::listing(BtfKind::Struct as u32, name_offset, false, size, items)
    }

    /// The members, in order.
    pub fn members(&self) -> &[BtfMember]
        ensures words { self.now.tail ≡ flat_map member_words result.now }
        ensures count { vlen self.now.info ≡ length result.now }
    {
        self.items()
    }

    /// The bit at which a member of this record begins.
    pub fn member_bit_offset(&self, member: &BtfMember) -> usize
        ensures { result ≡ member_bit_offset self.now.info member.now.offset }
    {
        bit_offset(self.head.info, member)
    }

    /// The number of bits of a member of this record that is a bit-field, else 0.
    pub fn member_bit_field_size(&self, member: &BtfMember) -> usize
        ensures { result ≡ member_bit_field_size self.now.info member.now.offset }
    {
        bit_field_size(self.head.info, member)
    }
}

/// The bit at which a member of a STRUCT or UNION with this info begins.
pub fn bit_offset(info: u32, member: &BtfMember) -> usize
    ensures { result ≡ member_bit_offset info member.now.offset }
{
    if info >> 31 == 1 {
        (member.offset & 0xff_ffff) as usize
    } else {
        member.offset as usize
    }
}

/// The number of bits of a member of a STRUCT or UNION with this info, if the member is a bit-field, else 0.
pub fn bit_field_size(info: u32, member: &BtfMember) -> usize
    ensures { result ≡ member_bit_field_size info member.now.offset }
{
    if info >> 31 == 1 {
        (member.offset >> 24) as usize
    } else {
        0
    }
}
