//! Structures and unions, and the positions of their members.

use btf_plain::{BtfError, BtfMember, bit_field_size, bit_offset};
use btf_records::BtfType;
use btf_table::Btf;

/// A structure or a union.
#[derive(Clone, Copy)]
pub struct Group<'a> {
    /// The info word, whose highest bit says whether members can be bit-fields.
    info: u32,
    /// Whether it is a union, whose members overlap.
    pub is_union: bool,
    /// The size in bytes.
    pub size: u32,
    /// The members.
    pub members: &'a [BtfMember],
}

/// The position of a member in its structure.
#[derive(Clone, Copy)]
pub struct Place {
    /// The first byte of the member; for a bit-field, the first byte of the integer that contains its bits.
    pub byte: u64,
    /// The first bit of the member.
    pub bit: u64,
    /// The number of bits of a bit-field; 0 for another member.
    pub bits: u64,
    /// The size of the member's type in bytes.
    pub size: u64,
    /// Whether an array without elements is a flexible array here: the member is the last one, and not the first, as
    /// the array that `DECLARE_FLEX_ARRAY` puts behind an empty structure.
    pub is_flexible: bool,
}

impl<'a> Group<'a> {
    /// The structure or union of a type; None for a type of another kind.
    pub fn of(btf_type: &'a BtfType) -> Option<Group<'a>> {
        match btf_type {
            BtfType::Struct(t) => Some(Group {
                info: t.info(),
                is_union: false,
                size: t.size(),
                members: t.members(),
            }),
            BtfType::Union(t) => Some(Group {
                info: t.info(),
                is_union: true,
                size: t.size(),
                members: t.members(),
            }),
            _ => None,
        }
    }

    /// The number of bits.
    pub fn bits(&self) -> u64 {
        u64::from(self.size) * 8
    }

    /// The first bit of a member.
    pub fn bit_offset(&self, member: &BtfMember) -> u64 {
        bit_offset(self.info, member) as u64
    }

    /// The number of bits of a bit-field; 0 for another member.
    pub fn bit_field_size(&self, member: &BtfMember) -> u64 {
        bit_field_size(self.info, member) as u64
    }

    /// The position of the member of this index. The integer of a bit-field begins at a multiple of its own size. The
    /// errors are those of `Btf::type_size`.
    pub fn place(&self, table: &Btf, index: usize, member: &BtfMember) -> Result<Place, BtfError> {
        let size = table.type_size(member.btf_type)? as u64;
        let (bit, bits) = (self.bit_offset(member), self.bit_field_size(member));
        let past = if bits > 0 && size > 0 {
            bit / 8 % size
        } else {
            0
        };
        Ok(Place {
            byte: bit / 8 - past,
            bit,
            bits,
            size,
            is_flexible: (bit > 0 || index > 0 && !self.is_union)
                && index.saturating_add(1) == self.members.len(),
        })
    }
}
