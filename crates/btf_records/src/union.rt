//! UNION: a union.

ghost use Rattle.std.specs.Prelude.{◌≡◌, ◌+◌, ◌*◌, ◌≤◌, ◌++◌, length, Some, Ok, vec_len, None, IfOk, OnOk};
ghost use Rattle.std.specs.Option.{option_copied};
ghost use Rattle.std.specs.List.{flat_map};
ghost use Rattle.btf_model.specs.Record as model;
ghost use Rattle.btf_model.specs.Record.{kind_of, vlen, member_bit_offset, member_bit_field_size};
ghost use Rattle.btf_model.specs.Made.{union};
ghost use Rattle.btf_model.specs.Spelling.{spell, IsWhole};
ghost use Rattle.btf_plain.specs.Error.{IsOrNoMemory, MeetsOrNoMemory};
ghost use Rattle.btf_plain.specs.Head.{ReadsTail};
ghost use Rattle.btf_plain.specs.Fallback.{fallback_of_option};
ghost use Rattle.btf_plain.specs.Items.{member_words};
ghost use Rattle.btf_records.specs.Parts.{union_with};

use btf_plain::{
    BtfError, BtfKind, BtfMember, Endianness, Enum64Fallback, Head, ItemList, MAX_VLEN,
    bit_field_size, bit_offset, push_array, push_items,
};
use std::alloc::{AllocError, Global};
use std::fmt;
use std::marker::Model;

/// The words and members of a union, and the ENUM64 that it replaces, if there is one. Most unions replace none, and
/// then the space for a fallback stores a few members. The words are in the enum, because they fill the space after its
/// tag. They are no `Head`: with a `Head` there, a copy of a `BtfType` would first clear one for each kind.
#[derive(Drop)]
enum Parts {
    Alone {
        name: u32,
        info: u32,
        size: u32,
        members: ItemList<BtfMember, 4>,
    },
    InsteadOf {
        name: u32,
        info: u32,
        size: u32,
        fallback: Enum64Fallback,
        members: Vec<BtfMember>,
    },
}

/// A union (the kernel's documentation, "BTF_KIND_UNION"). In contracts it is the record of its words, and its
/// fallback.
#[derive(Drop)]
pub struct Union {
    parts: Parts,
}

impl Parts {
    ghost use Rattle.std.specs.Prelude.{◌≡◌, Ok};
    ghost use Rattle.btf_records.specs.Parts.{head_of, parts_members, kept_of};

    /// These words, these members, and this fallback.
    fn new(head: Head, members: Vec<BtfMember>, fallback: Option<Enum64Fallback>) -> Self
        ensures head { head_of result ≡ head }
        ensures members { parts_members result ≡ members.items }
        ensures fallback { kept_of result ≡ fallback_of_option fallback }
    {
        let Head { name, info, third } = head;
        match fallback {
            Some(fallback) => Parts::InsteadOf {
                name,
                info,
                size: third,
                fallback,
                members,
            },
            None => Parts::Alone {
                name,
                info,
                size: third,
                members: ItemList::from_vec(members),
            },
        }
    }

    /// The string offset of the name.
    fn name(&self) -> u32
        ensures { result ≡ (head_of self.now).name }
    {
        match self {
            Parts::Alone { name, .. } | Parts::InsteadOf { name, .. } => *name,
        }
    }

    /// The info word.
    fn info(&self) -> u32
        ensures { result ≡ (head_of self.now).info }
    {
        match self {
            Parts::Alone { info, .. } | Parts::InsteadOf { info, .. } => *info,
        }
    }

    /// The size in bytes.
    fn size(&self) -> u32
        ensures { result ≡ (head_of self.now).third }
    {
        match self {
            Parts::Alone { size, .. } | Parts::InsteadOf { size, .. } => *size,
        }
    }

    /// A copy of the words, the members and the fallback.
    fn try_clone(&self) -> Result<Self, BtfError>
        ensures head { IsOrNoMemory head_of result (Ok (head_of self.now)) }
        ensures members { IsOrNoMemory (λ m. flat_map member_words (parts_members m)) result
            (Ok (flat_map member_words (parts_members self.now))) }
        ensures count { IsOrNoMemory (λ m. length (parts_members m)) result
            (Ok (length (parts_members self.now))) }
        ensures fallback { IsOrNoMemory kept_of result (Ok (kept_of self.now)) }
    {
        match self {
            Parts::Alone {
                name,
                info,
                size,
                members,
            } => Ok(Parts::Alone {
                name: *name,
                info: *info,
                size: *size,
                members: members.clone()?,
            }),
            Parts::InsteadOf {
                name,
                info,
                size,
                fallback,
                members,
            } => Ok(Parts::InsteadOf {
                name: *name,
                info: *info,
                size: *size,
                fallback: fallback.try_clone()?,
                members: members.clone()?,
            }),
        }
    }

    /// The words and the members, without the fallback.
    fn without_fallback(self) -> Self
        ensures head { head_of result ≡ head_of self }
        ensures members { parts_members result ≡ parts_members self }
        ensures fallback { kept_of result ≡ None }
    {
        match self {
            Parts::InsteadOf {
                name,
                info,
                size,
                members,
                ..
            } => Parts::Alone {
                name,
                info,
                size,
                members: ItemList::from_vec(members),
            },
            alone => alone,
        }
    }
}

impl Model for Union {
    ghost use Rattle.std.specs.Prelude.{◌≡◌, length, Some};
    ghost use Rattle.std.specs.List.{flat_map};
    ghost use Rattle.btf_model.specs.Record.{kind_of, vlen, Union as UnionKind};
    ghost use Rattle.btf_model.specs.Table.{UnionRecord};
    ghost use Rattle.btf_plain.specs.Items.{member_words};
    ghost use Rattle.btf_plain.specs.ItemList.{items_of};
    ghost use Rattle.btf_plain.specs.Head.{headed};
    ghost use Rattle.btf_records.specs.Parts.{head_of, parts_members, kept_of};

    ghost Value = { UnionRecord };

    ghost view = { λ a. record {
      words = headed (head_of a.parts) (flat_map member_words (parts_members a.parts));
      fallback = kept_of a.parts;
    } };

    ghost invariant = { λ a. (kind_of (head_of a.parts).info ≡ Some UnionKind)
        × (vlen (head_of a.parts).info ≡ length (parts_members a.parts)) };
}

impl Union {
    /// A union of `size` bytes with these members, and the ENUM64 that it replaces, if there is one. There are at most
    /// `MAX_VLEN` members.
    pub fn new(
        name_offset: u32,
        size: u32,
        members: Vec<BtfMember>,
        fallback: Option<Enum64Fallback>,
    ) -> Self
        requires { vec_len members ≤ MAX_VLEN }
        ensures { result ≡ union_with name_offset size (vec_len members) members.items fallback }
    {
        let head = Head {
            name: name_offset,
            info: (BtfKind::Union as u32) << 24 | members.len() as u32,
            third: size,
        };
        Self {
            parts: Parts::new(head, members, fallback),
        }
    }

    /// Reads the union with this head, whose members are at the front of bytes. Fails with `InvalidTypeInfo` if the
    /// bytes are too few.
    pub(crate) fn read(
        alloc: Global,
        head: Head,
        rest: &[u8],
        endianness: Endianness,
    ) -> Result<Self, BtfError>
        requires { kind_of head.info ≡ Some model.Union }
        ensures front { MeetsOrNoMemory (λ u. u.words) result
            (ReadsTail endianness head model.Union rest.now) }
        ensures alone { IfOk result (λ u. u.fallback ≡ None) }
    {
        let members = ItemList::read(alloc, rest, endianness, head.vlen())?;
        Ok(Self {
            parts: Parts::Alone {
                name: head.name,
                info: head.info,
                size: head.third,
                members,
            },
        })
    }

    /// Appends the record to bytes, in this byte order. The fallback is not written.
    pub(crate) fn append_to(
        &self,
        out: &mut Vec<u8>,
        endianness: Endianness,
    ) -> Result<(), AllocError>
        ensures written { OnOk result (out.new.items ≡ out.old.items
            ++ spell endianness self.now.words) }
        ensures whole { OnOk result (IsWhole self.now.words) }
    {
        let parts = &self.parts;
        push_array(out, endianness, &[parts.name(), parts.info(), parts.size()])?;
        push_items(out, endianness, self.members())
    }

    /// The kind of the record.
    pub fn kind(&self) -> BtfKind
        ensures { result ≡ BtfKind.Union }
    {
        BtfKind::Union
    }

    /// The string offset of the name.
    pub fn name_offset(&self) -> u32
        ensures value { result ≡ self.now.words.name }
        ensures kind { kind_of self.now.words.info ≡ Some model.Union }
    {
        self.parts.name()
    }

    /// The info word, whose kind is UNION and whose vlen is the number of members.
    pub fn info(&self) -> u32
        ensures value { result ≡ self.now.words.info }
        ensures kind { kind_of result ≡ Some model.Union }
        ensures tail { length self.now.words.tail ≡ 3 * vlen self.now.words.info }
    {
        self.parts.info()
    }

    /// The size in bytes.
    pub fn size(&self) -> u32
        ensures { result ≡ self.now.words.third }
    {
        self.parts.size()
    }

    /// The members, in order.
    pub fn members(&self) -> &[BtfMember]
        ensures words { self.now.words.tail ≡ flat_map member_words result.now }
        ensures count { vlen self.now.words.info ≡ length result.now }
    {
        match &self.parts {
            Parts::Alone { members, .. } => members.as_slice(),
            Parts::InsteadOf { members, .. } => members.as_slice(),
        }
    }

    /// The bit at which a member of this record begins.
    pub fn member_bit_offset(&self, member: &BtfMember) -> usize
        ensures { result ≡ member_bit_offset self.now.words.info member.now.offset }
    {
        bit_offset(self.info(), member)
    }

    /// The number of bits of a member of this record that is a bit-field, else 0.
    pub fn member_bit_field_size(&self, member: &BtfMember) -> usize
        ensures { result ≡ member_bit_field_size self.now.words.info member.now.offset }
    {
        bit_field_size(self.info(), member)
    }

    /// The ENUM64 that the union replaces, if there is one.
    pub fn enum64_fallback(&self) -> Option<&Enum64Fallback>
        ensures { self.now.fallback ≡ fallback_of_option (option_copied result) }
    {
        match &self.parts {
            Parts::Alone { .. } => None,
            Parts::InsteadOf { fallback, .. } => Some(fallback),
        }
    }

    /// The length of the record in bytes.
    pub fn type_info_size(&self) -> usize
        ensures len { result ≡ 12 + 4 * length self.now.words.tail }
        ensures kind { kind_of self.now.words.info ≡ Some model.Union }
    {
        let info = self.info();
        3 * size_of_val(&info) + 12 * self.members().len()
    }

    /// A copy of the record. `OutOfMemory` is the only error.
    #[inline(never)]
    pub fn try_clone(&self) -> Result<Self, BtfError>
        ensures { IsOrNoMemory (λ r. r) result (Ok self.now) }
    {
        Ok(Self {
            parts: self.parts.try_clone()?,
        })
    }

    /// The record, without its fallback.
    pub(crate) fn without_fallback(self) -> Self
        ensures { result ≡ record { words = self.words; fallback = None } }
    {
        Self {
            parts: self.parts.without_fallback(),
        }
    }
}

impl fmt::Debug for Union {
    fn fmt<W: fmt::Write>(&self, f: &mut fmt::Formatter<W>) -> fmt::Result {
        f.debug_struct("Union")
            .field("name_offset", &self.name_offset())
            .field("info", &self.info())
            .field("size", &self.size())
            .field("members", &self.members())
            .field("fallback", &self.enum64_fallback())
            .finish()
    }
}
