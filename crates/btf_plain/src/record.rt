//! A record: three words, and the words after them, whose form depends on the kind.

ghost use Rattle.std.specs.Prelude.{◌≡◌, ◌+◌, ◌*◌, ◌++◌, ◌↔◌, IsTrue, length, Some, Ok, OnOk};
ghost use Rattle.btf_model.specs.Record.{kind_of, kind_flag, vlen, tail_words};
ghost use Rattle.btf_model.specs.Spelling.{spell, IsWhole};
ghost use Rattle.btf_plain.specs.Error.{IsOrNoMemory, MeetsOrNoMemory};
ghost use Rattle.btf_plain.specs.Kind as kinds;
ghost use Rattle.btf_plain.specs.Third.{third_kept};

use crate::error::BtfError;
use crate::head::Head;
use crate::kind::BtfKind;
use crate::words::{Fixed, Words};
use btf_model::Endianness;
use std::alloc::{AllocError, Global};
use std::fmt;
use std::marker::{Model, PhantomData};

/// A kind of records: what differs between records of two kinds.
pub trait Kind {
    ghost use Rattle.std.specs.Prelude.{◌≡◌, ℕ};
    ghost use Rattle.btf_plain.specs.declared.kind.BtfKind.{BtfKind};
    ghost use Rattle.btf_plain.specs.Kind as kinds;
    ghost use Rattle.btf_model.specs.Record.{Record, tail_words};
    ghost use Rattle.btf_model.specs.Spelling.{kept};
    ghost use Rattle.btf_plain.specs.Third.{third_kept};

    /// The words after the third.
    type Tail: Words;

    /// The kind.
    const KIND: BtfKind;

    ghost KIND: { BtfKind };

    /// The number of words after the third, by vlen.
    ghost tail_number: { (n : ℕ) → tail_words (kinds.kind KIND) n ≡ Self.Tail.number n };

    /// What reading retains of a record.
    ghost is_kept: { (r : Record) → kept (kinds.kind KIND) r ≡ record r {
      third = third_kept (kinds.kind KIND) r.third;
      tail = Self.Tail.kept r.tail;
    } };
}

/// A kind whose third word is the id of a type.
pub trait Refers: Kind {}

/// A kind whose third word is a size in bytes.
pub trait Measured: Kind {}

/// A kind that lists values; its kind flag says whether they have a sign.
pub trait Enumerates: Kind {}

/// A record of a kind (the kernel's documentation, "Type Encoding"). In contracts it is the record of its words.
#[derive(Drop)]
pub struct Record<K: Kind> {
    pub(crate) head: Head,
    pub(crate) tail: K::Tail,
    /// Aligns the records of all kinds alike, so that their heads are at one place of an enum of records.
    pub(crate) aligned: [u64; 0],
    pub(crate) kind: PhantomData<K>,
}

impl<K: Kind> Model for Record<K> {
    ghost use Rattle.std.specs.Prelude.{◌≡◌, length, Some};
    ghost use Rattle.btf_model.specs.Record.{Record, kind_of, vlen, tail_words};
    ghost use Rattle.btf_plain.specs.Kind as kinds;
    ghost use Rattle.btf_plain.specs.Head.{headed};
    ghost use Rattle.btf_plain.specs.Third.{third_kept};

    ghost Value = { Record };

    ghost view = { λ a. headed a.head (K.Tail.words a.tail) };

    ghost invariant = { λ a. (kind_of a.head.info ≡ Some (kinds.kind K.KIND))
        × (length (K.Tail.words a.tail) ≡ tail_words (kinds.kind K.KIND) (vlen a.head.info))
        × (third_kept (kinds.kind K.KIND) a.head.third ≡ a.head.third) };
}

/// What reading retains of the third word of a record of this kind.
fn kept_third(kind: BtfKind, third: u32) -> u32
    ensures { result ≡ third_kept (kinds.kind kind) third }
{
    if matches!(kind, BtfKind::Fwd | BtfKind::Array) {
        0
    } else {
        third
    }
}

impl<K: Kind> Record<K> {
    ghost use Rattle.btf_plain.specs.Head.{ReadsTail};

    /// The record of these words.
    pub(crate) fn of(name: u32, info: u32, third: u32, tail: K::Tail) -> Self
        requires kind { kind_of info ≡ Some (kinds.kind K.KIND) }
        requires tail { length (K.Tail.words tail)
            ≡ tail_words (kinds.kind K.KIND) (vlen info) }
        requires third { third_kept (kinds.kind K.KIND) third ≡ third }
        ensures { result ≡ record {
          name = name;
          info = info;
          third = third;
          tail = K.Tail.words tail;
        } }
    {
        Self {
            head: Head { name, info, third },
            tail,
            aligned: [],
            kind: PhantomData,
        }
    }

    /// Reads the record with this head, whose other words are at the front of bytes. Fails with `InvalidTypeInfo` if
    /// the bytes are too few.
    pub fn read(
        alloc: Global,
        head: Head,
        rest: &[u8],
        endianness: Endianness,
    ) -> Result<Self, BtfError>
        requires { kind_of head.info ≡ Some (kinds.kind K.KIND) }
        ensures { MeetsOrNoMemory (λ r. r) result
            (ReadsTail endianness head (kinds.kind K.KIND) rest.now) }
    {
        let tail = K::Tail::read(alloc, rest, endianness, head.vlen())?;
        let third = kept_third(K::KIND, head.third);
        Ok(Self::of(head.name, head.info, third, tail))
    }

    /// Appends the record to bytes, in this byte order. Fails only if an allocation fails, and then some of the
    /// record's words may already be appended.
    pub fn append_to(&self, out: &mut Vec<u8>, endianness: Endianness) -> Result<(), AllocError>
        ensures written { OnOk result (out.new.items ≡ out.old.items
            ++ spell endianness self.now) }
        // The written bytes are read as the record.
        ensures whole { OnOk result (IsWhole self.now) }
    {
        self.tail.append_to(&self.head, out, endianness)
    }

    /// The kind of the record.
    pub fn kind(&self) -> BtfKind
        ensures { result ≡ K.KIND }
    {
        K::KIND
    }

    /// The string offset of the name.
    pub fn name_offset(&self) -> u32
        ensures value { result ≡ self.now.name }
        ensures kind { kind_of self.now.info ≡ Some (kinds.kind K.KIND) }
    {
        self.head.name
    }

    /// The info word: the kind, the kind flag, and vlen, which is the number of items for a kind that has a list.
    pub fn info(&self) -> u32
        ensures value { result ≡ self.now.info }
        ensures kind { kind_of result ≡ Some (kinds.kind K.KIND) }
        ensures tail { length self.now.tail ≡ tail_words (kinds.kind K.KIND) (vlen result) }
        ensures third { third_kept (kinds.kind K.KIND) self.now.third ≡ self.now.third }
    {
        self.head.info
    }

    /// The same record with this string offset of the name.
    pub fn with_name_offset(self, name_offset: u32) -> Self
        ensures { result ≡ record self { name = name_offset } }
    {
        let mut named = self;
        named.head.name = name_offset;
        named
    }

    /// Sets the string offset of the name, and changes nothing else.
    pub fn set_name_offset(&mut self, name_offset: u32)
        ensures { self.new ≡ record self.old { name = name_offset } }
    {
        self.head.name = name_offset;
    }

    /// The length of the record in bytes.
    pub fn type_info_size(&self) -> usize
        ensures len { result ≡ 12 + 4 * length self.now.tail }
        ensures kind { kind_of self.now.info ≡ Some (kinds.kind K.KIND) }
    {
        let head = &self.head;
        size_of_val(head) + 4 * K::Tail::number(head.vlen())
    }

    /// A copy of the record. `OutOfMemory` is the only error.
    pub fn try_clone(&self) -> Result<Self, BtfError>
        ensures { IsOrNoMemory (λ r. r) result (Ok self.now) }
    {
        let tail = self.tail.clone()?;
        // Word by word: with a copy of the whole head, cloning a `BtfType` clears a head for each kind on the stack.
        let head = Head {
            name: self.head.name,
            info: self.head.info,
            third: self.head.third,
        };
        Ok(Record {
            head,
            tail,
            aligned: [],
            kind: PhantomData,
        })
    }
}

impl<K: Kind> Record<K>
where
    K::Tail: Fixed,
{
    /// The same record with this info, which has the same kind.
    pub fn with_info(self, info: u32) -> Self
        requires { kind_of info ≡ Some (kinds.kind K.KIND) }
        ensures { result ≡ record self { info = info } }
    {
        let mut informed = self;
        informed.head.info = info;
        informed
    }
}

impl<K: Refers> Record<K> {
    /// The id of the type that the record refers to.
    pub fn btf_type(&self) -> u32
        ensures { result ≡ self.now.third }
    {
        self.head.third
    }
}

impl<K: Measured> Record<K> {
    /// The size in bytes.
    pub fn size(&self) -> u32
        ensures { result ≡ self.now.third }
    {
        self.head.third
    }
}

impl<K: Enumerates> Record<K> {
    /// Whether the values have a sign: the kind flag of info.
    pub fn is_signed(&self) -> bool
        ensures { IsTrue result ↔ (kind_flag self.now.info ≡ 1) }
    {
        self.head.info >> 31 == 1
    }
}

impl<K: Kind> Clone for Record<K>
where
    K::Tail: Fixed,
{
    ghost use Rattle.std.specs.Prelude.{◌≡◌, ⊤};

    ghost is_clone = { λ r s. s ≡ r };

    ghost is_infallible = { λ _. ⊤ };

    fn clone(&self) -> Result<Self, AllocError> {
        Ok(Record {
            head: self.head,
            tail: self.tail.clone()?,
            aligned: [],
            kind: PhantomData,
        })
    }
}

impl<K: Kind> fmt::Debug for Record<K> {
    fn fmt<W: fmt::Write>(&self, f: &mut fmt::Formatter<W>) -> fmt::Result {
        f.debug_struct("Record")
            .field("kind", &K::KIND)
            .field("name_offset", &self.head.name)
            .field("info", &self.head.info)
            .field("third", &self.head.third)
            .field("tail", &self.tail)
            .finish()
    }
}
