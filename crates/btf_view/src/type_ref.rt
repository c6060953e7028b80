//! A type of a table, whatever holds the table.

ghost use Rattle.std.specs.Prelude.{◌≡◌, ◌<◌, ◌^◌, IfSome, Some, length, slice_get};
ghost use Rattle.std.specs.List.{flat_map};
ghost use Rattle.std.specs.Option.{option_map};
ghost use Rattle.btf_model.specs.Record as model;
ghost use Rattle.btf_model.specs.Record.{kind_of};
ghost use Rattle.btf_plain.specs.Kind as kinds;
ghost use Rattle.btf_records.specs.BtfType.{record_of};
ghost use Rattle.btf_view.specs.TypeRef.{item_at, record_in};

use crate::record_words::RecordWords;
use btf_plain::{BtfKind, Item};
use btf_records::BtfType;

/// A type of a table: one that was parsed, or its record in the bytes of a view.
#[derive(Clone, Copy)]
pub enum TypeRef<'a> {
    /// A type that was parsed.
    Parsed(&'a BtfType),
    /// The words of a record.
    Viewed(RecordWords<'a>),
}

impl<'a> TypeRef<'a> {
    /// The kind.
    #[inline(always)]
    pub fn kind(&self) -> BtfKind
        ensures info { kind_of (record_in self.now).info ≡ Some (kinds.kind result) }
        ensures tail { length (record_in self.now).tail
            ≡ model.tail_words (kinds.kind result) (model.vlen (record_in self.now).info) }
    {
        match self {
            TypeRef::Parsed(btf_type) => btf_type.kind(),
            TypeRef::Viewed(words) => words.kind(),
        }
    }

    /// The string offset of the name.
    #[inline(always)]
    pub fn name_offset(&self) -> u32
        ensures { result ≡ (record_in self.now).name }
    {
        match self {
            TypeRef::Parsed(btf_type) => btf_type.name_offset(),
            TypeRef::Viewed(words) => words.head().name,
        }
    }

    /// The info word.
    #[inline(always)]
    pub fn info(&self) -> u32
        ensures { result ≡ (record_in self.now).info }
    {
        match self {
            TypeRef::Parsed(btf_type) => btf_type.info(),
            TypeRef::Viewed(words) => words.head().info,
        }
    }

    /// The number of items, for the kinds that have a list.
    #[inline(always)]
    pub fn vlen(&self) -> usize
        ensures value { result ≡ model.vlen (record_in self.now).info }
        ensures small { result < 2 ^ 16 }
    {
        (self.info() & 0xffff) as usize
    }

    /// The third word: a size in bytes or the id of a type, by the kind; 0 for the kinds that have neither.
    #[inline(always)]
    pub fn third(&self) -> u32
        ensures { result ≡ (record_in self.now).third }
    {
        match self {
            TypeRef::Parsed(btf_type) => third_of(btf_type),
            TypeRef::Viewed(words) => words.head().third,
        }
    }

    /// The word at an index of those after the third.
    pub fn word(&self, index: usize) -> Option<u32>
        ensures { result ≡ slice_get (record_in self.now).tail index }
    {
        match self {
            TypeRef::Parsed(btf_type) => word_of(btf_type, index),
            TypeRef::Viewed(words) => words.word(index),
        }
    }

    /// The item at an index, in a record whose words after the third are items of this type. The index is that of an
    /// item in a record, so it has 16 bits.
    pub fn item<T: Item>(&self, index: u16) -> Option<T>
        ensures { option_map T.item_words result ≡ item_at T.WIDTH (record_in self.now).tail index }
    {
        let first = T::WIDTH * index as usize;
        let Some(one) = self.word(first) else {
            return None;
        };
        let Some(two) = self.word(first + 1) else {
            return None;
        };
        if T::WIDTH == 2 {
            return Some(T::from_words([one, two, 0]));
        }
        match self.word(first + 2) {
            Some(three) => Some(T::from_words([one, two, three])),
            None => None,
        }
    }
}

/// The third word of a type's record.
pub(crate) fn third_of(btf_type: &BtfType) -> u32
    ensures { result ≡ (record_of btf_type.now).third }
{
    // Only a use of the info word proves that an ARRAY and a FWD have no third word.
    let _ = btf_type.info();
    match btf_type {
        BtfType::Unknown | BtfType::Array(_) | BtfType::Fwd(_) => 0,
        BtfType::Int(t) => t.size(),
        BtfType::Ptr(t) => t.btf_type(),
        BtfType::Struct(t) => t.size(),
        BtfType::Union(t) => t.size(),
        BtfType::Enum(t) => t.size(),
        BtfType::Typedef(t) => t.btf_type(),
        BtfType::Volatile(t) => t.btf_type(),
        BtfType::Const(t) => t.btf_type(),
        BtfType::Restrict(t) => t.btf_type(),
        BtfType::Func(t) => t.btf_type(),
        BtfType::FuncProto(t) => t.return_type(),
        BtfType::Var(t) => t.btf_type(),
        BtfType::DataSec(t) => t.size(),
        BtfType::Float(t) => t.size(),
        BtfType::DeclTag(t) => t.btf_type(),
        BtfType::TypeTag(t) => t.btf_type(),
        BtfType::Enum64(t) => t.size(),
    }
}

/// The word at an index of those after the third of a type's record.
fn word_of(btf_type: &BtfType, index: usize) -> Option<u32>
    ensures { result ≡ slice_get (record_of btf_type.now).tail index }
{
    // Only a use of the info word proves that the other kinds have no words.
    let _ = btf_type.info();
    match btf_type {
        BtfType::Int(t) => [t.word()].get(index).copied(),
        BtfType::Array(t) => {
            let array = t.array();
            [array.element_type, array.index_type, array.len]
                .get(index)
                .copied()
        }
        BtfType::Struct(t) => word_in(t.members(), index),
        BtfType::Union(t) => word_in(t.members(), index),
        BtfType::Enum(t) => word_in(t.variants(), index),
        BtfType::FuncProto(t) => word_in(t.params(), index),
        BtfType::Var(t) => [t.linkage() as u32].get(index).copied(),
        BtfType::DataSec(t) => word_in(t.entries(), index),
        BtfType::DeclTag(t) => [t.component_index().cast_unsigned()].get(index).copied(),
        BtfType::Enum64(t) => word_in(t.variants(), index),
        _ => None,
    }
}

/// The word at an index of the words of items.
fn word_in<T: Item>(items: &[T], index: usize) -> Option<u32>
    ensures { result ≡ slice_get (flat_map T.item_words items.now) index }
{
    match items.get(index / T::WIDTH) {
        Some(item) => Some(item.words()[index % T::WIDTH]),
        None => None,
    }
}
