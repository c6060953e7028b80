//! A record of any kind.

ghost use Rattle.std.specs.Prelude.{◌≡◌, None};
ghost use Rattle.btf_model.specs.Record.{compared_kind};
ghost use Rattle.btf_plain.specs.Kind as kinds;
ghost use Rattle.btf_records.specs.BtfType.{record_of, fallback_of};

use crate::union::Union;
use btf_plain::{
    Array, BtfError, BtfKind, BtfMember, Const, DataSec, DeclTag, Endianness, Enum, Enum64, Float,
    Func, FuncProto, Fwd, Int, Ptr, Restrict, Struct, TypeTag, Typedef, Var, Volatile, push_array,
};
use std::alloc::AllocError;
use std::slice::Iter;

/// One type of a table (the kernel's documentation, "Type Encoding"). In contracts it is the record of its words, and
/// for a UNION also its fallback.
#[derive(Debug, Drop)]
pub enum BtfType {
    /// The type of id 0, and a record of kind 0.
    Unknown,
    /// An integer.
    Int(Int),
    /// A pointer.
    Ptr(Ptr),
    /// An array.
    Array(Array),
    /// A structure.
    Struct(Struct),
    /// A union.
    Union(Union),
    /// An enumeration of 32-bit values.
    Enum(Enum),
    /// A forward declaration.
    Fwd(Fwd),
    /// A name for a type.
    Typedef(Typedef),
    /// A volatile type.
    Volatile(Volatile),
    /// A constant type.
    Const(Const),
    /// A restricted pointer.
    Restrict(Restrict),
    /// A function.
    Func(Func),
    /// A function prototype.
    FuncProto(FuncProto),
    /// A variable.
    Var(Var),
    /// A data section.
    DataSec(DataSec),
    /// A floating-point number.
    Float(Float),
    /// A tag of a declaration.
    DeclTag(DeclTag),
    /// A tag of a type.
    TypeTag(TypeTag),
    /// An enumeration of 64-bit values.
    Enum64(Enum64),
}

/// A match over all kinds: each of the first has an expression of its own; Unknown and the last have another.
macro_rules! by_kind {
    ($of:expr, $other:expr; $($kind:ident($t:pat) => $e:expr),*; $($last:ident),*) => {
        match $of {
            BtfType::Unknown $(| BtfType::$last(_))* => $other,
            $(BtfType::$kind($t) => $e,)*
        }
    };
}

/// An expression over the record `t` of a type; `unknown` for Unknown, which has no record.
macro_rules! each {
    ($of:expr, $unknown:expr, $t:ident => $e:expr) => {
        each!(
            $of, $unknown, $t => $e;
            Int, Ptr, Array, Struct, Union, Enum, Fwd, Typedef, Volatile, Const, Restrict, Func, FuncProto, Var,
            DataSec, Float, DeclTag, TypeTag, Enum64
        )
    };
    ($of:expr, $unknown:expr, $t:ident => $e:expr; $($kind:ident),*) => {
        by_kind!($of, $unknown; $($kind($t) => $e),*;)
    };
}

/// The type of the same kind whose record is an expression over the record `t`.
macro_rules! with_record {
    ($of:expr, $t:ident => $e:expr) => {
        with_record!(
            $of, $t => $e;
            Int, Ptr, Array, Struct, Union, Enum, Fwd, Typedef, Volatile, Const, Restrict, Func, FuncProto, Var,
            DataSec, Float, DeclTag, TypeTag, Enum64
        )
    };
    ($of:expr, $t:ident => $e:expr; $($kind:ident),*) => {
        by_kind!($of, Ok(BtfType::Unknown); $($kind($t) => Ok(BtfType::$kind($e))),*;)
    };
}

/// An expression over the record `t` of a STRUCT or a UNION; None for the kinds without members.
macro_rules! of_composite {
    ($of:expr, $t:ident => $e:expr) => {
        by_kind!(
            $of, None;
            Struct($t) => Some($e), Union($t) => Some($e);
            Int, Ptr, Array, Enum, Fwd, Typedef, Volatile, Const, Restrict, Func, FuncProto, Var, DataSec, Float,
            DeclTag, TypeTag, Enum64
        )
    };
}

impl BtfType {
    ghost use Rattle.std.specs.Prelude.{◌≡◌, ◌+◌, ◌*◌, ◌++◌, ◌↔◌, length, Some, None, Ok, OnOk, IsTrue, ◌==◌};
    ghost use Rattle.std.specs.Prelude.{if◌then◌else◌, true};
    ghost use Rattle.std.specs.Option.{option_map};
    ghost use Rattle.std.specs.List.{flat_map};
    ghost use Rattle.std.specs.Slice.Iter.{iter_rest};
    ghost use Rattle.btf_plain.specs.Items.{member_words};
    ghost use Rattle.btf_model.specs.Record.{kind_of, vlen, tail_words, compared_kind, record_size, record_target, member_bit_offset, member_bit_field_size};
    ghost use Rattle.btf_model.specs.Record as model;
    ghost use Rattle.btf_model.specs.Spelling.{spell, IsWhole};
    ghost use Rattle.btf_plain.specs.Error.{IsOrNoMemory};
    ghost use Rattle.btf_plain.specs.Kind as kinds;
    ghost use Rattle.btf_records.specs.BtfType.{record_of, fallback_of, type_kind, of_composite, has_no_third};

    /// The kind of the record, which is the one in its info word.
    pub fn kind(&self) -> BtfKind
        ensures value { kinds.kind result ≡ type_kind self.now }
        ensures info { kind_of (record_of self.now).info ≡ Some (type_kind self.now) }
        ensures tail { length (record_of self.now).tail
            ≡ tail_words (type_kind self.now) (vlen (record_of self.now).info) }
    {
        // Only a use of the info word proves the other two clauses about it.
        let _ = self.info();
        each!(self, BtfKind::Unknown, t => t.kind())
    }

    /// The string offset of the name; 0 for Unknown.
    pub fn name_offset(&self) -> u32
        ensures value { result ≡ (record_of self.now).name }
        ensures kind { kind_of (record_of self.now).info ≡ Some (type_kind self.now) }
    {
        each!(self, 0, t => t.name_offset())
    }

    /// The info word; 0 for Unknown.
    pub fn info(&self) -> u32
        ensures value { result ≡ (record_of self.now).info }
        ensures kind { kind_of result ≡ Some (type_kind self.now) }
        ensures tail { length (record_of self.now).tail
            ≡ tail_words (type_kind self.now) (vlen result) }
        ensures no_third { has_no_third (type_kind self.now) ≡ true
            → (record_of self.now).third ≡ 0 }
    {
        each!(self, 0, t => t.info())
    }

    /// The size in bytes that the record itself gives, which is 8 for a pointer; None for the kinds without a size.
    pub fn size(&self) -> Option<u32>
        ensures { result ≡ record_size (type_kind self.now) (record_of self.now) }
    {
        by_kind!(
            self, None;
            Int(t) => Some(t.size()), Struct(t) => Some(t.size()), Union(t) => Some(t.size()),
            Enum(t) => Some(t.size()), DataSec(t) => Some(t.size()), Float(t) => Some(t.size()),
            Enum64(t) => Some(t.size()), Ptr(_) => Some(8);
            Array, Fwd, Typedef, Volatile, Const, Restrict, Func, FuncProto, Var, DeclTag, TypeTag
        )
    }

    /// The id of the one type that the record refers to, which is the return type for a prototype; None for the kinds
    /// that refer to no type or to many, and for a function.
    pub fn btf_type(&self) -> Option<u32>
        ensures { result ≡ record_target (type_kind self.now) (record_of self.now) }
    {
        by_kind!(
            self, None;
            Ptr(t) => Some(t.btf_type()), Typedef(t) => Some(t.btf_type()), Volatile(t) => Some(t.btf_type()),
            Const(t) => Some(t.btf_type()), Restrict(t) => Some(t.btf_type()), Var(t) => Some(t.btf_type()),
            DeclTag(t) => Some(t.btf_type()), TypeTag(t) => Some(t.btf_type()),
            FuncProto(t) => Some(t.return_type());
            Int, Array, Struct, Union, Enum, Fwd, Func, DataSec, Float, Enum64
        )
    }

    /// The length of the record in bytes.
    #[inline(always)]
    pub fn type_info_size(&self) -> usize
        ensures len { result ≡ 12 + 4 * length (record_of self.now).tail }
        ensures kind { kind_of (record_of self.now).info ≡ Some (type_kind self.now) }
    {
        each!(self, 12, t => t.type_info_size())
    }

    /// Whether the record is a STRUCT or a UNION.
    pub fn is_composite(&self) -> bool
        ensures { result ≡ model.is_composite (type_kind self.now) }
    {
        matches!(self, BtfType::Struct(_) | BtfType::Union(_))
    }

    /// Whether the kinds are equal, or one is ENUM and the other ENUM64.
    pub fn is_compatible(&self, other: &BtfType) -> bool
        ensures { IsTrue result ↔ (compared_kind (type_kind self.now) ≡ compared_kind
            (type_kind other.now)) }
    {
        kind_to_compare(self.kind()) == kind_to_compare(other.kind())
    }

    /// The members of a STRUCT or a UNION, in order; None for the other kinds.
    pub fn members(&self) -> Option<Iter<'_, BtfMember>>
        ensures { option_map (λ it. flat_map member_words (iter_rest it)) result
            ≡ of_composite self.now (record_of self.now).tail }
    {
        of_composite!(self, t => t.members().iter())
    }

    /// The bit at which a member of this STRUCT or UNION begins; None for the other kinds.
    pub fn member_bit_offset(&self, member: &BtfMember) -> Option<usize>
        ensures { result ≡ of_composite self.now
            (member_bit_offset (record_of self.now).info member.now.offset) }
    {
        of_composite!(self, t => t.member_bit_offset(member))
    }

    /// The number of bits of a member of this STRUCT or UNION that is a bit-field, else 0; None for the other kinds.
    pub fn member_bit_field_size(&self, member: &BtfMember) -> Option<usize>
        ensures { result ≡ of_composite self.now
            (member_bit_field_size (record_of self.now).info member.now.offset) }
    {
        of_composite!(self, t => t.member_bit_field_size(member))
    }

    /// A copy of the record and its fallback. `OutOfMemory` is the only error.
    // A function clears the places of all its results on entry: in a loop over types, once and not for each type.
    #[inline(always)]
    pub fn try_clone(&self) -> Result<Self, BtfError>
        ensures record { IsOrNoMemory record_of result (Ok (record_of self.now)) }
        ensures fallback { IsOrNoMemory fallback_of result (Ok (fallback_of self.now)) }
    {
        with_record!(self, t => t.try_clone()?)
    }

    /// Appends the record to bytes, in this byte order. Fails only if an allocation fails, and then some of the
    /// record's words may already be appended.
    pub fn append_to(&self, out: &mut Vec<u8>, order: Endianness) -> Result<(), AllocError>
        ensures written { OnOk result (out.new.items ≡ out.old.items
            ++ spell order (record_of self.now)) }
        // The written bytes are read as the record.
        ensures whole { OnOk result (IsWhole (record_of self.now)) }
    {
        each!(self, push_array(out, order, &[0, 0, 0]), t => t.append_to(out, order))
    }
}

/// The type without the ENUM64 that it replaces, for the crates that use this one.
pub fn without_fallback(btf_type: BtfType) -> BtfType
    ensures record { record_of result ≡ record_of btf_type }
    ensures fallback { fallback_of result ≡ None }
{
    match btf_type {
        BtfType::Union(union) => BtfType::Union(union.without_fallback()),
        other => other,
    }
}

/// ENUM for ENUM64, and each other kind itself.
fn kind_to_compare(kind: BtfKind) -> BtfKind
    ensures { kinds.kind result ≡ compared_kind (kinds.kind kind) }
{
    match kind {
        BtfKind::Enum64 => BtfKind::Enum,
        kind => kind,
    }
}
