//! Types and their items in the form that C reads.

ghost use Rattle.std.specs.Prelude.{◌≡◌};
ghost use Rattle.btf_model.specs.Record.{Record};
ghost use Rattle.btf_view.specs.Forms as specs;
ghost use Rattle.btf_view.specs.Record.{HasHead};

use btf_plain::Head;

/// The first words of a type: its kind, its name, and its size or type.
#[repr(C)]
#[derive(Clone, Copy, Debug)]
pub struct TypeWords {
    /// The number of the kind, from 0 to 19.
    pub kind: u32,
    /// The string offset of the name.
    pub name_offset: u32,
    /// The info word.
    pub info: u32,
    /// The third word of the record: the size in bytes or the id of another type, by the kind; 0 for the kinds that
    /// have neither.
    pub size_or_type: u32,
}

/// A member of a STRUCT or UNION.
#[repr(C)]
#[derive(Clone, Copy, Debug)]
pub struct Member {
    /// The string offset of the name.
    pub name_offset: u32,
    /// The id of the type.
    pub btf_type: u32,
    /// The bit at which the member begins.
    pub bit_offset: u32,
    /// The number of bits of a bit-field; 0 for a member that is none.
    pub bit_field_size: u32,
}

/// A variant of an ENUM or ENUM64.
#[repr(C)]
#[derive(Clone, Copy, Debug)]
pub struct Variant {
    /// The string offset of the name.
    pub name_offset: u32,
    /// The number of bits of the value: 32 in an ENUM, 64 in an ENUM64.
    pub bits: u32,
    /// 1 if the values of the type are signed, otherwise 0.
    pub is_signed: u8,
    /// The value, zero-extended to 64 bits.
    pub value: u64,
}

/// A parameter of a FUNC_PROTO.
#[repr(C)]
#[derive(Clone, Copy, Debug)]
pub struct Param {
    /// The string offset of the name.
    pub name_offset: u32,
    /// The id of the type; 0 represents further arguments of any type.
    pub btf_type: u32,
}

/// An entry of a DATASEC.
#[repr(C)]
#[derive(Clone, Copy, Debug)]
pub struct Entry {
    /// The id of the VAR.
    pub btf_type: u32,
    /// The offset of the variable in the section, in bytes.
    pub offset: u32,
    /// Its size in bytes.
    pub size: u32,
}

/// The first words of the type with this head.
#[inline(always)]
pub(crate) fn type_words(head: &Head) -> TypeWords
    ensures { (r : Record) → HasHead head.now r → result ≡ specs.words_in r }
{
    TypeWords {
        kind: head.kind(),
        name_offset: head.name,
        info: head.info,
        size_or_type: head.third,
    }
}
