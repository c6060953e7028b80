//! The parts of a type that its kind has.

ghost use Rattle.std.specs.Prelude.{◌≡◌, ◌<◌, ◌^◌, IfSome, length, map, slice_get, slice_index};
ghost use Rattle.std.specs.Option.{option_map};
ghost use Rattle.btf_model.specs.Fields.{int_offset};
ghost use Rattle.btf_model.specs.Record as model;
ghost use Rattle.btf_plain.specs.Kind as kinds;
ghost use Rattle.btf_records.specs.BtfType.{record_of};
ghost use Rattle.btf_relocate_model.specs.Field.{members_of};
ghost use Rattle.btf_relocate.specs.Members.{IsArrayOf, member_of, members_held, parameters_of};
ghost use Rattle.btf_view.specs.TypeRef.{record_in};

use btf_plain::{BtfArray, BtfKind, BtfMember, BtfParam};
use btf_records::BtfType;
use btf_view::TypeRef;

/// The word at an index of those after the third; 0 if there is none.
pub fn word_at(btf_type: &TypeRef<'_>, index: usize) -> u32
    ensures { result ≡ slice_index (record_in btf_type.now).tail index }
{
    btf_type.word(index).unwrap_or(0)
}

/// The words of an ARRAY; `None` for a type of another kind.
#[inline(always)]
pub fn array_of(btf_type: &TypeRef<'_>) -> Option<BtfArray>
    ensures { IsArrayOf (record_in btf_type.now) result }
{
    match btf_type {
        TypeRef::Parsed(parsed) => parsed_array(parsed),
        TypeRef::Viewed(_) => array_by_words(*btf_type),
    }
}

/// The same of a type that was parsed.
fn parsed_array(btf_type: &BtfType) -> Option<BtfArray>
    ensures { IsArrayOf (record_of btf_type.now) result }
{
    // Only a use of the kind proves that the info word has it.
    let _ = btf_type.kind();
    match btf_type {
        BtfType::Array(t) => {
            let array = t.array();
            Some(BtfArray {
                element_type: array.element_type,
                index_type: array.index_type,
                len: array.len,
            })
        }
        _ => None,
    }
}

/// The same, word by word. It takes a copy of the type, so that one that was parsed stays in registers.
fn array_by_words(btf_type: TypeRef<'_>) -> Option<BtfArray>
    ensures { IsArrayOf (record_in btf_type.entry) result }
{
    match btf_type.kind() {
        BtfKind::Array => Some(BtfArray {
            element_type: word_at(&btf_type, 0),
            index_type: word_at(&btf_type, 1),
            len: word_at(&btf_type, 2),
        }),
        _ => None,
    }
}

/// The number of members of a STRUCT or UNION; 0 for a type of another kind.
#[inline(always)]
fn member_count(btf_type: &TypeRef<'_>) -> usize
    ensures value { result ≡ length (members_of (record_in btf_type.now)) }
    ensures small { result < 2 ^ 16 }
{
    if is_composite(btf_type.kind()) {
        btf_type.vlen()
    } else {
        0
    }
}

/// The members of a STRUCT or UNION, whatever holds its table.
#[derive(Clone, Copy)]
pub enum Members<'t> {
    /// Those of a type that was parsed.
    Parsed(&'t [BtfMember]),
    /// Those of a type in the bytes of a view.
    Viewed(TypeRef<'t>),
}

impl<'t> Members<'t> {
    ghost use Rattle.std.specs.Prelude.{◌≡◌, ◌<◌, IfSome, length, slice_get};
    ghost use Rattle.std.specs.Option.{option_map};
    ghost use Rattle.btf_relocate_model.specs.Field.{members_of};
    ghost use Rattle.btf_relocate.specs.Members.{member_of, members_held};
    ghost use Rattle.btf_view.specs.TypeRef.{record_in};

    /// The members of a type; none for a type that is no STRUCT or UNION.
    #[inline(always)]
    pub fn of(btf_type: &TypeRef<'t>) -> Members<'t>
        ensures { members_held result ≡ members_of (record_in btf_type.now) }
    {
        match btf_type {
            TypeRef::Parsed(parsed) => Members::Parsed(parsed_members(parsed)),
            TypeRef::Viewed(_) => Members::Viewed(*btf_type),
        }
    }

    /// Their number.
    #[inline(always)]
    pub fn len(&self) -> usize
        ensures { result ≡ length (members_held self.now) }
    {
        match self {
            Members::Parsed(members) => members.len(),
            Members::Viewed(btf_type) => member_count(btf_type),
        }
    }

    /// The member at an index; `None` if there is none.
    #[inline(always)]
    pub fn get(&self, index: usize) -> Option<BtfMember>
        ensures member { option_map member_of result ≡ slice_get (members_held self.now) index }
        ensures small { IfSome result (λ _. index < usize.MAX) }
    {
        match self {
            Members::Parsed(members) => match members.get(index) {
                Some(member) => Some(BtfMember {
                    name_offset: member.name_offset,
                    btf_type: member.btf_type,
                    offset: member.offset,
                }),
                None => None,
            },
            Members::Viewed(btf_type) => viewed_member(*btf_type, index),
        }
    }
}

/// The members of a STRUCT or UNION that was parsed; none for a type of another kind.
#[inline(always)]
fn parsed_members(btf_type: &BtfType) -> &[BtfMember]
    ensures { map member_of result.now ≡ members_of (record_of btf_type.now) }
{
    // Only a use of the kind proves that the info word has it.
    let _ = btf_type.kind();
    match btf_type {
        BtfType::Struct(t) => t.members(),
        BtfType::Union(t) => t.members(),
        _ => &[],
    }
}

/// The member at an index of a STRUCT or UNION in the bytes of a view. It takes a copy of the type, so that one that was
/// parsed stays in registers.
#[inline(never)]
fn viewed_member(btf_type: TypeRef<'_>, index: usize) -> Option<BtfMember>
    ensures member { option_map member_of result
        ≡ slice_get (members_of (record_in btf_type.entry)) index }
    ensures small { IfSome result (λ _. index < 2 ^ 16) }
{
    if index >= member_count(&btf_type) {
        return None;
    }
    btf_type.item(index as u16)
}

/// The number of parameters of a FUNC_PROTO; 0 for a type of another kind.
pub fn parameter_count(btf_type: &TypeRef<'_>) -> usize
    ensures value { result ≡ length (parameters_of (record_in btf_type.now)) }
    ensures small { result < 2 ^ 16 }
{
    match btf_type.kind() {
        BtfKind::FuncProto => btf_type.vlen(),
        _ => 0,
    }
}

/// The id of the type of the parameter at an index of a FUNC_PROTO; `None` if the type has none there.
pub fn parameter_at(btf_type: &TypeRef<'_>, index: usize) -> Option<u32>
    ensures parameter { result ≡ slice_get (parameters_of (record_in btf_type.now)) index }
    ensures small { IfSome result (λ _. index < usize.MAX) }
{
    match btf_type {
        TypeRef::Parsed(parsed) => parsed_parameter(parsed, index),
        TypeRef::Viewed(_) => viewed_parameter(btf_type, index),
    }
}

/// The same of a type that was parsed.
#[inline(always)]
fn parsed_parameter(btf_type: &BtfType, index: usize) -> Option<u32>
    ensures parameter { result ≡ slice_get (parameters_of (record_of btf_type.now)) index }
    ensures small { IfSome result (λ _. index < usize.MAX) }
{
    // Only a use of the kind proves that the info word has it.
    let _ = btf_type.kind();
    let BtfType::FuncProto(t) = btf_type else {
        return None;
    };
    match t.params().get(index) {
        Some(parameter) => Some(parameter.btf_type),
        None => None,
    }
}

/// The same by the words of the type.
#[inline(never)]
fn viewed_parameter(btf_type: &TypeRef<'_>, index: usize) -> Option<u32>
    ensures parameter { result ≡ slice_get (parameters_of (record_in btf_type.now)) index }
    ensures small { IfSome result (λ _. index < 2 ^ 16) }
{
    if index >= parameter_count(btf_type) {
        return None;
    }
    match btf_type.item::<BtfParam>(index as u16) {
        Some(parameter) => Some(parameter.btf_type),
        None => None,
    }
}

/// Whether a kind is STRUCT or UNION.
#[inline(always)]
pub fn is_composite(kind: BtfKind) -> bool
    ensures { result ≡ model.is_composite (kinds.kind kind) }
{
    matches!(kind, BtfKind::Struct | BtfKind::Union)
}

/// The word of an INT after the third.
#[inline(always)]
pub fn int_word(btf_type: &TypeRef<'_>) -> u32
    ensures { result ≡ slice_index (record_in btf_type.now).tail 0 }
{
    match btf_type {
        TypeRef::Parsed(BtfType::Int(t)) => t.word(),
        _ => word_at(btf_type, 0),
    }
}

/// The bit at which an INT begins.
#[inline(always)]
pub fn int_offset(btf_type: &TypeRef<'_>) -> u32
    ensures { result ≡ int_offset (record_in btf_type.now) }
{
    int_word(btf_type) / 0x1_0000 % 0x100
}
