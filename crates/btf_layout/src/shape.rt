//! What a type gives for its alignment.

ghost use Rattle.std.specs.Prelude.{◌≡◌, ℕ, ◌<◌, map};
ghost use Rattle.btf_model.specs.Record.{Record, kind_of};
ghost use Rattle.btf_records.specs.BtfType.{record_of};
ghost use Rattle.btf_layout_model.specs.Alignment as model;
ghost use Rattle.btf_layout.specs.Shape.{layout_member, layout_members, shape_view, composite_view};

use btf_plain::{BtfMember, bit_field_size, bit_offset};
use btf_records::BtfType;

/// The size of a pointer in bytes, which is the largest alignment.
const POINTER_SIZE: u32 = 8;

/// What a type gives for its alignment.
#[derive(Clone, Copy, Drop)]
pub enum Shape {
    /// The alignment is this number of bytes.
    Fixed(u32),
    /// The alignment is the one of another type.
    SameAs(u32),
    /// The alignment follows from the members of a STRUCT or UNION of this size in bytes.
    Composed(u32),
    /// The kind or the size of the type gives no alignment.
    Unexpected,
}

/// A STRUCT or UNION: its size in bytes, its info word and its members.
#[derive(Clone, Copy, Drop)]
pub struct Composite<'a> {
    size: u32,
    info: u32,
    /// The members, in order.
    pub members: &'a [BtfMember],
}

/// What a type gives.
pub fn shape_at(btf_type: &BtfType) -> Shape
    ensures { (id : ℕ) → shape_view id (record_of btf_type.now) result
        ≡ model.shape id (kind_of (record_of btf_type.now).info) (record_of btf_type.now) }
{
    // Only a use of the kind proves that the info word has it.
    let _ = btf_type.kind();
    match btf_type {
        BtfType::Int(t) => by_size(t.size()),
        BtfType::Ptr(_) => Shape::Fixed(POINTER_SIZE),
        BtfType::Array(t) => Shape::SameAs(t.array().element_type),
        BtfType::Struct(t) => Shape::Composed(t.size()),
        BtfType::Union(t) => Shape::Composed(t.size()),
        BtfType::Enum(t) => by_size(t.size()),
        BtfType::Typedef(t) => Shape::SameAs(t.btf_type()),
        BtfType::Volatile(t) => Shape::SameAs(t.btf_type()),
        BtfType::Const(t) => Shape::SameAs(t.btf_type()),
        BtfType::Restrict(t) => Shape::SameAs(t.btf_type()),
        BtfType::Float(t) => by_size(t.size()),
        BtfType::TypeTag(t) => Shape::SameAs(t.btf_type()),
        BtfType::Enum64(t) => by_size(t.size()),
        BtfType::Unknown
        | BtfType::Fwd(_)
        | BtfType::Func(_)
        | BtfType::FuncProto(_)
        | BtfType::Var(_)
        | BtfType::DataSec(_)
        | BtfType::DeclTag(_) => Shape::Unexpected,
    }
}

/// The members of a STRUCT or UNION; none for a type of another kind.
fn members(btf_type: &BtfType) -> &[BtfMember]
    ensures { map (layout_member (record_of btf_type.now).info) result.now
        ≡ layout_members (record_of btf_type.now) }
{
    // Only a use of the kind proves that the info word has it.
    let _ = btf_type.kind();
    match btf_type {
        BtfType::Struct(t) => t.members(),
        BtfType::Union(t) => t.members(),
        _ => &[],
    }
}

/// What a number of this size gives.
fn by_size(size: u32) -> Shape
    ensures { (id : ℕ) → (r : Record) → shape_view id r result ≡ model.by_size id size }
{
    if size == 0 {
        Shape::Unexpected
    } else {
        Shape::Fixed(size.min(POINTER_SIZE))
    }
}

impl<'a> Composite<'a> {
    /// A STRUCT or UNION of this size.
    pub fn new(size: u32, btf_type: &'a BtfType) -> Self
        ensures { composite_view result
            ≡ model.Composed size (layout_members (record_of btf_type.now)) }
    {
        Composite {
            size,
            info: btf_type.info(),
            members: members(btf_type),
        }
    }

    /// Whether a member begins at a multiple of the alignment of its type, or is a bit-field.
    pub fn is_in_place(&self, member: &BtfMember, alignment: u32) -> bool
        requires { 0 < alignment }
        ensures { result ≡ model.is_in_place (layout_member self.now.info member.now) alignment }
    {
        bit_field_size(self.info, member) != 0
            || bit_offset(self.info, member) % (8 * alignment as usize) == 0
    }

    /// The alignment, if all members are in their places, by the largest of their alignments.
    pub fn composed(&self, largest: u32) -> u32
        requires { 0 < largest }
        ensures { result ≡ model.composed self.now.size largest }
    {
        if self.size % largest == 0 { largest } else { 1 }
    }
}
