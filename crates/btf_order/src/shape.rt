//! The types that a type refers to, in the order of the walk, and whether it is declared.

ghost use Rattle.std.specs.Prelude.{◌≡◌, ◌≤◌, ◌<◌, if◌then◌else◌, slice_get, map, length, true, false, Bool, IsTrue, [], ◌∷◌};
ghost use Rattle.btf_model.specs.Record.{kind_of};
ghost use Rattle.btf_records.specs.BtfType.{record_of};
ghost use Rattle.btf_order_model.specs.Order.{value_types, is_declared_by, may_be_declared_by};
ghost use Rattle.btf_order_model.specs.Uses.{uses_by, uses_of};
ghost use Rattle.std.specs.Option.{option_map};
ghost use Rattle.btf_order.specs.Shape.{ChildIs, CountsAs, IsShape, IsPassing, member_type, param_type, use_of, last_index};

use btf_plain::{BtfMember, BtfParam};
use btf_records::BtfType;

/// A type to which the walk comes, and whether a pointer to it is enough.
#[derive(Clone, Copy, Drop)]
pub struct Node {
    /// The id of the type.
    pub id: u32,
    /// Whether the walk comes through a pointer.
    pub through_pointer: bool,
}

/// How the result of a type follows from the results of the types that it refers to.
#[derive(Clone, Copy, Drop)]
pub enum Shape {
    /// An INT, a FLOAT, or a type that no declaration uses: weak, but strong when the walk comes back.
    Plain,
    /// A PTR, an ARRAY or a modifier: the result of the one type.
    Passes,
    /// A STRUCT, UNION, ENUM, ENUM64, FWD: strong.
    Defines,
    /// A TYPEDEF: strong if the type that it is for is strong, or if the walk comes through no pointer.
    Names,
    /// A FUNC_PROTO: strong if one of its types is strong.
    Prototype,
}

/// The shape of a type.
pub fn shape_of(btf_type: &BtfType) -> Shape
    ensures { IsShape (record_of btf_type.now) result }
{
    // Only a use of the kind proves that the info word has it.
    let _ = btf_type.kind();
    match btf_type {
        BtfType::Ptr(_)
        | BtfType::Array(_)
        | BtfType::Volatile(_)
        | BtfType::Const(_)
        | BtfType::Restrict(_)
        | BtfType::TypeTag(_) => Shape::Passes,
        BtfType::Struct(_)
        | BtfType::Union(_)
        | BtfType::Enum(_)
        | BtfType::Enum64(_)
        | BtfType::Fwd(_) => Shape::Defines,
        BtfType::Typedef(_) => Shape::Names,
        BtfType::FuncProto(_) => Shape::Prototype,
        BtfType::Unknown
        | BtfType::Int(_)
        | BtfType::Float(_)
        | BtfType::Func(_)
        | BtfType::Var(_)
        | BtfType::DataSec(_)
        | BtfType::DeclTag(_) => Shape::Plain,
    }
}

/// The type to which a type refers at an index, if there is one.
pub fn child_of(btf_type: &BtfType, through_pointer: bool, index: usize) -> Option<Node>
    ensures child { ChildIs (value_types (record_of btf_type.now)) through_pointer index result }
    ensures uses { option_map use_of result ≡ slice_get (uses_by
        (kind_of (record_of btf_type.now).info) (record_of btf_type.now) through_pointer) index }
{
    // Only a use of the kind proves that the info word has it.
    let _ = btf_type.kind();
    match btf_type {
        BtfType::Ptr(t) => single(t.btf_type(), true, index),
        BtfType::Array(t) => single(t.array().element_type, false, index),
        BtfType::Struct(t) => member_at(t.members(), index),
        BtfType::Union(t) => member_at(t.members(), index),
        BtfType::Typedef(t) => single(t.btf_type(), through_pointer, index),
        BtfType::Volatile(t) => single(t.btf_type(), through_pointer, index),
        BtfType::Const(t) => single(t.btf_type(), through_pointer, index),
        BtfType::Restrict(t) => single(t.btf_type(), through_pointer, index),
        BtfType::TypeTag(t) => single(t.btf_type(), through_pointer, index),
        BtfType::FuncProto(t) => type_at(t.return_type(), t.params(), through_pointer, index),
        _ => None,
    }
}

/// The type of a member of a STRUCT or UNION.
fn member_at(members: &[BtfMember], index: usize) -> Option<Node>
    requires { length members.now ≤ last_index }
    ensures child { ChildIs (map member_type members.now) false index result }
    ensures uses { option_map use_of result
        ≡ slice_get (uses_of (map member_type members.now) false) index }
{
    Some(Node {
        id: members.get(index)?.btf_type,
        through_pointer: false,
    })
}

/// The type of a prototype, which is its return type at index 0 and then a parameter's.
fn type_at(
    return_type: u32,
    params: &[BtfParam],
    through_pointer: bool,
    index: usize,
) -> Option<Node>
    requires { length params.now < last_index }
    ensures child { ChildIs [] through_pointer index result }
    ensures uses { option_map use_of result
        ≡ slice_get (uses_of (return_type ∷ map param_type params.now) through_pointer) index }
{
    let id = match index.checked_sub(1) {
        None => return_type,
        Some(param) => params.get(param)?.btf_type,
    };
    Some(Node {
        id,
        through_pointer,
    })
}

/// The only type to which a type refers, at index 0.
fn single(id: u32, through_pointer: bool, index: usize) -> Option<Node>
    ensures child { ChildIs (id ∷ []) through_pointer index result }
    ensures uses { option_map use_of result
        ≡ slice_get (uses_of (id ∷ []) through_pointer) index }
{
    if index != 0 {
        return None;
    }
    Some(Node {
        id,
        through_pointer,
    })
}

/// Whether the type has a place in the order of declarations. A type without a name has none, but an ENUM, ENUM64 or
/// FWD to which nothing refers is declared alone.
pub fn is_listed(btf_type: &BtfType, is_referenced: bool) -> bool
    ensures all { IsTrue (is_declared_by (kind_of (record_of btf_type.now).info)
        (record_of btf_type.now)) → result ≡ true }
    ensures only { result ≡ true → IsTrue (may_be_declared_by
        (kind_of (record_of btf_type.now).info) (record_of btf_type.now)) }
{
    // Only a use of the kind proves that the info word has it.
    let _ = btf_type.kind();
    match btf_type {
        BtfType::Struct(t) => t.name_offset() != 0,
        BtfType::Union(t) => t.name_offset() != 0,
        BtfType::Enum(t) => t.name_offset() != 0 || !is_referenced,
        BtfType::Enum64(t) => t.name_offset() != 0 || !is_referenced,
        BtfType::Fwd(t) => t.name_offset() != 0 || !is_referenced,
        BtfType::Typedef(_) => true,
        _ => false,
    }
}

/// Whether a walk from the type finds nothing: it goes on to no other type, and this type is not declared.
#[inline(always)]
pub fn is_alone(btf_type: &BtfType) -> bool
    ensures no_types { result ≡ true → length (value_types (record_of btf_type.now)) ≡ 0 }
    ensures undeclared { result ≡ true → is_declared_by
        (kind_of (record_of btf_type.now).info) (record_of btf_type.now) ≡ false }
    ensures no_uses { result ≡ true → (behind : Bool) → uses_by
        (kind_of (record_of btf_type.now).info) (record_of btf_type.now) behind ≡ [] }
{
    // Only a use of the record proves that the info word has the kind.
    let _ = btf_type.name_offset();
    match btf_type {
        BtfType::Unknown
        | BtfType::Int(_)
        | BtfType::Float(_)
        | BtfType::Func(_)
        | BtfType::Var(_)
        | BtfType::DataSec(_)
        | BtfType::DeclTag(_) => true,
        _ => false,
    }
}

/// How the walk passes a type that it comes to through a pointer.
#[derive(Clone, Copy, Drop)]
pub enum Passing {
    /// As without the pointer.
    AsByValue,
    /// A STRUCT or UNION with a name: a forward declaration is enough.
    Forward,
    /// A TYPEDEF, a modifier or a prototype: the types that it refers to are also behind the pointer.
    Behind,
}

/// How the walk passes a type.
pub fn passing_of(btf_type: &BtfType, through_pointer: bool) -> Passing
    ensures passes { IsPassing through_pointer result }
    ensures counts { CountsAs (record_of btf_type.now) through_pointer result }
{
    // Only a use of the kind proves that the info word has it.
    let _ = btf_type.kind();
    if !through_pointer {
        return Passing::AsByValue;
    }
    match btf_type {
        BtfType::Struct(t) => forward_if(t.name_offset() != 0),
        BtfType::Union(t) => forward_if(t.name_offset() != 0),
        BtfType::Typedef(_)
        | BtfType::Volatile(_)
        | BtfType::Const(_)
        | BtfType::Restrict(_)
        | BtfType::TypeTag(_)
        | BtfType::FuncProto(_) => Passing::Behind,
        _ => Passing::AsByValue,
    }
}

/// A STRUCT or UNION that has a name, or not.
fn forward_if(has_name: bool) -> Passing
    ensures { result ≡ if has_name then Passing.Forward else Passing.AsByValue }
{
    if has_name {
        Passing::Forward
    } else {
        Passing::AsByValue
    }
}
