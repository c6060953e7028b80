//! Walks from type to type.

ghost use Rattle.std.specs.Prelude.{◌≡◌, ◌*◌, ◌<◌, ◌≤◌, ◌^◌, map, Some, MatchResult};
ghost use Rattle.btf_model.specs.Record.{kind_of};
ghost use Rattle.btf_model.specs.Walk as model;
ghost use Rattle.btf_model.specs.Walk.{modified_type, Resolves, HasSize};
ghost use Rattle.btf_plain.specs.Error.{Meets};
ghost use Rattle.btf_records.specs.BtfType.{record_of, type_kind};
ghost use Rattle.btf_table.specs.Extent.{extent_of};

use btf_plain::{BtfError, BtfKind};
use btf_records::BtfType;

/// The maximum number of types, or of pairs of types, that a walk visits.
pub const WALK_LIMIT: usize = 32;

/// The id of the first type that is no modifier, on the walk over modifiers from an id on. Most types are no modifiers,
/// and this function finds that out without a call.
#[inline(always)]
pub fn resolve(types: &[BtfType], type_id: u32) -> Result<u32, BtfError>
    ensures { Meets (λ id. id) result (Resolves (map record_of types.now) type_id) }
{
    let Some(btf_type) = types.get(type_id as usize) else {
        return Err(BtfError::UnknownBtfType { type_id });
    };
    match modified_type(btf_type) {
        Some(_) => resolve_on(types, type_id),
        None => Ok(type_id),
    }
}

/// The same, step by step.
fn resolve_on(types: &[BtfType], type_id: u32) -> Result<u32, BtfError>
    ensures { Meets (λ id. id) result (Resolves (map record_of types.now) type_id) }
{
    let mut id = type_id;
    for _ in 0..WALK_LIMIT {
        let Some(btf_type) = types.get(id as usize) else {
            return Err(BtfError::UnknownBtfType { type_id: id });
        };
        let Some(next) = modified_type(btf_type) else {
            return Ok(id);
        };
        id = next;
    }
    Err(BtfError::MaximumTypeDepthReached { type_id })
}

/// The id of the type that a modifier describes; None for a type of another kind.
fn modified_type(btf_type: &BtfType) -> Option<u32>
    ensures { result ≡ modified_type (record_of btf_type.now) }
{
    match btf_type.kind() {
        BtfKind::Typedef
        | BtfKind::Volatile
        | BtfKind::Const
        | BtfKind::Restrict
        | BtfKind::TypeTag => btf_type.btf_type(),
        _ => None,
    }
}

/// What a type gives for its size.
#[derive(Clone, Copy)]
pub enum Extent {
    /// The size is this number of bytes.
    Bytes(u32),
    /// The size is `count` times the size of another type.
    Times(u32, u32),
    /// The type gives no size.
    Nothing,
}

/// The size of a type in bytes, on the walk over arrays and types that refer to one other type.
#[inline(always)]
pub fn size(types: &[BtfType], type_id: u32) -> Result<u32, BtfError>
    ensures { Meets (λ n. n) result (HasSize (map record_of types.now) type_id) }
{
    let mut id = type_id;
    let mut count = 1;
    for _ in 0..WALK_LIMIT {
        let Some(btf_type) = types.get(id as usize) else {
            return Err(BtfError::UnknownBtfType { type_id: id });
        };
        match extent_at(btf_type) {
            Extent::Bytes(bytes) => return product(bytes, count),
            Extent::Times(times, next) => {
                count = product(count, times)?;
                id = next;
            }
            Extent::Nothing => return Err(BtfError::UnexpectedBtfType { type_id: id }),
        }
    }
    Err(BtfError::MaximumTypeDepthReached { type_id })
}

/// What a type gives for its size.
fn extent_at(btf_type: &BtfType) -> Extent
    ensures { extent_of result ≡ model.extent (kind_of (record_of btf_type.now).info)
        (record_of btf_type.now) }
{
    // Only a use of the kind proves that the info word has it.
    let _ = btf_type.kind();
    match btf_type {
        BtfType::Int(t) => Extent::Bytes(t.size()),
        BtfType::Ptr(_) => Extent::Bytes(8),
        BtfType::Array(t) => {
            let array = t.array();
            Extent::Times(array.len, array.element_type)
        }
        BtfType::Struct(t) => Extent::Bytes(t.size()),
        BtfType::Union(t) => Extent::Bytes(t.size()),
        BtfType::Enum(t) => Extent::Bytes(t.size()),
        BtfType::DataSec(t) => Extent::Bytes(t.size()),
        BtfType::Float(t) => Extent::Bytes(t.size()),
        BtfType::Enum64(t) => Extent::Bytes(t.size()),
        BtfType::Typedef(t) => Extent::Times(1, t.btf_type()),
        BtfType::Volatile(t) => Extent::Times(1, t.btf_type()),
        BtfType::Const(t) => Extent::Times(1, t.btf_type()),
        BtfType::Restrict(t) => Extent::Times(1, t.btf_type()),
        BtfType::Var(t) => Extent::Times(1, t.btf_type()),
        BtfType::DeclTag(t) => Extent::Times(1, t.btf_type()),
        BtfType::TypeTag(t) => Extent::Times(1, t.btf_type()),
        BtfType::FuncProto(t) => Extent::Times(1, t.return_type()),
        BtfType::Unknown | BtfType::Fwd(_) | BtfType::Func(_) => Extent::Nothing,
    }
}

/// The product, or `InvalidTypeInfo` if it exceeds 32 bits.
pub fn product(a: u32, b: u32) -> Result<u32, BtfError>
    ensures { MatchResult result
        (λ n. (n ≡ a * b) × (a * b < 2 ^ 32))
        (λ e. (2 ^ 32 ≤ a * b) × (e ≡ BtfError.InvalidTypeInfo)) }
{
    // By a match: `ok_or` would be a call for each type.
    match a.checked_mul(b) {
        Some(product) => Ok(product),
        None => Err(BtfError::InvalidTypeInfo),
    }
}
