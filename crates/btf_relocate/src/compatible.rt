//! Compatible types of fields.

ghost use Rattle.std.specs.Prelude.{◌≡◌};
ghost use Rattle.btf_view.specs.TypeRef.{record_in};
ghost use Rattle.btf_relocate_model.specs.Compatible as model;

use crate::kinds::{array_of, int_offset, is_composite};
use crate::lookup::{name_at, resolve_to_type};
use crate::name::essential_name;
use crate::target::comparison_number;
use btf_plain::BtfKind;
use btf_relocate_model::RelocationError;
use btf_table::WALK_LIMIT;
use btf_view::{TableRef, TypeRef};

/// Whether the types of two fields are compatible, each in its own table (libbpf's `bpf_core_fields_are_compat`).
///
/// Two STRUCTs or UNIONs are compatible, and so are two PTRs, two FLOATs, and two INTs that begin at bit 0. Two FWDs,
/// and two ENUMs or ENUM64s, are compatible if one of them has no name, or if their essential names are equal. Two
/// ARRAYs are compatible if the types of their elements are.
pub fn are_compatible(
    local: &TableRef<'_>,
    local_id: u32,
    target: &TableRef<'_>,
    target_id: u32,
) -> Result<bool, RelocationError>
    ensures { result ≡ model.compatible local.now target.now local_id target_id }
{
    let mut id = local_id;
    let mut other_id = target_id;
    for _ in 0..WALK_LIMIT {
        let one = resolve_to_type(local, id)?;
        let other = resolve_to_type(target, other_id)?;
        let (Some(array), Some(other_array)) = (array_of(&one), array_of(&other)) else {
            return are_alike(local, &one, target, &other);
        };
        id = array.element_type;
        other_id = other_array.element_type;
    }
    Err(RelocationError::MaximumTypeDepthReached { type_id: local_id })
}

/// Whether two types of fields that are no modifiers and not both arrays are compatible.
fn are_alike(
    local: &TableRef<'_>,
    one: &TypeRef<'_>,
    target: &TableRef<'_>,
    other: &TypeRef<'_>,
) -> Result<bool, RelocationError>
    ensures { result ≡ model.alike local.now target.now (record_in one.now) (record_in other.now) }
{
    let (kind, other_kind) = (one.kind(), other.kind());
    if is_composite(kind) && is_composite(other_kind) {
        return Ok(true);
    }
    if comparison_number(kind) != comparison_number(other_kind) {
        return Ok(false);
    }
    match (kind, other_kind) {
        (BtfKind::Ptr, _) => Ok(true),
        (BtfKind::Float, _) => Ok(true),
        (BtfKind::Int, BtfKind::Int) => Ok(int_offset(one) == 0 && int_offset(other) == 0),
        // One of two types has no name, or their essential names are equal.
        (BtfKind::Fwd | BtfKind::Enum | BtfKind::Enum64, _) => {
            let name = essential_name(name_at(local, one.name_offset())?);
            let other_name = essential_name(name_at(target, other.name_offset())?);
            Ok(name.is_empty() || other_name.is_empty() || name == other_name)
        }
        _ => Ok(false),
    }
}
