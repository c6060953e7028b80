//! Lookups in a table, with the errors of a relocation.

ghost use Rattle.std.specs.Prelude.{◌≡◌, Ok, Err, Some, IfSome, MatchResult};
ghost use Rattle.btf_plain.specs.Error.{refusal_of};
ghost use Rattle.btf_relocate_model.specs.Types as model;
ghost use Rattle.btf_relocate.specs.Lookup.{GivesType};

use btf_plain::BtfError;
use btf_relocate_model::RelocationError;
use btf_view::{TableRef, TypeRef};

/// The type of an id.
#[inline(always)]
pub fn type_at<'t>(table: &TableRef<'t>, type_id: u32) -> Result<TypeRef<'t>, RelocationError>
    ensures { GivesType (model.required_record table.now type_id) result }
{
    match table.type_at(type_id) {
        Some(btf_type) => Ok(btf_type),
        None => Err(RelocationError::UnknownBtfType { type_id }),
    }
}

/// The error of a walk over modifiers that begins at this id.
fn walk_error(error: &BtfError, type_id: u32) -> RelocationError
    ensures { IfSome (refusal_of error.now)
        (λ refusal. model.walked_id type_id (Some (Err refusal)) ≡ Err result) }
{
    match error {
        BtfError::UnknownBtfType { type_id } => RelocationError::UnknownBtfType {
            type_id: *type_id,
        },
        _ => RelocationError::MaximumTypeDepthReached { type_id },
    }
}

/// The id that an id resolves to.
#[inline(always)]
pub fn resolve_id(table: &TableRef<'_>, type_id: u32) -> Result<u32, RelocationError>
    ensures { result ≡ model.resolved table.now type_id }
{
    match table.resolve(type_id) {
        Ok(id) => Ok(id),
        Err(error) => Err(walk_error(&error, type_id)),
    }
}

/// The type that an id resolves to.
#[inline(always)]
pub fn resolve_to_type<'t>(
    table: &TableRef<'t>,
    type_id: u32,
) -> Result<TypeRef<'t>, RelocationError>
    ensures { GivesType (model.resolved_record table.now type_id) result }
{
    let id = resolve_id(table, type_id)?;
    type_at(table, id)
}

/// The bytes of a name that is needed, which need not be UTF-8.
#[inline(always)]
pub fn name_at<'t>(table: &TableRef<'t>, offset: u32) -> Result<&'t [u8], RelocationError>
    ensures { MatchResult result (λ b. model.name_at table.now offset ≡ Ok b.now)
        (λ e. model.name_at table.now offset ≡ Err e) }
{
    match table.name(offset) {
        Some(bytes) => Ok(bytes),
        None => Err(RelocationError::InvalidStringOffset { offset }),
    }
}

/// The bytes of a name; none if there is no text at the offset.
pub fn name_or_none<'t>(table: &TableRef<'t>, offset: u32) -> &'t [u8]
    ensures { result.now ≡ model.name_or_none table.now offset }
{
    match name_at(table, offset) {
        Ok(bytes) => bytes,
        Err(_) => &[],
    }
}
