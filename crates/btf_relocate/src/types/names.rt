//! Names of types, members and enumerators, when definitions are compared.

ghost use Rattle.std.specs.Prelude.{◌≡◌, Ok};
ghost use Rattle.btf_view.specs.TypeRef.{record_in};
ghost use Rattle.btf_relocate_model.specs.Comparison as model;
ghost use Rattle.btf_relocate.specs.Gives.{Gives};
ghost use Rattle.btf_relocate.specs.Steps.{GivesNames};

use crate::enumerator::{Enumerator, count};
use crate::lookup::{name_at, name_or_none};
use crate::name::essential_name;
use btf_relocate_model::RelocationError;
use btf_view::{TableRef, TypeRef};
use std::alloc::Global;
use std::collections::BTreeSet;

/// Whether two names have the same essential name; a name without a text in the target counts as empty.
pub fn names_match(
    local: &TableRef<'_>,
    target: &TableRef<'_>,
    offset: u32,
    other: u32,
) -> Result<bool, RelocationError>
    ensures { result ≡ model.names_match local.now target.now offset other }
{
    let other = name_or_none(target, other);
    if other.is_empty() {
        return Ok(name_or_none(local, offset).is_empty());
    }
    let name = name_at(local, offset)?;
    Ok(essential_name(name) == essential_name(other))
}

/// Whether the enumerators of two enumerations match: the target has each local one by its essential name.
pub fn enumerators_match(
    alloc: Global,
    local: &TableRef<'_>,
    target: &TableRef<'_>,
    one: &TypeRef<'_>,
    other: &TypeRef<'_>,
) -> Result<bool, RelocationError>
    ensures { Gives (model.named_enumerators local.now target.now (record_in one.now)
        (record_in other.now)) result }
{
    if count(other) < count(one) {
        return Ok(false);
    }
    let names = essential_names(alloc, target, other)?;
    for index in 0..count(one) {
        let Some(enumerator) = Enumerator::at(one, index) else {
            return Ok(true);
        };
        let name = name_at(local, enumerator.name_offset)?;
        if !names.contains(essential_name(name)) {
            return Ok(false);
        }
    }
    Ok(true)
}

/// The essential names of an enumeration's enumerators.
fn essential_names<'t>(
    alloc: Global,
    table: &TableRef<'t>,
    btf_type: &TypeRef<'_>,
) -> Result<BTreeSet<&'t [u8]>, RelocationError>
    ensures { GivesNames (model.essential_names table.now
        (model.enumerators_of (record_in btf_type.now))) result }
{
    let mut names = BTreeSet::new(alloc);
    for index in 0..count(btf_type) {
        let Some(enumerator) = Enumerator::at(btf_type, index) else {
            return Ok(names);
        };
        let name = name_at(table, enumerator.name_offset)?;
        names.insert(essential_name(name))?;
    }
    Ok(names)
}
