//! The search for a member by its name, through members without a name.

ghost use Rattle.std.specs.Prelude.{◌≡◌, ◌≤◌, IfOk};
ghost use Rattle.std.specs.Result.{OnOk};
ghost use Rattle.btf_view.specs.TypeRef.{record_in};
ghost use Rattle.btf_relocate_model.specs.Search as model;
ghost use Rattle.btf_relocate.specs.Gives.{Gives, GivesBy};
ghost use Rattle.btf_relocate.specs.Searching.{within, from_id, found_of, levels_of, Remembers};

use crate::field::{bits_of, member_field, move_bit};
use crate::kinds::Members;
use crate::lookup::{name_or_none, resolve_id, type_at};
use btf_relocate_model::{Field, RelocationError};
use btf_view::{TableRef, TypeRef};
use std::alloc::Global;
use std::collections::BTreeMap;

/// The result of a search in a type.
#[derive(Clone, Copy, Debug)]
pub enum Found {
    /// The member, whose bit counts from the beginning of the type, and the number of members on the way to it, with
    /// itself.
    Member(Field, u32),
    /// There is no such member. The number of levels of members without a name that were searched.
    Nothing(u32),
}

/// The member of this name in the STRUCT or UNION that an id resolves to, and the number of members on the way to it,
/// with itself; `None` if there is none. At most `depth` members may be on the way.
pub fn find_member(
    alloc: Global,
    table: &TableRef<'_>,
    name: &[u8],
    type_id: u32,
    depth: u32,
) -> Result<Found, RelocationError>
    ensures found { GivesBy found_of (model.search depth table.now name.now type_id) result }
    ensures small { IfOk result (λ f. levels_of f ≤ depth) }
{
    let mut searched = BTreeMap::new(alloc);
    search(table, name, &mut searched, type_id, depth)
}

/// Searches a STRUCT or UNION. `searched` has the types that were searched in vain, with their number of levels: the
/// second search of a type would find nothing either, so each type is searched once.
///
/// Each call has a smaller depth than its caller, and the first has at most 64.
#[cycle(search)]
fn search(
    table: &TableRef<'_>,
    name: &[u8],
    searched: &mut BTreeMap<u32, u32>,
    type_id: u32,
    depth: u32,
) -> Result<Found, RelocationError>
    requires { Remembers table.now name.now searched.old }
    ensures found { Gives (from_id depth table.now name.now type_id) result }
    ensures small { IfOk result (λ f. levels_of f ≤ depth) }
    ensures remembers { OnOk result (Remembers table.now name.now searched.new) }
{
    let end = resolve_id(table, type_id)?;
    let btf_type = type_at(table, end)?;
    if let Some(levels) = searched.get(&end).copied() {
        if levels > depth {
            return Err(RelocationError::TooDeep);
        }
        return Ok(Found::Nothing(levels));
    }
    let found = search_members(table, name, searched, &btf_type, depth)?;
    if let Found::Nothing(levels) = found {
        searched.insert(end, levels)?;
    }
    Ok(found)
}

/// Searches the members of a type.
#[cycle(search)]
fn search_members(
    table: &TableRef<'_>,
    name: &[u8],
    searched: &mut BTreeMap<u32, u32>,
    btf_type: &TypeRef<'_>,
    depth: u32,
) -> Result<Found, RelocationError>
    requires { Remembers table.now name.now searched.old }
    ensures found { Gives (within depth table.now name.now (record_in btf_type.now)) result }
    ensures small { IfOk result (λ f. levels_of f ≤ depth) }
    ensures remembers { OnOk result (Remembers table.now name.now searched.new) }
{
    let members = Members::of(btf_type);
    let count = members.len();
    if count == 0 {
        return Ok(Found::Nothing(0));
    }
    if depth == 0 {
        return Err(RelocationError::TooDeep);
    }
    let mut levels: u32 = 0;
    for index in 0..count {
        let Some(member) = members.get(index) else {
            return Ok(Found::Nothing(levels));
        };
        let here = name_or_none(table, member.name_offset);
        if here.is_empty() {
            match search(table, name, searched, member.btf_type, depth - 1)? {
                Found::Member(field, further) => {
                    let (offset, _) = bits_of(btf_type, &member);
                    let bit = move_bit(offset, u64::from(field.bit))?;
                    return Ok(Found::Member(Field { bit, ..field }, further + 1));
                }
                Found::Nothing(inner) => levels = levels.max(inner + 1),
            }
        } else if here == name {
            let is_last = index + 1 == count;
            return Ok(Found::Member(member_field(btf_type, &member, 0, is_last)?, 1));
        } else {
            levels = levels.max(1);
        }
    }
    Ok(Found::Nothing(levels))
}
