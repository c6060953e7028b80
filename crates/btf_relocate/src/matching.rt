//! The place in a type of the target that a path of the program's table matches.

ghost use Rattle.std.specs.Prelude.{◌≡◌, ◌+◌, ◌≤◌, map};
ghost use Rattle.std.specs.Option.{option_map};
ghost use Rattle.btf_relocate_model.specs.Match as model;
ghost use Rattle.btf_relocate_model.specs.Types.{pointer_size};
ghost use Rattle.btf_relocate.specs.Gives.{GivesBy};
ghost use Rattle.btf_relocate.specs.Matching.{reached, step_from};
ghost use Rattle.btf_relocate.specs.Paths.{step_of};
ghost use Rattle.btf_relocate.specs.Searching.{found_of, levels_of};

use crate::compatible::are_compatible;
use crate::field::{element, move_bit, place};
use crate::path::{Accessor, Path};
use crate::search::{Found, find_member};
use crate::target::Target;
use btf_relocate_model::{Field, RelocationError};
use btf_view::TableRef;
use std::alloc::Global;

/// The maximum number of members and elements on the way to a field, members without a name included.
const DEPTH_LIMIT: u32 = 64;

/// A place in a type of the target.
#[derive(Clone, Copy, Debug)]
struct Reached {
    /// The place.
    field: Field,
    /// The number of members and elements on the way to it.
    count: u32,
}

/// The place in a candidate that a path matches; `None` if it does not match.
pub fn matching_field(
    alloc: Global,
    local: &TableRef<'_>,
    path: &Path<'_>,
    target: &Target<'_>,
    candidate: u32,
) -> Result<Option<Field>, RelocationError>
    ensures { GivesBy (λ f. f) (model.match_path local.now (pointer_size target.now)
        target.now (map step_of path.now.accessors.items) candidate) result }
{
    let accessors = path.accessors.as_slice();
    let [Accessor::Element(first), rest @ ..] = accessors else {
        return Ok(None);
    };
    let field = place(target.table(), target.pointer_size(), candidate, 0, *first)?;
    let mut at = Reached { field, count: 1 };
    for accessor in rest {
        match matching_step(alloc, local, target, &at, accessor)? {
            Some(next) => at = next,
            None => return Ok(None),
        }
    }
    Ok(Some(at.field))
}

/// The place that a step leads to from another place; `None` if the step does not match.
fn matching_step(
    alloc: Global,
    local: &TableRef<'_>,
    target: &Target<'_>,
    at: &Reached,
    accessor: &Accessor<'_>,
) -> Result<Option<Reached>, RelocationError>
    ensures { GivesBy (option_map reached)
        (step_from local.now target.now at.now accessor.now) result }
{
    match accessor {
        Accessor::Element(index) => {
            let next = element(target.table(), target.pointer_size(), &at.field, *index)?;
            let Some(field) = next else {
                return Ok(None);
            };
            if at.count >= DEPTH_LIMIT {
                return Err(RelocationError::TooDeep);
            }
            Ok(Some(Reached {
                field,
                count: at.count + 1,
            }))
        }
        Accessor::Member(name, type_id) => {
            let room = DEPTH_LIMIT.saturating_sub(at.count);
            let found = find_member(alloc, target.table(), *name, at.field.type_id, room)?;
            let Found::Member(field, count) = found else {
                return Ok(None);
            };
            let bit = move_bit(at.field.bit, u64::from(field.bit))?;
            if !are_compatible(local, *type_id, target.table(), field.type_id)? {
                return Ok(None);
            }
            Ok(Some(Reached {
                field: Field { bit, ..field },
                count: at.count + count,
            }))
        }
    }
}
