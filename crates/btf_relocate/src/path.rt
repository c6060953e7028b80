//! Paths in the program's own table.

ghost use Rattle.std.specs.Prelude.{◌≡◌, Ok, Err, map, MatchResult};
ghost use Rattle.btf_relocate_model.specs.Path as model;
ghost use Rattle.btf_relocate.specs.Gives.{GivesBy, IsBy};
ghost use Rattle.btf_relocate.specs.Paths.{place_of, model_path};

use crate::access::Access;
use crate::field::{element, member, place};
use crate::lookup::name_at;
use btf_relocate_model::{Field, RelocationError};
use btf_view::TableRef;
use std::alloc::Global;

/// The size of a pointer in a program's own table.
pub const LOCAL_POINTER_SIZE: u32 = 8;

/// One step of a path. A member without a name is no step, because the target may have its members elsewhere.
#[derive(Clone, Copy, Debug)]
pub enum Accessor<'t> {
    /// The element at an index; the first step counts whole values of the type.
    Element(u32),
    /// The member of this name, and the id of its type in the program's table.
    Member(&'t [u8], u32),
}

/// The place that an index leads to.
#[derive(Clone, Copy, Debug)]
struct Place<'t> {
    /// The place.
    field: Field,
    /// The step to it; `None` for a member without a name.
    step: Option<Accessor<'t>>,
}

/// A path in the program's own table.
#[derive(Debug, Drop)]
pub struct Path<'t> {
    /// The steps in order.
    pub accessors: Vec<Accessor<'t>>,
    /// The place that the path leads to.
    pub field: Field,
}

impl<'t> Path<'t> {
    /// The path that an access describes, from a type on.
    pub fn new(
        alloc: Global,
        table: &TableRef<'t>,
        type_id: u32,
        access: &Access,
    ) -> Result<Path<'t>, RelocationError>
        ensures { GivesBy model_path (model.path_of table.now type_id access.now) result }
    {
        let indices = access.indices();
        if indices.is_empty() {
            return Err(RelocationError::BadAccess);
        }
        let mut field = place(table, LOCAL_POINTER_SIZE, type_id, 0, indices[0])?;
        let mut accessors = Vec::with_capacity(alloc, indices.len())?;
        accessors.push(Accessor::Element(indices[0]))?;
        let mut is_step = true;
        for at in 1..indices.len() {
            let place = place_at(table, &field, indices[at])?;
            field = place.field;
            is_step = place.step.is_some();
            if let Some(step) = place.step {
                accessors.push(step)?;
            }
        }
        if !is_step {
            return Err(RelocationError::BadAccess);
        }
        Ok(Path { accessors, field })
    }
}

/// The place that an index leads to from another place.
fn place_at<'t>(
    table: &TableRef<'t>,
    around: &Field,
    index: u32,
) -> Result<Place<'t>, RelocationError>
    ensures { IsBy place_of (model.place_at table.now around.now index) result }
{
    let Some((field, name_offset)) = member(table, around, index)? else {
        let Some(field) = element(table, LOCAL_POINTER_SIZE, around, index)? else {
            return Err(RelocationError::BadIndex);
        };
        return Ok(Place {
            field,
            step: Some(Accessor::Element(index)),
        });
    };
    // Whether an array in a member without a name is flexible depends on the last member that has a name.
    if name_offset == 0 {
        let field = Field {
            is_member: around.is_member,
            is_last: around.is_last,
            ..field
        };
        return Ok(Place { field, step: None });
    }
    let name = name_at(table, name_offset)?;
    if name.is_empty() {
        return Err(RelocationError::BadAccess);
    }
    Ok(Place {
        field,
        step: Some(Accessor::Member(name, field.type_id)),
    })
}
