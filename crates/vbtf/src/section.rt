//! Sections of an object.

ghost use Rattle.btf_elf_model.specs.Object as elf;
ghost use Rattle.btf_elf_model.specs.declared.section_header.SectionHeader.{SectionHeader};
ghost use Rattle.btf_object_model.specs.Sanitized.{first_section_index};
ghost use Rattle.std.specs.Prelude.{◌≡◌};
ghost use Rattle.std.specs.Option.{MatchOption};
ghost use Rattle.vbtf.specs.Section.{EndsLocating, FindsSection};

use crate::fault::{Fault, OUT_OF_MEMORY, report_number};
use crate::object::{NO_TABLE, report_parse};
use crate::orders::number_of;
use btf_elf::{Object, ObjectError};
use std::alloc::Global;

/// Where the bytes of a section are in an object.
#[repr(C)]
#[derive(Drop)]
pub struct Place {
    pub offset: u64,
    /// Their number: 0 for a section that has no bytes in the object.
    pub len: u64,
    /// The byte order of the object: 0 for little, 1 for big.
    pub order: u32,
}

/// Finds the first section of a name in an object. The name has no zero byte at its end.
///
/// Status 104 if the bytes are no object, as of `vbtf_raw_sanitize_object`; 105 if no section has the name; 20 if an
/// allocation fails. The place is then unchanged.
#[unsafe(no_mangle)]
pub extern "C" fn vbtf_raw_section(
    alloc: Global,
    object: &[u8],
    name: &[u8],
    place: &mut Place,
    fault: &mut Fault,
) -> u32
    ensures { EndsLocating result object.now name.now place.old place.new fault.new }
{
    match Object::parse(alloc, object) {
        Ok(object) => {
            let Some(found) = place_of_section(&object, name) else {
                return report_number(fault, NO_TABLE, 0, 0);
            };
            *place = found;
            0
        }
        Err(ObjectError::Parse(error)) => report_parse(error, fault),
        Err(ObjectError::OutOfMemory) => report_number(fault, OUT_OF_MEMORY, 0, 0),
    }
}

/// The place of the first section of a name.
fn place_of_section(object: &Object<'_>, name: &[u8]) -> Option<Place>
    ensures { FindsSection object.now name.now result }
{
    let index = object.section_by_name(name)?;
    let section = &object.sections()[index];
    Some(Place {
        offset: section.offset,
        len: object.section_bytes(section).len() as u64,
        order: number_of(object.header().order),
    })
}
