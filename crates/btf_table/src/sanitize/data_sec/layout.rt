//! What the caller's maps have for the section and the symbols of a DATASEC.

ghost use Rattle.std.specs.Prelude.{◌≡◌, Some, Ok};
ghost use Rattle.btf_rewrite_model.specs.Checks.{in_a_word};
ghost use Rattle.btf_plain.specs.Error.{IsOrNoMemory};
ghost use Rattle.btf_table.specs.Layout.{sizes_of, offsets_of};
ghost use Rattle.btf_table.specs.SectionAnswers.{section_size_of};

use btf_plain::{BtfError, SectionIndex};
use std::alloc::Global;
use std::collections::HashMap;
use std::hash::BuildHasher;

/// The size of the section of this name. Fails with `UnknownSectionSize` of the name if the size isn't known or has
/// more than 32 bits.
pub fn section_size<G: BuildHasher>(
    alloc: Global,
    sections: &HashMap<String, (SectionIndex, u64), G>,
    name: &str,
) -> Result<u32, BtfError>
    ensures { IsOrNoMemory (λ n. n) result (section_size_of name.now (sizes_of sections.now)) }
{
    let Some(size) = known_size(sections, name) else {
        return Err(BtfError::UnknownSectionSize {
            section_name: name.to_string(alloc)?,
        });
    };
    Ok(size)
}

/// The size of the section of this name, if it is known and has at most 32 bits.
fn known_size<G: BuildHasher>(
    sections: &HashMap<String, (SectionIndex, u64), G>,
    name: &str,
) -> Option<u32>
    ensures { result ≡ in_a_word (sizes_of sections.now name.now) }
{
    let (_, size) = sections.get(name)?;
    to_word(*size)
}

/// The offset of the symbol of this name, if it is known and has at most 32 bits.
pub fn known_offset<H: BuildHasher>(symbols: &HashMap<String, u64, H>, name: &str) -> Option<u32>
    ensures { result ≡ in_a_word (offsets_of symbols.now name.now) }
{
    to_word(*symbols.get(name)?)
}

/// A number, if it has at most 32 bits.
fn to_word(number: u64) -> Option<u32>
    ensures { result ≡ in_a_word (Some number) }
{
    u32::try_from(number).ok()
}
