//! The relocations of a section, by its name.

ghost use Rattle.btf_model.specs.RelocationWords.{Words};
ghost use Rattle.btf_plain.specs.Error.{MeetsOrNoMemory};
ghost use Rattle.btf_ext.specs.BtfExt.{ext as said};
ghost use Rattle.btf_above.specs.Answers.{IsOnly};

use btf_ext::BtfExt;
use btf_plain::BtfError;
use btf_table::{Btf, comparable_end, is_named};
use std::alloc::Global;
use std::hash::BuildHasher;

/// The relocation records of the sections of this name, in order: the first four words of each record, as
/// [`BtfExt::relocations`] gives them. If several sections have the name, the list has the records of each; if none
/// has it, the list is empty. Names are read from `btf`, the table that `ext` was parsed with, and compared as
/// `Btf::string_at` reads them.
///
/// A relocation record (the kernel's BTF documentation, ".BTF.ext section", `struct bpf_core_relo`) has the byte offset
/// of an instruction, the id of a type, the string offset of an access string, and the kind of the relocation.
///
/// # Errors
///
/// All section names are read, in order, even after a match.
///
/// - `InvalidStringOffset` of the first name that cannot be read.
/// - `OutOfMemory` if an allocation fails: for the records, or for a name that is not UTF-8.
pub fn relocations_of<H: BuildHasher>(
    alloc: Global,
    ext: &BtfExt<H>,
    btf: &Btf,
    name: &str,
) -> Result<Vec<[u32; 4]>, BtfError>
    // The records of the sections of this name, or the first name that cannot be read.
    ensures words { MeetsOrNoMemory (λ v. v.items) result
        (Words btf.now.strings (said ext.now).relocations name.now) }
    // The result is unique: no other records, and no other error.
    ensures only { IsOnly (λ v. v.items) result
        (Words btf.now.strings (said ext.now).relocations name.now) }
{
    let readable_end = comparable_end(btf, name);
    let mut found = Vec::new(alloc);
    for (offset, records) in ext.relocations() {
        if is_named(btf, *offset, name, readable_end)? {
            found.extend_from_slice(records)?;
        }
    }
    Ok(found)
}
