//! Reading the `.BTF.ext` that is opened over a table.

ghost use Rattle.std.specs.Prelude.{◌≡◌, ◌≢◌, ◌<◌, ◌≤◌, ◌++◌, [], ◌∷◌, Some, None, Ok, OnOk, slice_get};
ghost use Rattle.std.specs.HashMap.{get_by_text};
ghost use Rattle.std.specs.Option.{MatchOption};
ghost use Rattle.std.specs.Str.{IsUtf8};
ghost use Rattle.btf_ext.specs.BtfExt.{ext as said};
ghost use Rattle.btf_plain.specs.Error.{MeetsOrNoMemory, IsOrNoMemory};
ghost use Rattle.vbtf.specs.Ext.{OpenedExt};
ghost use Rattle.vbtf.specs.ExtRead.{NamesOf, ListsNames, HasSectionName, RecordsOf, RelocationsOf, record_bytes, EndsRecords, EndsRelocations, IfExt, IfLendsExt};
ghost use Rattle.vbtf.specs.Status.{EndsFilling, KeepsHandle};

use crate::fault::{CLOSED, Fault, INVALID_ARGUMENT, NO_ITEM, report};
use crate::handle::Handle;
use crate::opened::{KeyedExt, Opened};
use crate::seed::Keys;
use crate::taken::take_loan;
use crate::write::fill;
use btf::{BtfError, relocations_of};
use std::alloc::{AllocError, Global};
use std::collections::HashMap;

/// The names of the sections that have function records (part 0) or line records (part 1) in `.BTF.ext`. Each name is
/// listed once, with a zero byte after it, in no particular order.
///
/// Status 100 if the buffer is too small (it is then unchanged); 20 if an allocation fails; 101 if the
/// handle's state is not 2, or the table has no `.BTF.ext`; 102 for another part.
#[unsafe(no_mangle)]
pub extern "C" fn vbtf_lent_ext_names(
    alloc: Global,
    table: &mut Handle,
    part: u32,
    out: &mut [u8],
    needed: &mut u64,
    fault: &mut Fault,
) -> u32
    ensures names { IfLendsExt table.old (λ ext. part ≤ 1
        → EndsFilling result out.old out.new needed.new fault.new (NamesOf ext part)) }
    ensures part { IfLendsExt table.old (λ ext. 1 < part
        → (result ≡ INVALID_ARGUMENT) × (out.new ≡ out.old)) }
    ensures none { table.old.state ≡ 2 → table.old.opened.ext ≡ None
        → (result ≡ CLOSED) × (out.new ≡ out.old) }
    ensures closed { table.old.state ≢ 2 → (result ≡ CLOSED) × (out.new ≡ out.old) }
    ensures kept { KeepsHandle table.old table.new }
{
    let Some(loan) = take_loan(table) else {
        return CLOSED;
    };
    let status = write_names(alloc, loan.get(), part, out, needed, fault);
    *table = Handle::from_loan(loan);
    status
}

/// The string offset of the name of a relocation section, by the section's index from 0 on. Several sections may have
/// one name.
///
/// Status 101 if the handle's state is not 2, or the table has no `.BTF.ext`; 103 if there are fewer
/// sections.
#[unsafe(no_mangle)]
pub extern "C" fn vbtf_lent_ext_section(table: &mut Handle, index: u32, name: &mut u32) -> u32
    ensures found { IfLendsExt table.old (λ ext. HasSectionName result name.new
        (slice_get (said ext).relocations index)) }
    ensures none { table.old.state ≡ 2 → table.old.opened.ext ≡ None → result ≡ CLOSED }
    ensures closed { table.old.state ≢ 2 → result ≡ CLOSED }
    ensures kept { KeepsHandle table.old table.new }
{
    let Some(loan) = take_loan(table) else {
        return CLOSED;
    };
    let status = write_section(loan.get(), index, name);
    *table = Handle::from_loan(loan);
    status
}

/// The records of a section of the program, by its name, as little-endian words. A function record (part 0) has the
/// offset of the instruction, in instructions, and the type. A line record (part 1) has the offset of the instruction,
/// the string offsets of the file's name and of the line's text, and the word of line and column. An unknown name has
/// no records.
///
/// Status 100 if the buffer is too small (it is then unchanged); 20 if an allocation fails; 101 if the
/// handle's state is not 2, or the table has no `.BTF.ext`; 102 for another part, or a name that is not UTF-8.
#[unsafe(no_mangle)]
pub extern "C" fn vbtf_lent_ext_records(
    table: &mut Handle,
    part: u32,
    name: &[u8],
    out: &mut [u8],
    needed: &mut u64,
    fault: &mut Fault,
) -> u32
    ensures records { EndsRecords table.old part name.now out.old out.new needed.new fault.new
        result }
    ensures part { IfLendsExt table.old (λ ext. IsUtf8 name.now → 1 < part
        → (result ≡ INVALID_ARGUMENT) × (out.new ≡ out.old)) }
    ensures none { table.old.state ≡ 2 → IsUtf8 name.now → table.old.opened.ext ≡ None
        → (result ≡ CLOSED) × (out.new ≡ out.old) }
    ensures closed { table.old.state ≢ 2 → IsUtf8 name.now
        → (result ≡ CLOSED) × (out.new ≡ out.old) }
    ensures not_utf8 { (IsUtf8 name.now → ⊥) → (result ≡ INVALID_ARGUMENT) × (out.new ≡ out.old) }
    ensures kept { KeepsHandle table.old table.new }
{
    let Ok(name) = str::from_utf8(name) else {
        return INVALID_ARGUMENT;
    };
    let Some(loan) = take_loan(table) else {
        return CLOSED;
    };
    let status = write_records(loan.get(), part, name, out, needed, fault);
    *table = Handle::from_loan(loan);
    status
}

/// The relocations of a section of the program, by its name, four words each: the byte offset of the instruction, the
/// type, the string offset of the access string, and the kind. `needed` counts words.
///
/// Status 100 if the buffer is too small (it is then unchanged); 6 with the first name of a section that cannot
/// be read; 20 if an allocation fails; 101 if the handle's state is not 2, or the table has no `.BTF.ext`; 102
/// for a name that is not UTF-8.
#[unsafe(no_mangle)]
pub extern "C" fn vbtf_lent_ext_relocations(
    alloc: Global,
    table: &mut Handle,
    name: &[u8],
    out: &mut [u32],
    needed: &mut u64,
    fault: &mut Fault,
) -> u32
    ensures words { EndsRelocations table.old name.now out.old out.new needed.new fault.new result }
    ensures none { table.old.state ≡ 2 → IsUtf8 name.now → table.old.opened.ext ≡ None
        → (result ≡ CLOSED) × (out.new ≡ out.old) }
    ensures closed { table.old.state ≢ 2 → IsUtf8 name.now
        → (result ≡ CLOSED) × (out.new ≡ out.old) }
    ensures not_utf8 { (IsUtf8 name.now → ⊥) → (result ≡ INVALID_ARGUMENT) × (out.new ≡ out.old) }
    ensures kept { KeepsHandle table.old table.new }
{
    let Ok(name) = str::from_utf8(name) else {
        return INVALID_ARGUMENT;
    };
    let Some(loan) = take_loan(table) else {
        return CLOSED;
    };
    let status = write_relocations(alloc, loan.get(), name, out, needed, fault);
    *table = Handle::from_loan(loan);
    status
}

/// Writes the names of the sections of a part.
fn write_names(
    alloc: Global,
    opened: &Opened,
    part: u32,
    out: &mut [u8],
    needed: &mut u64,
    fault: &mut Fault,
) -> u32
    ensures names { IfExt opened.now (λ ext. part ≤ 1
        → EndsFilling result out.old out.new needed.new fault.new (NamesOf ext part)) }
    ensures part { IfExt opened.now (λ ext. 1 < part
        → (result ≡ INVALID_ARGUMENT) × (out.new ≡ out.old)) }
    ensures none { opened.now.ext ≡ None → (result ≡ CLOSED) × (out.new ≡ out.old) }
{
    let Some(ext) = &opened.ext else {
        return CLOSED;
    };
    match names_of_part(alloc, ext, part) {
        None => INVALID_ARGUMENT,
        Some(Ok(names)) => fill(&names, out, needed),
        Some(Err(error)) => report(error, fault),
    }
}

/// The names of the sections of a part, each with a zero byte after it. None for another part.
fn names_of_part(alloc: Global, ext: &KeyedExt, part: u32) -> Option<Result<Vec<u8>, BtfError>>
    ensures { MatchOption result (1 < part) (λ names. (part ≤ 1)
        × MeetsOrNoMemory (λ v. v.items) names (NamesOf ext.now part)) }
{
    match part {
        0 => Some(names_of(alloc, &ext.func_info().sections)),
        1 => Some(names_of(alloc, &ext.line_info().sections)),
        _ => None,
    }
}

/// The names of a map's sections, each with a zero byte after it.
fn names_of<S>(alloc: Global, sections: &HashMap<String, S, Keys>) -> Result<Vec<u8>, BtfError>
    ensures { MeetsOrNoMemory (λ v. v.items) result (ListsNames (get_by_text sections.now)) }
{
    let mut names = Vec::new(alloc);
    for name in sections.keys() {
        push_name(&mut names, name)?;
    }
    Ok(names)
}

/// Adds a name and a zero byte.
fn push_name(names: &mut Vec<u8>, name: &str) -> Result<(), AllocError>
    ensures { OnOk result (names.new.items ≡ names.old.items ++ name.now ++ 0 ∷ []) }
{
    names.extend_from_slice(name.as_bytes())?;
    names.push(0)?;
    Ok(())
}

/// Writes the string offset of the name of a relocation section.
fn write_section(opened: &Opened, index: u32, name: &mut u32) -> u32
    ensures found { (ext : OpenedExt) → opened.now.ext ≡ Some ext
        → HasSectionName result name.new (slice_get (said ext).relocations index) }
    ensures none { opened.now.ext ≡ None → result ≡ CLOSED }
{
    let Some(ext) = &opened.ext else {
        return CLOSED;
    };
    let Some(section) = ext.relocations().get(index as usize) else {
        return NO_ITEM;
    };
    *name = section.0;
    0
}

/// Writes the records of a section.
fn write_records(
    opened: &Opened,
    part: u32,
    name: &str,
    out: &mut [u8],
    needed: &mut u64,
    fault: &mut Fault,
) -> u32
    ensures records { IfExt opened.now (λ ext. part ≤ 1
        → EndsFilling result out.old out.new needed.new fault.new (RecordsOf ext part name.now)) }
    ensures part { IfExt opened.now (λ ext. 1 < part
        → (result ≡ INVALID_ARGUMENT) × (out.new ≡ out.old)) }
    ensures none { opened.now.ext ≡ None → (result ≡ CLOSED) × (out.new ≡ out.old) }
{
    let Some(ext) = &opened.ext else {
        return CLOSED;
    };
    let bytes = match part {
        0 => func_bytes(ext, name),
        1 => line_bytes(ext, name),
        _ => return INVALID_ARGUMENT,
    };
    match bytes {
        Ok(bytes) => fill(&bytes, out, needed),
        Err(error) => report(error, fault),
    }
}

/// The function records of a section.
fn func_bytes(ext: &KeyedExt, name: &str) -> Result<Vec<u8>, BtfError>
    ensures { IsOrNoMemory (λ v. v.items) result
        (Ok (record_bytes ((said ext.now).func name.now))) }
{
    ext.func_info().get(name)?.func_info_bytes()
}

/// The line records of a section.
fn line_bytes(ext: &KeyedExt, name: &str) -> Result<Vec<u8>, BtfError>
    ensures { IsOrNoMemory (λ v. v.items) result
        (Ok (record_bytes ((said ext.now).line name.now))) }
{
    ext.line_info().get(name)?.line_info_bytes()
}

/// Writes the relocations of a section.
fn write_relocations(
    alloc: Global,
    opened: &Opened,
    name: &str,
    out: &mut [u32],
    needed: &mut u64,
    fault: &mut Fault,
) -> u32
    ensures words { IfExt opened.now (λ e. EndsFilling result out.old out.new needed.new
        fault.new (RelocationsOf opened.now.btf.strings e name.now)) }
    ensures none { opened.now.ext ≡ None → (result ≡ CLOSED) × (out.new ≡ out.old) }
{
    let Some(ext) = &opened.ext else {
        return CLOSED;
    };
    match relocations_of(alloc, ext, &opened.btf, name) {
        Ok(records) => fill(records.as_flattened(), out, needed),
        Err(error) => report(error, fault),
    }
}
