//! Objects that are rewritten for a kernel.

ghost use Rattle.std.specs.Prelude.{◌≡◌, Some, None};
ghost use Rattle.std.specs.Option.{option_map};
ghost use Rattle.std.specs.Str.{IsUtf8};
ghost use Rattle.vbtf.specs.Status.{no_details};
ghost use Rattle.vbtf.specs.Object.{text_or_none, target_chosen, parse_place, parse_detail, ReportsNumber, ReportsCause, EndsSanitizingFor, WritesKeepingExt};

use crate::fault::{Fault, INVALID_ARGUMENT, OUT_OF_MEMORY, report, report_number};
use crate::kernel::{Asked, Kernel};
use crate::seed::Keys;
use crate::write::fill;
use arrayvec::ArrayVec;
use btf_elf::{ObjectError, ParseError, ReplaceError};
use btf_object::{SanitizeError, sanitize_object_with};
use btf_rewrite_model::{FeatureAnswer, FillPolicy};
use std::alloc::Global;
use std::str;

/// The bytes are no object.
const NOT_AN_OBJECT: u32 = 104;

/// The object has no section `.BTF`.
pub(crate) const NO_TABLE: u32 = 105;

/// The bytes of the section `.BTF` cannot be replaced.
const NOT_REPLACEABLE: u32 = 106;

/// Rewrites the table in the section `.BTF` of an object for a kernel. Writes the new object to a buffer, its length in
/// bytes to `needed`, and the features that the rewrite asked about to `asked`. `placeholder` is the name of the
/// variable that replaces functions in `.ksyms`; it is empty if there is none. The ids of `kernel` are not read,
/// because the object's table has names. `seed` is a random number, with which the names of sections and symbols are
/// hashed.
///
/// Status 100 if the buffer is too small (it is then unchanged). 104 if the bytes are no object; `id` is then
/// the position of the error in `ParseError`, from 1 on, and `offset` its detail. 105 if no section is `.BTF`; 1 to
/// 19 with the first error of the table or of its rewrite; 106 if the section's bytes cannot be replaced; 20 if an
/// allocation fails; 102 if the placeholder's name is not UTF-8.
#[unsafe(no_mangle)]
pub extern "C" fn vbtf_raw_sanitize_object(
    alloc: Global,
    object: &[u8],
    kernel: &Kernel,
    placeholder: &[u8],
    seed: u64,
    out: &mut [u8],
    needed: &mut u64,
    asked: &mut Asked,
    fault: &mut Fault,
) -> u32
    ensures sanitized { EndsSanitizingFor kernel.now placeholder.now object.now out.old out.new
        needed.new asked.new fault.new result }
    // With the new table the object's section `.BTF.ext` has the same contents as with the old table.
    ensures ext { IsUtf8 placeholder.now → result ≡ 0
        → WritesKeepingExt object.now out.old out.new needed.new result }
    ensures unreadable { (IsUtf8 placeholder.now → ⊥)
        → (result ≡ INVALID_ARGUMENT) × (out.new ≡ out.old) }
{
    let Ok(name) = str::from_utf8(placeholder) else {
        return INVALID_ARGUMENT;
    };
    let features = btf_object::Kernel::of_bits(kernel.features);
    match sanitize_object_with(
        alloc,
        object,
        &features,
        kernel.policy(),
        named(name),
        Keys { seed },
    ) {
        Ok((file, answers)) => {
            asked.list(&answers);
            fill(&file, out, needed)
        }
        Err(error) => report_cause(error, fault),
    }
}

/// A name, or None if it is empty.
fn named(name: &str) -> Option<&str>
    ensures { option_map (λ text. text.now) result ≡ text_or_none name.now }
{
    if name.is_empty() {
        return None;
    }
    Some(name)
}

/// Writes the cause for which an object is not rewritten, and returns the status.
fn report_cause(error: SanitizeError, fault: &mut Fault) -> u32
    ensures { ReportsCause result fault.new error }
{
    match error {
        SanitizeError::Object(ObjectError::Parse(error)) => report_parse(error, fault),
        SanitizeError::NoTable => report_number(fault, NO_TABLE, 0, 0),
        SanitizeError::Table(error) => report(error, fault),
        SanitizeError::Section(ReplaceError::NoSuchSection { .. })
        | SanitizeError::Section(ReplaceError::NotReplaceable { .. }) => {
            report_number(fault, NOT_REPLACEABLE, 0, 0)
        }
        SanitizeError::Object(ObjectError::OutOfMemory)
        | SanitizeError::Section(ReplaceError::OutOfMemory)
        | SanitizeError::OutOfMemory => report_number(fault, OUT_OF_MEMORY, 0, 0),
    }
}

/// Writes why the bytes are no object, and returns the status.
pub(crate) fn report_parse(error: ParseError, fault: &mut Fault) -> u32
    ensures { ReportsNumber result fault.new 104
        (record no_details { id = parse_place error; offset = parse_detail error }) }
{
    report_number(fault, NOT_AN_OBJECT, place(&error), detail(&error))
}

/// The position of an error in `ParseError`, from 1 on.
fn place(error: &ParseError) -> u32
    ensures { result ≡ parse_place error.now }
{
    match error {
        ParseError::NotElf => 1,
        ParseError::UnsupportedClass { .. } => 2,
        ParseError::UnsupportedEncoding { .. } => 3,
        ParseError::UnsupportedVersion => 4,
        ParseError::BadHeaderSize => 5,
        ParseError::SectionTableOutOfRange => 6,
        ParseError::SectionOutOfRange { .. } => 7,
        ParseError::SectionOverHeaders { .. } => 8,
        ParseError::BadNameTable => 9,
        ParseError::BadSectionName { .. } => 10,
        ParseError::BadSymbolTable => 11,
        ParseError::BadSymbolName { .. } => 12,
    }
}

/// The detail of an error in `ParseError`: a class, an encoding, or the index of a section or symbol; otherwise 0.
fn detail(error: &ParseError) -> u64
    ensures { result ≡ parse_detail error.now }
{
    match error {
        ParseError::UnsupportedClass { class } => *class as u64,
        ParseError::UnsupportedEncoding { encoding } => *encoding as u64,
        ParseError::SectionOutOfRange { index }
        | ParseError::SectionOverHeaders { index }
        | ParseError::BadSectionName { index }
        | ParseError::BadSymbolName { index } => *index as u64,
        _ => 0,
    }
}
