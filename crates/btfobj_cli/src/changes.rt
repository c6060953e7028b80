//! The changes that a rewrite would make.

ghost use Rattle.std.specs.Prelude.{◌≡◌, IfOk};
ghost use Rattle.std.specs.Option.{option_map};
ghost use Rattle.btfobj_cli.specs.Changes.{Checks, has_changed, lacks_any};

use crate::fault::Fault;
use crate::input_file::InputFile;
use crate::rewrite::{Rewrite, sanitize_parsed_input};
use btf_model::Endianness;
use btf_records::BtfType;
use btf_rewrite_model::{FeatureAnswer, feature_name};
use btf_table::Btf;
use btf_text::{TextBuffer, write_type_line};
use std::alloc::Global;
use std::hash::BuildHasher;
use std::{fmt, io};

/// The result of a check.
#[derive(Clone, Copy, Debug, PartialEq, Eq)]
pub struct Checked {
    /// Whether the table needs a feature that the kernel lacks.
    pub lacks: bool,
    /// Whether a rewrite changes or adds a type. The sizes and offsets of a DATASEC change for every kernel that has
    /// DATASECs, so this does not mean that the kernel lacks something.
    pub changes: bool,
}

/// Writes a line for each feature that a file's table needs, with whether the kernel has the feature, and a line for
/// each type that a rewrite for the kernel changes or adds; with a base, of the types above it. Returns whether there
/// is a feature that the kernel lacks, and whether there is such a type. The errors are those of `sanitize` and `Write`.
pub fn check<W: io::Write, H: BuildHasher + Clone + Drop>(
    alloc: Global,
    bytes: &[u8],
    base: Option<&Btf>,
    rewrite: &Rewrite<'_>,
    hash_builder: H,
    out: &mut W,
) -> Result<Checked, Fault>
    ensures { IfOk result
        (Checks bytes.now (option_map (λ b. b.now) base.entry) rewrite.now) }
{
    let input = InputFile::read(alloc, bytes)?;
    let old = input.whole_table_over(alloc, base)?;
    let (written, answers) = sanitize_parsed_input(
        alloc,
        &input,
        &old,
        base,
        rewrite,
        hash_builder,
    )?;
    let new = InputFile::read(alloc, &written)?.table_over(alloc, base)?;
    let mut text = TextBuffer::new(out);
    write_features(answers.as_slice(), &mut text)?;
    let changes = write_changes(alloc, &old, &new, &mut text)?;
    text.flush()?;
    let lacks = lacks_any(answers.as_slice());
    Ok(Checked { lacks, changes })
}

/// Whether one of these features is not granted.
fn lacks_any(answers: &[FeatureAnswer]) -> bool
    ensures { result ≡ lacks_any answers.now }
{
    answers.iter().any(|answer| !answer.granted)
}

/// Writes a line for each feature.
fn write_features<W: fmt::Write>(answers: &[FeatureAnswer], out: &mut W) -> fmt::Result {
    for answer in answers {
        let feature = feature_name(answer.feature);
        let lack = if answer.granted {
            ""
        } else {
            ", and the kernel lacks it"
        };
        writeln!(out, "{feature}: needed{lack}")?;
    }
    Ok(())
}

/// Writes a line for each type of the new table that differs from the old table's, and returns whether there is one.
fn write_changes<W: fmt::Write>(
    alloc: Global,
    old: &Btf,
    new: &Btf,
    out: &mut W,
) -> Result<bool, Fault>
    ensures { IfOk result (λ changes. changes ≡ has_changed old.now.records new.now.records) }
{
    let mut spelled = Spelled::new(alloc);
    let mut changes = false;
    let old_types = old.types().as_slice();
    let new_types = new.types().as_slice();
    for id in 0..new_types.len() {
        let new_type = &new_types[id];
        let is_changed = spelled.is_changed(old_types, id, new_type)?;
        if is_changed {
            write!(out, "[{id}] ")?;
            write_changed(alloc, (old, old_types.get(id)), (new, new_type), out)?;
        }
        changes = changes || is_changed;
    }
    Ok(changes)
}

/// Writes a change or an addition of a type.
fn write_changed<W: fmt::Write>(
    alloc: Global,
    old: (&Btf, Option<&BtfType>),
    new: (&Btf, &BtfType),
    out: &mut W,
) -> Result<(), Fault> {
    match old.1 {
        Some(old_type) => write_change(alloc, (old.0, old_type), new, out),
        None => write_addition(new.0, new.1, out),
    }
}

/// Writes a change of a type.
fn write_change<W: fmt::Write>(
    alloc: Global,
    old: (&Btf, &BtfType),
    new: (&Btf, &BtfType),
    out: &mut W,
) -> Result<(), Fault> {
    let (mut before, mut after) = (String::new(alloc), String::new(alloc));
    write_type_line(old.0, old.1, &mut before)?;
    write_type_line(new.0, new.1, &mut after)?;
    let (before, after) = (before.as_str(), after.as_str());
    let (verb, after) = if before == after {
        ("changes in its list", "")
    } else {
        ("becomes ", after)
    };
    writeln!(out, "{before} {verb}{after}")?;
    Ok(())
}

/// Writes an addition of a type.
fn write_addition<W: fmt::Write>(new: &Btf, btf_type: &BtfType, out: &mut W) -> Result<(), Fault> {
    write_type_line(new, btf_type, out)?;
    out.write_str(" is added\n")?;
    Ok(())
}

/// The bytes of an old type and of a new one, in buffers that are reused.
#[derive(Drop)]
struct Spelled {
    old: Vec<u8>,
    new: Vec<u8>,
}

impl Spelled {
    ghost use Rattle.std.specs.Prelude.{◌≡◌, map, slice_get, IfOk};
    ghost use Rattle.btf_records.specs.BtfType.{record_of};
    ghost use Rattle.btfobj_cli.specs.Changes.{is_changed};

    /// Empty buffers.
    fn new(alloc: Global) -> Spelled {
        Spelled {
            old: Vec::new(alloc),
            new: Vec::new(alloc),
        }
    }

    /// Whether a type differs from the old type of its id, or there is no such type.
    fn is_changed(&mut self, old: &[BtfType], id: usize, new: &BtfType) -> Result<bool, Fault>
        ensures { IfOk result (λ changed. changed
            ≡ is_changed (slice_get (map record_of old.now) id) (record_of new.now)) }
    {
        let Some(old) = old.get(id) else {
            return Ok(true);
        };
        self.old.clear();
        self.new.clear();
        old.append_to(&mut self.old, Endianness::Little)?;
        new.append_to(&mut self.new, Endianness::Little)?;
        Ok(self.old.as_slice() != self.new.as_slice())
    }
}
