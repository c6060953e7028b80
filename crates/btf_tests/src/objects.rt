//! Objects that are rewritten for a kernel, and what a rewrite reads from them.

use crate::words::{FEATURES, Words};
use btf_elf::Object;
use btf_loader::{CandidatePolicy, Refusals, Target, prepare_object};
use btf_object::{
    FillPolicy, Kernel, ObjectLayout, TableReader, ksyms_of, sanitize_finalized,
    sanitize_object_with,
};
use std::alloc::AllocError;
use std::fmt::Write;
use std::hash::{BuildHasherDefault, FoldHasher};

/// A hasher with a fixed seed.
fn fixed_keys() -> BuildHasherDefault<FoldHasher> {
    BuildHasherDefault::new()
}

/// The kernel of a version; one without features for another text.
fn kernel_of(version: &str) -> Kernel {
    Kernel::of_version(version).unwrap_or(Kernel::new())
}

/// A name; None for `-`.
fn named(word: &str) -> Option<&str> {
    (word != "-").then_some(word)
}

/// Writes the features of a kernel.
fn write_features(text: &mut String, kernel: &Kernel) -> Result<(), AllocError> {
    for (feature, name) in &FEATURES {
        if kernel.has(*feature) {
            write!(text, "{name} ")?;
        }
    }
    Ok(())
}

/// `kernel TEXT`: the features of the kernel of a version, whose text is in hexadecimal digits.
pub fn kernel(words: &mut Words<'_>) -> anyhow::Result<String> {
    let bytes = words.bytes()?;
    let mut text = String::new(words.alloc);
    let written = match Kernel::of_version(str::from_utf8(&bytes)?) {
        Some(kernel) => write_features(&mut text, &kernel),
        None => text.push_str("no version"),
    };
    written?;
    Ok(text)
}

/// The kernel that gets the features of some names one by one.
fn with_features(names: &str) -> Kernel {
    let mut kernel = Kernel::new();
    for word in names.split(',') {
        for (feature, _) in FEATURES.iter().filter(|it| it.1 == word) {
            kernel = kernel.with(*feature);
        }
    }
    kernel
}

/// `kernel_with NAMES NAMES`: the features of the kernel that gets the first ones one by one, and whether it is the one
/// that gets the others.
pub fn kernel_with(words: &mut Words<'_>) -> anyhow::Result<String> {
    let kernel = with_features(words.word());
    let mut text = String::new(words.alloc);
    write_features(&mut text, &kernel)?;
    let same = kernel == with_features(words.word());
    write!(text, "{same}")?;
    Ok(text)
}

/// `layout FILE section|symbol NAME`: the size and the index of a section, or the offset of a symbol, that a rewrite
/// reads.
pub fn layout(words: &mut Words<'_>) -> anyhow::Result<String> {
    let bytes = words.bytes()?;
    let object = Object::parse(words.alloc, &bytes)?;
    let layout = ObjectLayout::read(words.alloc, &object, fixed_keys())?;
    let (part, name) = (words.word(), words.word());
    let text = match part {
        "section" => match layout.sections.get(name) {
            Some((index, size)) => format!(in words.alloc; "{size} in {index:?}"),
            None => "none".to_string(words.alloc),
        },
        _ => format!(in words.alloc; "{:?}", layout.symbols.get(name)),
    };
    Ok(text?)
}

/// `ksyms_of ORDER TABLE PLACEHOLDER`: the ids of the kernel's symbols.
pub fn ksyms_ids(words: &mut Words<'_>) -> anyhow::Result<String> {
    let table = words.table()?;
    let ids = ksyms_of(&table, named(words.word()))?;
    let text = match ids {
        Some(ids) => format!(in words.alloc; "{} {:?}", ids.datasec_id, ids.placeholder_id),
        None => "none".to_string(words.alloc),
    };
    Ok(text?)
}

/// `sanitized FILE VERSION PLACEHOLDER`: the object for the kernel of a version.
pub fn sanitized(words: &mut Words<'_>) -> anyhow::Result<String> {
    let alloc = words.alloc;
    let file = words.bytes()?;
    let kernel = kernel_of(words.word());
    let (policy, name) = (FillPolicy::KeepSized, named(words.word()));
    let (new, _) = sanitize_object_with(alloc, &file, &kernel, policy, name, fixed_keys())?;
    Ok(hex::encode(alloc, new)?)
}

/// Who reads the table of a rewritten object.
fn reader_named(word: &str) -> TableReader {
    match word {
        "loaders" => TableReader::Loaders,
        _ => TableReader::Kernel,
    }
}

/// `finalized FILE VERSION kernel|loaders`: the same for this reader after its table is finalized, and whether this is
/// the same of the result.
pub fn finalized(words: &mut Words<'_>) -> anyhow::Result<String> {
    let alloc = words.alloc;
    let file = words.bytes()?;
    let kernel = kernel_of(words.word());
    let reader = reader_named(words.word());
    let (new, _) = sanitize_finalized(alloc, &file, &kernel, reader, fixed_keys())?;
    let (again, _) = sanitize_finalized(alloc, &new, &kernel, reader, fixed_keys())?;
    let same = again == new;
    let digits = hex::encode(alloc, new)?;
    Ok(format!(in alloc; "{same} {}", digits.as_str())?)
}

/// `prepared FILE ORDER TABLE VERSION`: the object that is relocated for a table, and then rewritten for a kernel.
pub fn prepared(words: &mut Words<'_>) -> anyhow::Result<String> {
    let alloc = words.alloc;
    let file = words.bytes()?;
    let table = words.table()?;
    let target = Target::new(alloc, &table)?;
    let kernel = kernel_of(words.word());
    let (policy, refusals) = (CandidatePolicy::Shared, Refusals::Refuse);
    let fill = FillPolicy::KeepSized;
    let done = prepare_object(alloc, &file, &target, policy, refusals, &kernel, fill)?;
    Ok(hex::encode(alloc, done.file)?)
}
