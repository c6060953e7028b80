//! Rewrites from bytes to bytes, and the questions of a resolver to its predicate.

use crate::words::{FEATURES, Words, name_of};
use btf::{
    BtfFeature, BtfFeatureResolver, FeatureAnswer, FillPolicy, KsymsIds, SectionIndex,
    rewrite_bytes, rewrite_bytes_with,
};
use std::alloc::Global;
use std::collections::HashMap;
use std::fmt::Write;

type Sections = HashMap<String, (SectionIndex, u64)>;

type Symbols = HashMap<String, u64>;

/// The names and numbers of a word `NAME=NUMBER,..`; `-` has none.
fn symbols(alloc: Global, word: &str) -> anyhow::Result<Symbols> {
    let mut symbols = HashMap::new(alloc);
    for (name, number) in word.split(',').filter_map(|it| it.split_once('=')) {
        symbols.insert(name.to_string(alloc)?, number.parse().unwrap_or(0))?;
    }
    Ok(symbols)
}

fn sections(alloc: Global, word: &str) -> anyhow::Result<Sections> {
    let mut sections = HashMap::new(alloc);
    for (name, number) in word.split(',').filter_map(|it| it.split_once('=')) {
        let size = (SectionIndex(0), number.parse().unwrap_or(0));
        sections.insert(name.to_string(alloc)?, size)?;
    }
    Ok(sections)
}

/// Whether a list of names `NAME,..` has a feature's; `all` has each.
fn has(granted: &str, feature: BtfFeature) -> bool {
    granted == "all" || granted.split(',').any(|it| it == name_of(feature))
}

/// The features of answers, each with a plus if it was granted.
fn answers_text(alloc: Global, answers: &[FeatureAnswer]) -> anyhow::Result<String> {
    let mut text = String::new(alloc);
    for answer in answers {
        let sign = if answer.granted { "+" } else { "-" };
        write!(text, "{}{sign} ", name_of(answer.feature))?;
    }
    Ok(text)
}

/// The ids of the kernel's symbols: those of the DATASEC, and of the placeholder; none for 0.
fn ids(words: &mut Words<'_>) -> Option<KsymsIds> {
    let (datasec_id, placeholder) = (words.number(), words.number());
    let placeholder_id = (placeholder > 0).then_some(placeholder);
    (datasec_id > 0).then_some(KsymsIds {
        datasec_id,
        placeholder_id,
    })
}

/// `rewrite_bytes ORDER BYTES SECTIONS SYMBOLS GRANTED DATASEC PLACEHOLDER keep|fill`: the features that were asked
/// about, and the new bytes or the error.
pub fn bytes(words: &mut Words<'_>) -> anyhow::Result<String> {
    let alloc = words.alloc;
    let order = words.order();
    let data = words.bytes()?;
    let (sections, symbols) = (
        sections(alloc, words.word())?,
        symbols(alloc, words.word())?,
    );
    let granted = words.word();
    let ksyms = ids(words);
    let mut resolver = BtfFeatureResolver::new(|feature| has(granted, feature));
    let written = match words.word() {
        "fill" => rewrite_bytes_with(
            alloc,
            &data,
            order,
            &sections,
            &symbols,
            ksyms,
            FillPolicy::FillSized,
            &mut resolver,
        ),
        _ => rewrite_bytes(
            alloc,
            &data,
            order,
            &sections,
            &symbols,
            ksyms,
            &mut resolver,
        ),
    };
    let mut text = answers_text(alloc, resolver.answers())?;
    match written {
        Ok((bytes, _)) => write!(text, "{}", hex::encode(alloc, bytes)?.as_str()),
        Err(e) => write!(text, "{e}"),
    }?;
    Ok(text)
}

/// Whether the word `yes,no,..` says yes at a position.
fn says(word: &str, position: u32) -> bool {
    word.split(',').nth(position as usize) == Some("yes")
}

/// `rewrite_by_call TABLE ANSWERS`: the same for a predicate whose nth call has the nth answer, with the number of
/// calls and without sections and symbols.
pub fn by_call(words: &mut Words<'_>) -> anyhow::Result<String> {
    let alloc = words.alloc;
    let mut table = words.table()?;
    let answers = words.word();
    let mut calls = 0u32;
    let mut resolver = BtfFeatureResolver::new(|_| {
        calls = calls.wrapping_add(1);
        says(answers, calls.wrapping_sub(1))
    });
    let (sections, symbols) = (sections(alloc, "-")?, symbols(alloc, "-")?);
    let found = table.fixup_and_sanitize(&sections, &symbols, None, &mut resolver)?;
    let mut text = answers_text(alloc, found.as_slice())?;
    let digits = hex::encode(alloc, table.to_bytes()?)?;
    write!(text, "{calls} {}", digits.as_str())?;
    Ok(text)
}

/// `asked NAMES ANSWERS`: what a resolver says of features in turn, if the nth call of its predicate has the nth
/// answer; what it remembers, and the number of calls.
pub fn asked(words: &mut Words<'_>) -> anyhow::Result<String> {
    let alloc = words.alloc;
    let (names, answers) = (words.word(), words.word());
    let mut calls = 0u32;
    let mut resolver = BtfFeatureResolver::new(|_| {
        calls = calls.wrapping_add(1);
        says(answers, calls.wrapping_sub(1))
    });
    let mut text = String::new(alloc);
    for name in names.split(',') {
        for (feature, _) in FEATURES.iter().filter(|it| it.1 == name) {
            write!(text, "{} ", resolver.is_supported(*feature))?;
        }
    }
    let remembered = answers_text(alloc, resolver.answers())?;
    let default = FeatureAnswer::default();
    write!(
        text,
        "{}{calls} {:?} {}",
        remembered.as_str(),
        default.feature,
        default.granted
    )?;
    Ok(text)
}
