//! The rewrite of a table for a request.

ghost use Rattle.std.specs.Prelude.{◌≡◌, ℕ, List, IfOk, IfErr, IfSome, IfNone};
ghost use Rattle.btf_plain.specs.Error.{refusal_of};
ghost use Rattle.btf_table.specs.Layout.{sizes_of, offsets_of};
ghost use Rattle.btf_cli.specs.Answer.{rewriting, IsAnswer, IsDeclined};
ghost use Rattle.btf_cli.specs.Request.{AreSet, asks_feature};
ghost use Rattle.btf_cli.specs.Setting.{Setting, SectionSize, SymbolOffset, Sets, word_texts};
ghost use Rattle.btf_cli.specs.Settings.{SetOffsets, SetSizes};

use crate::request::Request;
use crate::word::Word;
use btf_plain::{BtfError, Endianness, SectionIndex};
use btf_table::{BtfFeature, BtfFeatureResolver, rewrite_bytes_with};
use std::alloc::{AllocError, Global};
use std::collections::HashMap;

/// The name and the size of a section in a word, if it gives these.
fn read_section(word: &str) -> Option<(&str, u64)>
    ensures some { IfSome result (λ named. Sets word.now (SectionSize named.0.now named.1)) }
    ensures none { IfNone result
        ((name : List ℕ) (size : ℕ) → Sets word.now (SectionSize name size) → ⊥) }
{
    match Word::read(word)? {
        Word::Section { name, size } => Some((name, size)),
        _ => None,
    }
}

/// The name and the offset of a symbol in a word, if it gives these.
fn read_symbol(word: &str) -> Option<(&str, u64)>
    ensures some { IfSome result (λ named. Sets word.now (SymbolOffset named.0.now named.1)) }
    ensures none { IfNone result
        ((name : List ℕ) (offset : ℕ) → Sets word.now (SymbolOffset name offset) → ⊥) }
{
    match Word::read(word)? {
        Word::Symbol { name, offset } => Some((name, offset)),
        _ => None,
    }
}

/// The sizes of the sections that the words name. Their indices are not used.
fn sections(
    alloc: Global,
    words: &[String],
) -> Result<HashMap<String, (SectionIndex, u64)>, AllocError>
    ensures { IfOk result (λ sections. SetSizes (word_texts words.now) (sizes_of sections)) }
{
    let mut sections = HashMap::new(alloc);
    for word in words {
        if let Some((name, size)) = read_section(word.as_str()) {
            sections.insert(name.to_string(alloc)?, (SectionIndex(0), size))?;
        }
    }
    Ok(sections)
}

/// The offsets of the symbols that the words name.
fn symbols(alloc: Global, words: &[String]) -> Result<HashMap<String, u64>, AllocError>
    ensures { IfOk result (λ symbols. SetOffsets (word_texts words.now) (offsets_of symbols)) }
{
    let mut symbols = HashMap::new(alloc);
    for word in words {
        if let Some((name, offset)) = read_symbol(word.as_str()) {
            symbols.insert(name.to_string(alloc)?, offset)?;
        }
    }
    Ok(symbols)
}

/// The bytes of the table that a blob represents, rewritten for a request.
pub fn rewrite_blob(
    alloc: Global,
    endianness: Endianness,
    request: Request,
    blob: &[u8],
) -> Result<Vec<u8>, BtfError>
    requires { (settings : List Setting) × AreSet request settings }
    ensures made { IfOk result (λ v. IsAnswer
        (rewriting endianness request.entry) blob.now v.items) }
    ensures reported { IfErr result (λ e. IfSome (refusal_of e)
        (IsDeclined (rewriting endianness request.entry) blob.now)) }
{
    let sections = sections(alloc, request.words)?;
    let symbols = symbols(alloc, request.words)?;
    let is_granted = |feature: BtfFeature| -> bool
        ensures { result ≡ asks_feature request.entry feature }
    { request.grants(feature) };
    let mut resolver = BtfFeatureResolver::new(is_granted);
    let (bytes, _) = rewrite_bytes_with(
        alloc,
        blob,
        endianness,
        &sections,
        &symbols,
        request.ksyms,
        request.policy(),
        &mut resolver,
    )?;
    Ok(bytes)
}
