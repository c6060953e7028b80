//! Orders of declarations, and what tells a split table from another one.

use crate::words::Words;
use btf_order::header_order;
use btf_split::looks_split;
use std::fmt::Write;

/// `declarations ORDER TABLE`: the ids in the order of the declarations of a header, or the error.
pub fn declarations(words: &mut Words<'_>) -> anyhow::Result<String> {
    let table = words.table()?;
    let mut text = String::new(words.alloc);
    match header_order(&table) {
        Ok(ids) => {
            for id in &ids {
                write!(text, "{id} ")?;
            }
        }
        Err(error) => write!(text, "{error:?}")?,
    }
    Ok(text)
}

/// `looks_split ORDER BYTES`
pub fn looks(words: &mut Words<'_>) -> anyhow::Result<String> {
    let order = words.order();
    let bytes = words.bytes()?;
    Ok(format!(in words.alloc; "{}", looks_split(&bytes, order))?)
}
