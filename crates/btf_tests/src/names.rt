//! Names of types.

use crate::words::Words;
use btf::{Btf, BtfStr};

/// Whether a text is lent by its table.
fn lent(text: &BtfStr<'_>) -> &'static str {
    match text {
        BtfStr::Borrowed(_) => "lent",
        BtfStr::Owned(_) => "made",
    }
}

/// The name of a type, whether the table lends it, and the name for errors.
fn texts(words: &Words<'_>, table: &Btf, id: u32) -> anyhow::Result<String> {
    let record = table.type_by_id(id)?;
    let shown = table.err_type_name(record)?;
    let named = table.type_name(record)?;
    Ok(format!(in words.alloc; "{:?} {} {shown:?}", named.as_str(), lent(&named))?)
}

/// `names ORDER TABLE ID`
pub fn names(words: &mut Words<'_>) -> anyhow::Result<String> {
    let table = words.table()?;
    let id = words.number();
    texts(words, &table, id)
}
