//! The step that changes the kernel's symbols to ordinary variables.

use crate::words::Words;
use std::fmt::Write;

/// `ksyms ORDER TABLE DATASEC PLACEHOLDER`: the error if there is one, and the table after the step.
pub fn step(words: &mut Words<'_>) -> anyhow::Result<String> {
    let alloc = words.alloc;
    let mut table = words.table()?;
    let datasec = words.number();
    let placeholder = match words.word() {
        "-" => None,
        id => Some(id.parse().unwrap_or(0)),
    };
    let mut text = String::new(alloc);
    if let Err(e) = table.fixup_ksyms_datasec(datasec, placeholder) {
        write!(text, "{e:?} ")?;
    }
    let digits = hex::encode(alloc, table.to_bytes()?)?;
    text.push_str(digits.as_str())?;
    Ok(text)
}
