//! A dump of the types of a table, in the form of `bpftool btf dump file FILE format raw` of bpftool 7.1.

mod line;
mod list;
mod selection;

use crate::dump::line::write_type;
pub use crate::dump::line::{kind_name, write_type_line};
pub use crate::dump::selection::Selection;
use crate::error::TextError;
use btf_table::Btf;
use std::fmt::Write;

/// Writes the selected types in rising order of ids: a line for each type, and a line for each of its members,
/// variants, parameters or variables. The text equals the output of `bpftool btf dump file FILE format raw` of bpftool
/// 7.1, except for names that are not UTF-8, which are written as `Btf::string_at` reads them.
///
/// Returns whether a type was selected. The error is `Write` if the writer fails, and `Table` with `OutOfMemory` if an
/// allocation fails. Only a name that is not UTF-8 needs an allocation.
pub fn write_dump<W: Write>(
    table: &Btf,
    selection: &Selection<'_>,
    out: &mut W,
) -> Result<bool, TextError> {
    let mut is_any = false;
    for (id, btf_type) in table.types().enumerate() {
        if id > 0 && selection.has(table, id, btf_type)? {
            write_type(out, table, id, btf_type)?;
            is_any = true;
        }
    }
    Ok(is_any)
}
