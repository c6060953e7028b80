//! A table as a C header, as `bpftool btf dump file FILE format c` of bpftool 7.1 writes it.

mod declaration;
mod definition;
mod draft;
mod enumeration;
mod identifier;
mod members;
mod names;
mod needed;
mod padding;
mod params;
mod prefix;
mod spelling;
mod task;
mod tree;
mod uses;
mod walk;

use crate::error::TextError;
use crate::header::draft::Draft;
use crate::header::needed::Needed;
use crate::header::walk::Walk;
use btf_order::header_order;
use btf_table::Btf;
use std::alloc::Global;
use std::fmt::Write;

/// The lines before the first declaration.
const BEGINNING: &str = "#ifndef __VMLINUX_H__\n\
    #define __VMLINUX_H__\n\n\
    #ifndef BPF_NO_PRESERVE_ACCESS_INDEX\n\
    #pragma clang attribute push (__attribute__((preserve_access_index)), apply_to = record)\n\
    #endif\n\n";

/// The lines after the last declaration.
const END: &str = "#ifndef BPF_NO_PRESERVE_ACCESS_INDEX\n\
    #pragma clang attribute pop\n\
    #endif\n\n\
    #endif /* __VMLINUX_H__ */\n";

/// The types that a header declares.
#[derive(Clone, Copy, Debug)]
pub enum HeaderTypes<'a> {
    /// All types of the table.
    All,
    /// The types of these ids, and the types that they need.
    Needed(&'a [u32]),
}

/// Writes types of a table as a C header, from which a compiler makes the same types.
///
/// The text equals the text of `bpftool btf dump file FILE format c` of bpftool 7.1, except where that does not give
/// the same types: names that are no identifiers of C are escaped, an enumeration of 1, 2 or 8 bytes has the attribute
/// for its size, and the type of argument lists of another machine is written out.
///
/// The errors are `Table` with
///
/// - the errors of `header_order`, which are about the whole table: `UnknownBtfType` of an unknown id, and
///   `MaximumTypeDepthReached` of a type that contains itself;
/// - `UnknownBtfType` of a selected id that is unknown;
/// - `MaximumTypeDepthReached` of a type that has 32 pointers, arrays, prototypes and modifiers around its base;
/// - `UnexpectedBtfType` of a type to which a declaration refers and which is no type of C, such as a FUNC;
///
/// and `TooLong` if types without a name are used too often or gaps are too large, `Write` if the writer fails, and
/// `OutOfMemory`. Memory is linear in the records of the table and in its longest name. Time is linear in the records
/// and in the text, times the logarithm of the number of names.
pub fn write_header<W: Write>(
    alloc: Global,
    table: &Btf,
    types: &HeaderTypes<'_>,
    out: &mut W,
) -> Result<(), TextError> {
    let order = header_order(table)?;
    let needed = match types {
        HeaderTypes::All => None,
        HeaderTypes::Needed(type_ids) => Some(Needed::of(alloc, table, type_ids)?),
    };
    out.write_str(BEGINNING)?;
    declare_all(alloc, table, order.as_slice(), needed.as_ref(), out)?;
    out.write_str(END)?;
    Ok(())
}

/// Declares the types of these ids that are needed, in this order.
fn declare_all<W: Write>(
    alloc: Global,
    table: &Btf,
    order: &[u32],
    needed: Option<&Needed>,
    out: &mut W,
) -> Result<(), TextError> {
    let mut draft = Draft::new(alloc, table, out)?;
    let mut walk = Walk::new(alloc, table)?;
    for type_id in order {
        if needed.is_none_or(|needed| needed.has(*type_id)) {
            walk.declare(&mut draft, *type_id)?;
        }
    }
    Ok(())
}
