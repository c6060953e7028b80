//! Split BTF, which continues a base table.

use crate::fault::Fault;
use crate::input_file::InputFile;
use btf_plain::BtfKind;
use btf_records::BtfType;
use btf_table::{Btf, readable_end, string_section, type_count};
use btf_view::TypeWords;
use std::alloc::Global;

/// What a table has. The names and ids of split BTF begin after those of its base table, so few of those that its types
/// name are in the table itself.
#[derive(Clone, Copy)]
pub struct Bounds {
    // A name can be read at each offset below this end.
    names_end: usize,
    types: u32,
}

impl Bounds {
    /// The bounds of a table with these strings and this many types.
    pub fn new(strings: &[u8], types: u32) -> Bounds {
        Bounds {
            names_end: readable_end(strings),
            types,
        }
    }

    /// Whether a type's name of this string offset, or the type of this id that it refers to, is not in the table.
    #[inline(always)]
    pub fn exclude(&self, name: u32, referred: u32) -> bool {
        name as usize >= self.names_end || referred >= self.types
    }
}

/// The id of the one type that a type refers to; 0 if it refers to none or to many, or is a function.
#[inline(always)]
pub fn referred(words: &TypeWords) -> u32 {
    match BtfKind::try_from(words.kind) {
        Ok(
            BtfKind::Ptr
            | BtfKind::Typedef
            | BtfKind::Volatile
            | BtfKind::Const
            | BtfKind::Restrict
            | BtfKind::FuncProto
            | BtfKind::Var
            | BtfKind::DeclTag
            | BtfKind::TypeTag,
        ) => words.size_or_type,
        _ => 0,
    }
}

/// Whether a table that was parsed continues a base.
pub fn is_split(table: &Btf) -> bool {
    let bounds = Bounds::new(string_section(table), type_count(table));
    for btf_type in table.types() {
        if bounds.exclude(btf_type.name_offset(), btf_type.btf_type().unwrap_or(0)) {
            return true;
        }
    }
    false
}

/// The table of a file, if it has one.
pub fn table_of(alloc: Global, bytes: &[u8]) -> Option<Btf> {
    match InputFile::read(alloc, bytes) {
        Ok(input) => input.table(alloc).ok(),
        Err(_) => None,
    }
}

/// Whether a table has what its types name, in itself or in its base, whose types are at its beginning. The error is
/// `Split` without a base, and `OtherBase` with one.
pub fn check_base(table: &Btf, base: Option<&Btf>) -> Result<(), Fault> {
    match base {
        Some(base) => match first_misfit(table, type_count(base)) {
            Some(type_id) => Err(Fault::OtherBase(type_id)),
            None => Ok(()),
        },
        None if is_split(table) => Err(Fault::Split),
        None => Ok(()),
    }
}

/// The first type from an id on that does not fit the base of a table: a name of the type or of its items does not
/// begin where a string begins, or the type refers to an id that the table does not have. Writers of BTF store each
/// string whole, and over the strings of another base most offsets are inside of one.
fn first_misfit(table: &Btf, first: u32) -> Option<u32> {
    let (strings, count) = (string_section(table), type_count(table));
    for (id, btf_type) in (0..count).zip(table.types()).skip(first as usize) {
        let target = btf_type.btf_type().unwrap_or(0);
        if target >= count || !has_whole_names(strings, btf_type) {
            return Some(id);
        }
    }
    None
}

/// Whether the names of a type and of its items begin where strings begin.
fn has_whole_names(strings: &[u8], btf_type: &BtfType) -> bool {
    if !begins_string(strings, btf_type.name_offset()) {
        return false;
    }
    match btf_type {
        BtfType::Struct(t) => t
            .members()
            .iter()
            .all(|it| begins_string(strings, it.name_offset)),
        BtfType::Union(t) => t
            .members()
            .iter()
            .all(|it| begins_string(strings, it.name_offset)),
        BtfType::Enum(t) => t
            .variants()
            .iter()
            .all(|it| begins_string(strings, it.name_offset)),
        BtfType::Enum64(t) => t
            .variants()
            .iter()
            .all(|it| begins_string(strings, it.name_offset)),
        BtfType::FuncProto(t) => t
            .params()
            .iter()
            .all(|it| begins_string(strings, it.name_offset)),
        _ => true,
    }
}

/// Whether a string begins at an offset: the byte before it is the zero byte of another one.
fn begins_string(strings: &[u8], offset: u32) -> bool {
    match offset.checked_sub(1) {
        Some(before) => matches!(strings.get(before as usize..), Some([0, _, ..])),
        None => true,
    }
}
