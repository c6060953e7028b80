//! The selection of the types that are written.

use crate::error::TextError;
use crate::word::text_at;
use btf_plain::BtfKind;
use btf_records::BtfType;
use btf_table::{Btf, allocator_of, type_count};

/// A selection of types of a table: the types that meet all of the given conditions.
#[derive(Clone, Copy, Debug, Default)]
pub struct Selection<'a> {
    /// The least id.
    pub from: Option<u32>,
    /// The end of the ids, exclusive.
    pub to: Option<u32>,
    /// The name of the type.
    pub name: Option<&'a str>,
    /// The kind of the type.
    pub kind: Option<BtfKind>,
}

impl Selection<'_> {
    /// The ids of the selected types of a table, in rising order; id 0 is none of them. `OutOfMemory` is the only
    /// error.
    pub fn ids(&self, table: &Btf) -> Result<Vec<u32>, TextError> {
        let mut ids = Vec::new(allocator_of(table));
        for (id, btf_type) in (0..type_count(table)).zip(table.types()) {
            if id > 0 && self.has(table, id as usize, btf_type)? {
                ids.push(id)?;
            }
        }
        Ok(ids)
    }

    /// Whether a type of a table is selected. `OutOfMemory` is the only error.
    pub(crate) fn has(
        &self,
        table: &Btf,
        id: usize,
        btf_type: &BtfType,
    ) -> Result<bool, TextError> {
        if !self.has_id(id) || self.kind.is_some_and(|kind| kind != btf_type.kind()) {
            return Ok(false);
        }
        match self.name {
            Some(name) => has_name(table, btf_type, name),
            None => Ok(true),
        }
    }

    /// Whether an id is selected.
    fn has_id(&self, id: usize) -> bool {
        self.from.is_none_or(|from| from as usize <= id)
            && self.to.is_none_or(|to| id < to as usize)
    }
}

/// Whether a type has this name. `OutOfMemory` is the only error.
fn has_name(table: &Btf, btf_type: &BtfType, name: &str) -> Result<bool, TextError> {
    match text_at(table, btf_type.name_offset())? {
        Some(text) => Ok(text.as_str() == name),
        None => Ok(false),
    }
}
