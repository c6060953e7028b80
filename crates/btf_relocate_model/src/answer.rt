//! What a table has for a record.

use crate::field::{Field, Value};

/// What a table has for what a record is about.
#[derive(Clone, Copy, Debug, PartialEq, Eq)]
pub enum Match {
    /// A field.
    AtField(Field),
    /// The type of this id.
    AtType(u32),
    /// An enumerator of this value.
    AtEnumerator(u64),
}

/// The answer of a candidate: the first bit of the field, and the value.
#[derive(Clone, Copy, Debug, PartialEq, Eq)]
pub struct Answer {
    /// The first bit of the field; 0 for a type or an enumerator.
    pub bit: u32,
    /// The value.
    pub value: Value,
}
