//! The columns of the lines of members.

use crate::error::TextError;

/// The width of the types of members.
const TYPE_WIDTH: usize = 26;

/// The decrease of the width of types in each nested structure.
const NESTED_WIDTH: usize = 8;

/// The width of the names of a structure's members.
const NAME_WIDTH: usize = 23;

/// The width of the names of members of an outermost union.
const UNION_NAME_WIDTH: usize = 21;

/// The columns of the lines of members.
#[derive(Clone, Copy)]
pub struct Columns {
    /// The width of types.
    types: usize,
    /// The width of types and names.
    whole: usize,
}

impl Columns {
    /// The columns of a structure or a union that is nested in `outer` others. If the width of types would be negative,
    /// `pahole` makes it wider again, and the whole narrower.
    pub fn of(is_union: bool, outer: usize) -> Columns {
        let names = if is_union {
            UNION_NAME_WIDTH
        } else {
            NAME_WIDTH
        };
        let narrower = NESTED_WIDTH.saturating_mul(outer);
        Columns {
            types: TYPE_WIDTH.abs_diff(narrower),
            whole: (TYPE_WIDTH + names).saturating_sub(narrower),
        }
    }

    /// Adds spaces after a type.
    pub fn pad_type(&self, line: &mut String) -> Result<(), TextError> {
        pad(line, self.types)
    }

    /// Adds spaces after a type and a name, at least one.
    pub fn pad_name(&self, line: &mut String) -> Result<(), TextError> {
        line.push_str(" ")?;
        pad(line, self.whole)
    }

    /// Adds spaces after the parenthesis that closes a type, a name and a semicolon. The name and the space before it
    /// have `len` bytes; the text between the name and the semicolon isn't counted.
    pub fn pad_closing(&self, line: &mut String, len: usize) -> Result<(), TextError> {
        let spaces = self.whole.saturating_sub(len.saturating_add(2));
        for _ in 0..spaces {
            line.push_str(" ")?;
        }
        Ok(())
    }
}

/// Adds spaces until a line has this many bytes.
fn pad(line: &mut String, width: usize) -> Result<(), TextError> {
    for _ in line.len()..width {
        line.push_str(" ")?;
    }
    Ok(())
}
