//! The names of a name space that are used, and how often.
//!
//! A name is known by its spelling, which is not stored, so that memory does not depend on the lengths of names. The
//! uses are in the order of hashes, so that the table is read only where two hashes are equal. These are in the order
//! of spellings, so that a table whose names have equal hashes takes no more comparisons.

use crate::error::TextError;
use crate::header::identifier::spell;
use crate::header::spelling::{Spelling, split_number};
use crate::header::tree::{LONGEST_WAY, Link, Side, Trees};
use crate::word::{text_at, text_or_empty};
use btf_table::Btf;
use std::alloc::{AllocError, Global};
use std::cmp::Ordering;

/// What a name is the name of.
#[derive(Clone, Copy, PartialEq, Eq)]
pub enum Tag {
    Struct,
    Union,
    Enum,
    /// A number, a TYPEDEF, or a value of an enumeration.
    Other,
}

/// How a type uses its name.
#[derive(Clone, Copy)]
pub struct Naming {
    pub tag: Tag,
    /// Whether the type is only declared, so that it can have the name of a type that is defined.
    pub is_forward: bool,
}

/// The use of a name.
#[derive(Clone, Copy)]
struct Use {
    hash: u32,
    /// A string offset of the name.
    name_offset: u32,
    /// The last number; 1 is the name without a number.
    last: u32,
    /// The tag of the type that has the name without a number.
    tag: Tag,
    /// Whether that type is defined.
    is_defined: bool,
}

/// The used names of a name space of C (C11, 6.2.3).
#[derive(Drop)]
pub struct Uses {
    alloc: Global,
    /// The uses in the order of hashes and spellings.
    trees: Trees<Use>,
    /// The spelling of a used name that is no identifier.
    escaped: String,
}

impl Naming {
    /// The naming of a type that is defined.
    pub fn defined(tag: Tag) -> Naming {
        Naming {
            tag,
            is_forward: false,
        }
    }
}

impl Uses {
    /// No names, with room for the search of this number.
    pub fn new(alloc: Global, count: usize) -> Result<Uses, AllocError> {
        Ok(Uses {
            alloc,
            trees: Trees::new(alloc, count)?,
            escaped: String::new(alloc),
        })
    }

    /// Counts a use of the name at a string offset, which is written as this text, and returns its number. A type that
    /// is only declared has the same number as the first one of its tag.
    pub fn count(
        &mut self,
        table: &Btf,
        name_offset: u32,
        text: &str,
        naming: Naming,
    ) -> Result<u32, TextError> {
        let name = Spelling::new(text, Some(name_offset));
        match self.find(table, &name)? {
            Some((link, known)) => self.count_again(table, link, known, &name, naming),
            None => self.count_first(table, name_offset, &name, naming),
        }
    }

    /// Counts the first use of a name, and returns its number, which is not 1 if another name was written so with its
    /// number.
    fn count_first(
        &mut self,
        table: &Btf,
        name_offset: u32,
        name: &Spelling<'_>,
        naming: Naming,
    ) -> Result<u32, TextError> {
        let mut new = Use {
            hash: name.hash,
            name_offset,
            last: 1,
            tag: naming.tag,
            is_defined: !naming.is_forward,
        };
        if let Some((text, number)) = split_number(name.text) {
            if self.was_written(table, text, number)? {
                new = Use {
                    last: self.next_number(table, name, 1)?,
                    tag: Tag::Other,
                    is_defined: true,
                    ..new
                };
            }
            // The way to the new use, after that to other names.
            self.find(table, name)?;
        }
        self.trees.insert(new)?;
        Ok(new.last)
    }

    /// Counts a use of a name that was used before, and returns its number.
    fn count_again(
        &mut self,
        table: &Btf,
        link: Link,
        known: Use,
        name: &Spelling<'_>,
        naming: Naming,
    ) -> Result<u32, TextError> {
        let is_defined = !naming.is_forward;
        let is_same = known.tag == naming.tag && !(is_defined && known.is_defined);
        let last = if is_same {
            known.last
        } else {
            self.next_number(table, name, known.last)?
        };
        let new = Use {
            is_defined: known.is_defined || is_same && is_defined,
            last,
            ..known
        };
        self.trees.replace(link, new);
        Ok(if is_same { 1 } else { last })
    }

    /// The number after this one for a name whose spelling with the number is no other name.
    fn next_number(
        &mut self,
        table: &Btf,
        name: &Spelling<'_>,
        last: u32,
    ) -> Result<u32, TextError> {
        let text = name.text;
        let mut number = last;
        for _ in 0..self.trees.len().saturating_add(1) {
            number = number.saturating_add(1);
            let word = format!(in self.alloc; "{text}___{number}")?;
            let spelling = Spelling::new(word.as_str(), None);
            if self.find(table, &spelling)?.is_none() {
                break;
            }
        }
        Ok(number)
    }

    /// Whether a name was written with a number, although this spelling itself is not used. A number that was passed
    /// over is in a name that is used.
    fn was_written(&mut self, table: &Btf, text: &str, number: u32) -> Result<bool, TextError> {
        Ok(match self.find(table, &Spelling::new(text, None))? {
            Some((_, known)) => number <= known.last,
            None => false,
        })
    }

    /// The use of a name, and its link; None if it is not used. This is a way down the tree to where the use belongs.
    fn find(&mut self, table: &Btf, name: &Spelling<'_>) -> Result<Option<(Link, Use)>, TextError> {
        self.trees.begin(name.hash);
        for _ in 0..LONGEST_WAY {
            let Some((link, used)) = self.trees.here() else {
                break;
            };
            let side = match self.order(table, &used, name)? {
                Ordering::Less => Side::After,
                Ordering::Greater => Side::Before,
                Ordering::Equal => return Ok(Some((link, used))),
            };
            self.trees.go(side)?;
        }
        Ok(None)
    }

    /// The order of a used name and a name: by their hashes, and then by their spellings.
    #[inline(always)]
    fn order(
        &mut self,
        table: &Btf,
        used: &Use,
        name: &Spelling<'_>,
    ) -> Result<Ordering, TextError> {
        if used.hash != name.hash {
            return Ok(used.hash.cmp(&name.hash));
        }
        // Equal names of a table mostly have one offset, and then a long name is not compared.
        if name.name_offset == Some(used.name_offset) {
            return Ok(Ordering::Equal);
        }
        self.order_of_equals(table, used.name_offset, name)
    }

    /// The order of the name at a string offset and a name that has the same hash.
    #[inline(never)]
    fn order_of_equals(
        &mut self,
        table: &Btf,
        name_offset: u32,
        name: &Spelling<'_>,
    ) -> Result<Ordering, TextError> {
        let read = text_at(table, name_offset)?;
        Ok(spell(&mut self.escaped, text_or_empty(&read))?.cmp(name.text))
    }
}
