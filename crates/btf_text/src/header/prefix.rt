//! The texts before the names of members. Most members have one of a few types, whose text is composed once.

use arrayvec::ArrayString;
use std::alloc::{AllocError, Global};
use std::fmt;
use std::fmt::Write;

/// The maximum length of a stored text in bytes.
const PREFIX_LEN: usize = 48;

/// The number of stored texts, which fit in a processor's first cache. In a kernel's table, two of three members have a
/// type whose text is stored.
const PREFIXES: usize = 256;

/// What a declaration of a type writes before the name.
#[derive(Clone, Copy)]
pub struct Prefix {
    /// The text, with the space before the name if one is needed.
    text: ArrayString<PREFIX_LEN>,
}

impl Prefix {
    /// What was copied before a name; None if there is no room for the space.
    pub fn new(copy: ArrayString<PREFIX_LEN>, is_after_pointer: bool) -> Option<Prefix> {
        let mut text = copy;
        if !is_after_pointer && text.try_push_str(" ").is_err() {
            return None;
        }
        Some(Prefix { text })
    }

    /// The text before a name, or without one.
    pub fn text(&self, has_name: bool) -> &str {
        let text = self.text.as_str();
        if has_name { text } else { text.trim_end() }
    }
}

/// The stored texts, each at the place for the last bits of its type's id.
#[derive(Drop)]
pub struct Prefixes {
    places: Vec<Option<(u32, Prefix)>>,
}

impl Prefixes {
    /// No texts.
    pub fn new(alloc: Global) -> Result<Prefixes, AllocError> {
        Ok(Prefixes {
            places: vec![in alloc; None; PREFIXES]?,
        })
    }

    /// The text of a type, if it is stored.
    pub fn get(&self, type_id: u32) -> Option<&Prefix> {
        match self.places.get(type_id as usize % PREFIXES)? {
            Some((id, prefix)) if *id == type_id => Some(prefix),
            _ => None,
        }
    }

    /// Stores the text of a type, if there is one, in place of another type's.
    pub fn set(&mut self, type_id: u32, prefix: Option<Prefix>) {
        if let Some(place) = self.places.get_mut(type_id as usize % PREFIXES)
            && let Some(prefix) = prefix
        {
            *place = Some((type_id, prefix));
        }
    }
}

/// A writer that passes text on, and copies it while it is asked to.
#[derive(Drop)]
pub struct Copier<'a, W> {
    out: &'a mut W,
    copy: ArrayString<PREFIX_LEN>,
    is_copying: bool,
}

impl<'a, W: Write> Copier<'a, W> {
    /// A writer that copies nothing.
    pub fn new(out: &'a mut W) -> Copier<'a, W> {
        Copier {
            out,
            copy: ArrayString::new(),
            is_copying: false,
        }
    }

    /// Adds a text to the copy, if it has room. A call of its own keeps the code of each write short.
    #[cold]
    #[inline(never)]
    fn add(&mut self, text: &str) {
        self.is_copying = self.copy.try_push_str(text).is_ok();
    }

    /// Begins a copy.
    pub fn begin_copy(&mut self) {
        self.copy.clear();
        self.is_copying = true;
    }

    /// Ends the copy, and returns it; None if the text was longer than a copy can be.
    pub fn end_copy(&mut self) -> Option<ArrayString<PREFIX_LEN>> {
        let is_whole = self.is_copying;
        self.is_copying = false;
        if is_whole { Some(self.copy) } else { None }
    }
}

impl<W: Write> Write for Copier<'_, W> {
    #[inline(always)]
    fn write_str(&mut self, text: &str) -> fmt::Result {
        if self.is_copying {
            self.add(text);
        }
        self.out.write_str(text)
    }
}
