//! The names of types and values. Each is written once: a further type of a name has a number after it.

use crate::error::TextError;
use crate::header::identifier::{is_identifier, is_number_name, spell};
use crate::header::uses::{Naming, Tag, Uses};
use crate::word::{text_at, text_or_empty};
use btf_records::BtfType;
use btf_table::{Btf, type_count};
use std::alloc::{AllocError, Global};
use std::fmt::Write;

/// The number of a table's types for one tree of names. In a kernel's table, half of the types have no name in C.
const TYPES_OF_TREE: usize = 4;

/// How the name of a type is written.
#[derive(Clone, Copy, PartialEq, Eq)]
enum Form {
    /// As it is: it is an identifier, or a name of numbers in C.
    Plain,
    /// Escaped: it is no identifier.
    Escaped,
}

/// The name of a type.
#[derive(Clone, Copy)]
struct TypeName {
    /// The number after it, from 1 on; 0 if the type was not named.
    number: u32,
    /// None if it was not written.
    form: Option<Form>,
}

/// The names that were written.
#[derive(Drop)]
pub struct Names {
    /// The names after `struct`, `union` and `enum`.
    tags: Uses,
    /// The names of TYPEDEFs and of the values of enumerations.
    identifiers: Uses,
    /// The names of the types.
    types: Vec<TypeName>,
    /// The spelling of a name that is no identifier.
    escaped: String,
}

/// How a type uses its name.
fn naming_of(btf_type: &BtfType) -> Naming {
    match btf_type {
        BtfType::Struct(_) => Naming::defined(Tag::Struct),
        BtfType::Union(_) => Naming::defined(Tag::Union),
        BtfType::Enum(t) => Naming {
            tag: Tag::Enum,
            is_forward: t.variants().is_empty(),
        },
        BtfType::Enum64(_) => Naming::defined(Tag::Enum),
        BtfType::Fwd(t) => Naming {
            tag: if t.is_union() {
                Tag::Union
            } else {
                Tag::Struct
            },
            is_forward: true,
        },
        _ => Naming::defined(Tag::Other),
    }
}

/// How a name is written. The name of a number can have several words.
fn form_of(text: &str, is_number: bool) -> Form {
    if is_number && is_number_name(text) || is_identifier(text) {
        Form::Plain
    } else {
        Form::Escaped
    }
}

impl Names {
    /// No names, for the types of a table.
    pub fn new(alloc: Global, table: &Btf) -> Result<Names, AllocError> {
        let new = TypeName {
            number: 0,
            form: None,
        };
        let count = type_count(table) as usize;
        Ok(Names {
            tags: Uses::new(alloc, count / TYPES_OF_TREE)?,
            identifiers: Uses::new(alloc, count / TYPES_OF_TREE)?,
            types: vec![in alloc; new; count]?,
            escaped: String::new(alloc),
        })
    }

    /// Writes the name of a type. The first type of a name has the name alone, and each further one has its number
    /// after the name, as in `name___2`.
    pub fn write_type<W: Write>(
        &mut self,
        table: &Btf,
        type_id: u32,
        out: &mut W,
    ) -> Result<(), TextError> {
        let number = self.number_of(table, type_id)?;
        self.write_alone(table, type_id, false, out)?;
        write_number(number, out)
    }

    /// Writes the name of an INT or a FLOAT: its text if that is a name of numbers in C, and otherwise an identifier.
    pub fn write_number_type<W: Write>(
        &mut self,
        table: &Btf,
        type_id: u32,
        out: &mut W,
    ) -> Result<(), TextError> {
        self.write_alone(table, type_id, true, out)
    }

    /// Writes the name of a type without a number.
    fn write_alone<W: Write>(
        &mut self,
        table: &Btf,
        type_id: u32,
        is_number: bool,
        out: &mut W,
    ) -> Result<(), TextError> {
        let read = text_at(table, table.type_by_id(type_id)?.name_offset())?;
        let text = text_or_empty(&read);
        match self.known_form(type_id, text, is_number) {
            Form::Plain => out.write_str(text)?,
            Form::Escaped => out.write_str(spell(&mut self.escaped, text)?)?,
        }
        Ok(())
    }

    /// How the name of a type is written, which is examined once.
    fn known_form(&mut self, type_id: u32, text: &str, is_number: bool) -> Form {
        let Some(name) = self.types.get_mut(type_id as usize) else {
            return form_of(text, is_number);
        };
        match name.form {
            Some(form) => form,
            None => {
                let form = form_of(text, is_number);
                name.form = Some(form);
                form
            }
        }
    }

    /// The number of a type, which gets one if it has none.
    pub fn number_of(&mut self, table: &Btf, type_id: u32) -> Result<u32, TextError> {
        match self.types.get(type_id as usize) {
            Some(name) if name.number > 0 => return Ok(name.number),
            _ => {}
        }
        let btf_type = table.type_by_id(type_id)?;
        let is_tag = !matches!(btf_type, BtfType::Typedef(_));
        let number = self.count(table, btf_type.name_offset(), naming_of(btf_type), is_tag)?;
        if let Some(name) = self.types.get_mut(type_id as usize) {
            name.number = number;
        }
        Ok(number)
    }

    /// Counts a use of the name at a string offset, and returns its number. A tag is a name after `struct`, `union` or
    /// `enum`.
    fn count(
        &mut self,
        table: &Btf,
        name_offset: u32,
        naming: Naming,
        is_tag: bool,
    ) -> Result<u32, TextError> {
        let read = text_at(table, name_offset)?;
        let written = spell(&mut self.escaped, text_or_empty(&read))?;
        if is_tag {
            self.tags.count(table, name_offset, written, naming)
        } else {
            self.identifiers.count(table, name_offset, written, naming)
        }
    }

    /// Writes the name of a value of an enumeration, with a number if the name was written before.
    pub fn write_value<W: Write>(
        &mut self,
        table: &Btf,
        name_offset: u32,
        out: &mut W,
    ) -> Result<(), TextError> {
        let read = text_at(table, name_offset)?;
        let written = spell(&mut self.escaped, text_or_empty(&read))?;
        let naming = Naming::defined(Tag::Other);
        let number = self.identifiers.count(table, name_offset, written, naming)?;
        out.write_str(written)?;
        write_number(number, out)
    }

    /// Writes a text as an identifier, without a number.
    pub fn write_plain<W: Write>(&mut self, text: &str, out: &mut W) -> Result<(), TextError> {
        out.write_str(spell(&mut self.escaped, text)?)?;
        Ok(())
    }
}

/// Writes the number after a name; nothing for the first type of the name.
fn write_number<W: Write>(number: u32, out: &mut W) -> Result<(), TextError> {
    if number > 1 {
        write!(out, "___{number}")?;
    }
    Ok(())
}
