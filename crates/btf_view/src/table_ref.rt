//! A table that is read, whatever holds it.

ghost use Rattle.std.specs.Prelude.{◌≡◌, ◌<◌, ◌+◌, ◌^◌, IfSome, drop, length, nat_eq, slice_get};
ghost use Rattle.std.specs.List.{starts_with};
ghost use Rattle.std.specs.Option.{option_map};
ghost use Rattle.btf_model.specs.Blob.{IsTable};
ghost use Rattle.btf_model.specs.Text.{bytes_at};
ghost use Rattle.btf_model.specs.Walk.{Resolves};
ghost use Rattle.btf_plain.specs.Error.{Meets};
ghost use Rattle.btf_view.specs.Index.{IsIndexed};
ghost use Rattle.btf_view.specs.TableRef.{IsNextOfKinds};
ghost use Rattle.btf_view.specs.TypeRef.{first_three, record_in};

use crate::finding::{next_of_kinds_in, number_of};
use crate::indexing::Sections;
use crate::type_ref::{TypeRef, third_of};
use crate::view::View;
use btf_plain::{BtfError, Endianness, Head};
use btf_table::{Btf, bytes_at, string_section, type_count};
use std::marker::Model;

/// A table in the bytes of a view, with three values of its header.
#[derive(Clone, Copy, Debug)]
struct ViewedTable<'a> {
    view: View<'a>,
    magic: u16,
    version: u8,
    flags: u8,
}

impl<'a> ViewedTable<'a> {
    ghost use Rattle.std.specs.Prelude.{◌≡◌, List, slice_get};
    ghost use Rattle.std.specs.Option.{option_map};
    ghost use Rattle.btf_model.specs.Record.{Record};
    ghost use Rattle.btf_model.specs.Walk.{Resolves};
    ghost use Rattle.btf_plain.specs.Error.{Meets};
    ghost use Rattle.btf_view.specs.TypeRef.{record_in};
    ghost use Rattle.btf_view.specs.View.{Shows};

    /// The type of an id.
    #[inline(always)]
    fn type_at(&self, type_id: u32) -> Option<TypeRef<'a>>
        ensures { (records : List Record) → Shows self.now.view records
            → option_map record_in result ≡ slice_get records type_id }
    {
        match self.view.record(type_id) {
            Some(words) => Some(TypeRef::Viewed(words)),
            None => None,
        }
    }

    /// The id of the type that an id resolves to.
    #[inline(always)]
    fn resolve(&self, type_id: u32) -> Result<u32, BtfError>
        ensures { (records : List Record) → Shows self.now.view records
            → Meets (λ id. id) result (Resolves records type_id) }
    {
        self.view.resolve(type_id)
    }
}

/// What holds a table.
#[derive(Clone, Copy, Debug)]
enum Source<'a> {
    /// A table that was parsed.
    Parsed(&'a Btf),
    /// A blob.
    Viewed(ViewedTable<'a>),
}

/// A table that is read: one that was parsed, or a blob with the places of its records. In contracts it is the table.
#[derive(Debug, Drop)]
pub struct TableRef<'a> {
    source: Source<'a>,
    // The string section, so that a name is read without a look at what holds the table.
    strings: &'a [u8],
}

impl<'a> Model for TableRef<'a> {
    ghost use Rattle.std.specs.Prelude.{◌≡◌};
    ghost use Rattle.btf_model.specs.Table.{Table};
    ghost use Rattle.btf_view.specs.TableRef.{IsShown, table_in};

    ghost Value = { Table };

    ghost view = { λ t. table_in t.source };

    ghost invariant = { λ t. IsShown t.source × (t.strings.now ≡ (table_in t.source).strings) };
}

impl<'a> TableRef<'a> {
    /// A table that was parsed.
    pub fn of_table(table: &'a Btf) -> TableRef<'a>
        ensures { result ≡ table.now }
    {
        TableRef {
            source: Source::Parsed(table),
            strings: string_section(table),
        }
    }

    /// The table of a blob, whose words are in this byte order, with what [`index`](crate::index) found in it.
    pub fn of_blob(
        data: &'a [u8],
        endianness: Endianness,
        sections: &Sections,
        places: &'a [u32],
    ) -> TableRef<'a>
        requires { IsIndexed endianness «data».now places.now sections.now }
        ensures { IsTable endianness «data».now result }
    {
        let (types, strings) = (sections.types_at, sections.strings_at);
        let strings = &data[strings..strings + sections.strings_len];
        TableRef {
            source: Source::Viewed(ViewedTable {
                view: View {
                    endianness,
                    types: &data[types..types + sections.types_len],
                    strings,
                    places: &places[..sections.count],
                },
                magic: sections.magic,
                version: sections.version,
                flags: sections.flags,
            }),
            strings,
        }
    }

    /// The byte order of the words.
    pub fn endianness(&self) -> Endianness
        ensures { result ≡ self.now.order }
    {
        match &self.source {
            Source::Parsed(table) => table.endianness(),
            Source::Viewed(table) => table.view.endianness,
        }
    }

    /// The number of types, with the type of id 0.
    pub fn type_count(&self) -> u32
        ensures { result ≡ length self.now.records }
    {
        match &self.source {
            Source::Parsed(table) => type_count(table),
            Source::Viewed(table) => table.view.places.len() as u32,
        }
    }

    /// The type of an id; None if there is no such type.
    #[inline(always)]
    pub fn type_at(&self, type_id: u32) -> Option<TypeRef<'a>>
        ensures { option_map record_in result ≡ slice_get self.now.records type_id }
    {
        match &self.source {
            Source::Parsed(table) => match table.type_by_id(type_id) {
                Ok(btf_type) => Some(TypeRef::Parsed(btf_type)),
                Err(_) => None,
            },
            Source::Viewed(table) => table.type_at(type_id),
        }
    }

    /// The first three words of a type; None if there is no such type. A search over all types needs no more of most of
    /// them.
    #[inline(always)]
    pub fn head(&self, type_id: u32) -> Option<Head>
        ensures { result ≡ option_map first_three (slice_get self.now.records type_id) }
    {
        match &self.source {
            Source::Parsed(table) => match table.type_by_id(type_id) {
                Ok(btf_type) => Some(Head {
                    name: btf_type.name_offset(),
                    info: btf_type.info(),
                    third: third_of(btf_type),
                }),
                Err(_) => None,
            },
            Source::Viewed(table) => match table.view.head(type_id) {
                Ok(head) => Some(head),
                Err(_) => None,
            },
        }
    }

    /// The least id, from this one on, of a type whose kind has one of two numbers; None if there is none. Most types
    /// have other kinds, and the loop that skips them has no call.
    #[inline(never)]
    pub fn next_of_kinds(&self, first: u32, kind: u32, other: u32) -> Option<u32>
        ensures next { IsNextOfKinds self.now.records first kind other result }
        ensures small { IfSome result (λ id. id + 1 < 2 ^ 32) }
    {
        match &self.source {
            Source::Parsed(table) => next_in_table(table, first, kind, other),
            Source::Viewed(table) => {
                let view = table.view;
                next_of_kinds_in(view.types, view.places, view.endianness, first, kind, other)
            }
        }
    }

    /// The id of the type that an id resolves to, as `Btf::resolve_type` does.
    #[inline(always)]
    pub fn resolve(&self, type_id: u32) -> Result<u32, BtfError>
        ensures { Meets (λ id. id) result (Resolves self.now.records type_id) }
    {
        match &self.source {
            Source::Parsed(table) => table.resolve_type(type_id),
            Source::Viewed(table) => table.resolve(type_id),
        }
    }

    /// Whether the string section has these bytes at a string offset. Most names begin otherwise than one that is sought,
    /// and their ends need not be found.
    #[inline(always)]
    pub fn begins(&self, offset: u32, prefix: &[u8]) -> bool
        ensures { result ≡ starts_with nat_eq (drop offset self.now.strings) prefix.now }
    {
        match self.strings.get(offset as usize..) {
            Some(rest) => rest.starts_with(prefix),
            None => prefix.is_empty(),
        }
    }

    /// The bytes of the name at a string offset, up to the first zero byte; they need not be UTF-8. None if there is no
    /// zero byte at the offset or after it.
    #[inline(always)]
    pub fn name(&self, offset: u32) -> Option<&'a [u8]>
        ensures { option_map (λ b. b.now) result ≡ bytes_at self.now.strings offset }
    {
        bytes_at(self.strings, offset, 0)
    }
}

/// The least id, from this one on, of a type whose kind has one of two numbers, in a table that was parsed.
#[inline(always)]
fn next_in_table(table: &Btf, first: u32, kind: u32, other: u32) -> Option<u32>
    ensures next { IsNextOfKinds table.now.records first kind other result }
    ensures small { IfSome result (λ id. id + 1 < 2 ^ 32) }
{
    for id in first..type_count(table) {
        let Ok(btf_type) = table.type_by_id(id) else {
            return None;
        };
        let number = number_of(btf_type.kind());
        if number == kind || number == other {
            return Some(id);
        }
    }
    None
}
