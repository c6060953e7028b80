//! A view of a table.

ghost use Rattle.std.specs.Prelude.{◌≡◌, List, slice_get};
ghost use Rattle.btf_model.specs.Record.{Record};
ghost use Rattle.btf_model.specs.Walk.{Resolves, HasSize};
ghost use Rattle.std.specs.Option.{option_map};
ghost use Rattle.btf_model.specs.Text as texts;
ghost use Rattle.btf_plain.specs.Error.{Meets};
ghost use Rattle.btf_plain.specs.Kind as kinds;
ghost use Rattle.btf_view.specs.Finding.{LooksUp};
ghost use Rattle.btf_view.specs.Forms.{ListsItems, ListsTypes};
ghost use Rattle.btf_view.specs.Items.{ItemsOf, ListsMembersFrom, entries, members, params, variants};
ghost use Rattle.btf_view.specs.Many.{FillsResolved, FillsSizes};
ghost use Rattle.btf_view.specs.Record.{FindsHead, FindsParts};
ghost use Rattle.btf_view.specs.TypeRef.{record_of_words};
ghost use Rattle.btf_view.specs.View.{Shows};

use crate::filling::{fill_all_members, fill_items, fill_types};
use crate::finding::{Lookup, find_in};
use crate::forms::{Entry, Member, Param, TypeWords, Variant};
use crate::record::{Parts, head_at, parts_at};
use crate::record_words::RecordWords;
use crate::sizing::{fill_sizes, size_of};
use crate::walk::{fill_resolved, resolve_from};
use btf_plain::{
    BtfEnum, BtfEnum64, BtfError, BtfKind, BtfMember, BtfParam, DataSecEntry, Endianness, Head,
};
use btf_table::bytes_at;

/// A view of a table: the bytes of both sections, and the places of the records, which `index` finds.
#[derive(Clone, Copy, Debug)]
pub struct View<'a> {
    /// The byte order of the words.
    pub endianness: Endianness,
    /// The type section.
    pub types: &'a [u8],
    /// The string section.
    pub strings: &'a [u8],
    /// Where each record begins in the type section, by its id.
    pub places: &'a [u32],
}

impl<'a> View<'a> {
    /// The first three words of the type of an id. Fails with `UnknownBtfType` of the id if there is no such type.
    #[inline(always)]
    pub fn head(&self, type_id: u32) -> Result<Head, BtfError>
        ensures { (records : List Record) → Shows self.now records
            → FindsHead records type_id result }
    {
        match self.places.get(type_id as usize) {
            Some(place) => Ok(head_at(self.types, *place, self.endianness)),
            None => Err(BtfError::UnknownBtfType { type_id }),
        }
    }

    /// The record of an id; None if there is no such type.
    pub fn record(&self, type_id: u32) -> Option<RecordWords<'a>>
        ensures { (records : List Record) → Shows self.now records
            → option_map record_of_words result ≡ slice_get records type_id }
    {
        match self.places.get(type_id as usize) {
            Some(place) => RecordWords::at(self.types, *place, self.endianness),
            None => None,
        }
    }

    /// Writes the first words of the types from an id on, as many as there are and as fit, and returns their number.
    pub fn types(&self, first: u32, out: &mut [TypeWords]) -> usize
        ensures { (records : List Record) → Shows self.now records
            → ListsTypes records first out.old out.new result }
    {
        let (types, places) = (self.types, self.places);
        match self.endianness {
            Endianness::Little => fill_types(types, places, Endianness::Little, first, out),
            Endianness::Big => fill_types(types, places, Endianness::Big, first, out),
        }
    }

    /// The parts of the record of an id. Fails with `UnknownBtfType` of the id if there is no such type.
    fn parts(&self, type_id: u32) -> Result<Parts<'a>, BtfError>
        ensures { (records : List Record) → Shows self.now records
            → FindsParts self.now.endianness records type_id result }
    {
        let Some(place) = self.places.get(type_id as usize) else {
            return Err(BtfError::UnknownBtfType { type_id });
        };
        match parts_at(self.types, *place, self.endianness) {
            Some(parts) => Ok(parts),
            None => Err(BtfError::UnexpectedBtfType { type_id }),
        }
    }

    /// Writes the members of a STRUCT or UNION, as many as there are and as fit, and returns their number.
    ///
    /// Fails with `UnknownBtfType` of the id if there is no such type, and with `UnexpectedBtfType` of the id if its
    /// type has another kind. After an error the buffer is unchanged.
    pub fn members(&self, type_id: u32, out: &mut [Member]) -> Result<usize, BtfError>
        ensures { (records : List Record) → Shows self.now records
            → ListsItems out.old out.new result (ItemsOf members records type_id) }
    {
        let order = self.endianness;
        let Parts { kind, info, tail } = self.parts(type_id)?;
        match kind {
            BtfKind::Struct | BtfKind::Union => Ok(fill_items::<BtfMember>(info, tail, order, out)),
            _ => Err(BtfError::UnexpectedBtfType { type_id }),
        }
    }

    /// Writes the variants of an ENUM or ENUM64, as `members` writes the members of a STRUCT.
    pub fn variants(&self, type_id: u32, out: &mut [Variant]) -> Result<usize, BtfError>
        ensures { (records : List Record) → Shows self.now records
            → ListsItems out.old out.new result (ItemsOf variants records type_id) }
    {
        let order = self.endianness;
        let Parts { kind, info, tail } = self.parts(type_id)?;
        match kind {
            BtfKind::Enum => Ok(fill_items::<BtfEnum>(info, tail, order, out)),
            BtfKind::Enum64 => Ok(fill_items::<BtfEnum64>(info, tail, order, out)),
            _ => Err(BtfError::UnexpectedBtfType { type_id }),
        }
    }

    /// Writes the parameters of a FUNC_PROTO, as `members` writes the members of a STRUCT.
    pub fn params(&self, type_id: u32, out: &mut [Param]) -> Result<usize, BtfError>
        ensures { (records : List Record) → Shows self.now records
            → ListsItems out.old out.new result (ItemsOf params records type_id) }
    {
        let order = self.endianness;
        let Parts { kind, info, tail } = self.parts(type_id)?;
        match kind {
            BtfKind::FuncProto => Ok(fill_items::<BtfParam>(info, tail, order, out)),
            _ => Err(BtfError::UnexpectedBtfType { type_id }),
        }
    }

    /// Writes the entries of a DATASEC, as `members` writes the members of a STRUCT.
    pub fn entries(&self, type_id: u32, out: &mut [Entry]) -> Result<usize, BtfError>
        ensures { (records : List Record) → Shows self.now records
            → ListsItems out.old out.new result (ItemsOf entries records type_id) }
    {
        let order = self.endianness;
        let Parts { kind, info, tail } = self.parts(type_id)?;
        match kind {
            BtfKind::DataSec => Ok(fill_items::<DataSecEntry>(info, tail, order, out)),
            _ => Err(BtfError::UnexpectedBtfType { type_id }),
        }
    }

    /// Writes the members of the types from an id on, type after type, and the number of the members of each type to
    /// `counts`, 0 for a type that is no STRUCT or UNION. It stops before the first type that has no place in `counts`
    /// or whose members do not all fit. Returns the numbers of types and of members.
    pub fn members_from(&self, first: u32, counts: &mut [u32], out: &mut [Member]) -> (usize, usize)
        ensures { (records : List Record) → Shows self.now records
            → ListsMembersFrom records first counts.old counts.new out.old out.new result }
    {
        let (types, places) = (self.types, self.places);
        match self.endianness {
            Endianness::Little => {
                fill_all_members(types, places, Endianness::Little, first, counts, out)
            }
            Endianness::Big => {
                fill_all_members(types, places, Endianness::Big, first, counts, out)
            }
        }
    }

    /// The bytes of the name at a string offset, up to the first zero byte; they need not be UTF-8. None if there is no
    /// zero byte at the offset or after it.
    pub fn name(&self, offset: u32) -> Option<&'a [u8]>
        ensures { option_map (λ b. b.now) result ≡ texts.bytes_at self.now.strings.now offset }
    {
        bytes_at(self.strings, offset, 0)
    }

    /// The least id of a type of this kind and name, as `Btf::id_by_type_name_kind` gives it.
    pub fn find(&self, name: &str, kind: BtfKind) -> Lookup
        ensures { (records : List Record) → Shows self.now records
            → LooksUp self.now.strings.now records (kinds.kind kind) name.now result }
    {
        let (types, strings, places) = (self.types, self.strings, self.places);
        match self.endianness {
            Endianness::Little => find_in(types, strings, places, Endianness::Little, name, kind),
            Endianness::Big => find_in(types, strings, places, Endianness::Big, name, kind),
        }
    }

    /// The id of the type that an id resolves to, as `Btf::resolve_type` does.
    pub fn resolve(&self, type_id: u32) -> Result<u32, BtfError>
        ensures { (records : List Record) → Shows self.now records
            → Meets (λ id. id) result (Resolves records type_id) }
    {
        resolve_from(self.types, self.places, self.endianness, type_id)
    }

    /// Writes what the ids from one on resolve to, as many as there are types and as fit, and returns their number. An
    /// id for which `resolve` fails has 2^32 - 1.
    pub fn resolved(&self, first: u32, out: &mut [u32]) -> usize
        ensures { (records : List Record) → Shows self.now records
            → FillsResolved records first out.old out.new result }
    {
        let (types, places) = (self.types, self.places);
        match self.endianness {
            Endianness::Little => fill_resolved(types, places, Endianness::Little, first, out),
            Endianness::Big => fill_resolved(types, places, Endianness::Big, first, out),
        }
    }

    /// The size of a type in bytes, as `Btf::type_size` gives it.
    pub fn size(&self, type_id: u32) -> Result<u32, BtfError>
        ensures { (records : List Record) → Shows self.now records
            → Meets (λ n. n) result (HasSize records type_id) }
    {
        size_of(self.types, self.places, self.endianness, type_id)
    }

    /// Writes the sizes of the types from an id on, as many as there are types and as fit, and returns their number. A
    /// type for which `size` fails has 2^64 - 1.
    pub fn sizes(&self, first: u32, out: &mut [u64]) -> usize
        ensures { (records : List Record) → Shows self.now records
            → FillsSizes records first out.old out.new result }
    {
        let (types, places) = (self.types, self.places);
        match self.endianness {
            Endianness::Little => fill_sizes(types, places, Endianness::Little, first, out),
            Endianness::Big => fill_sizes(types, places, Endianness::Big, first, out),
        }
    }
}
