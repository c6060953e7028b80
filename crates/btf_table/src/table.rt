//! A table of types and strings.

mod ascii;
mod changes;
mod header;
mod joining;
mod limits;
mod text;
mod types;
mod walk;

ghost use Rattle.std.specs.Prelude.{◌≡◌, ℕ, List, ◌+◌, ◌*◌, ◌≤◌, ◌↔◌, [], ◌∷◌, map, IsTrue, IfOk, OnOk, OnErr, MatchResult, Ok, Err, Some, length, take, drop, ◌<◌, ◌^◌};
ghost use Rattle.std.specs.Slice.Iter.{iter_rest};
ghost use Rattle.btf_model.specs.Record.{Record, unknown};
ghost use Rattle.btf_model.specs.Refusal.{Refusal};
ghost use Rattle.btf_model.specs.Table.{Table, empty_table, strip, type_bytes, with_string, with_type, string_place, type_place};
ghost use Rattle.btf_model.specs.Fields.{HaveKinds};
ghost use Rattle.btf_model.specs.Blob.{IsTable, IsRefusal, Parses, canon};
ghost use Rattle.btf_model.specs.Text as model;
ghost use Rattle.btf_model.specs.Text.{FindsName};
ghost use Rattle.btf_model.specs.Walk.{Resolves, HasSize};
ghost use Rattle.btf_plain.specs.Error.{MeetsOrNoMemory, IsOrNoMemory, Meets};
ghost use Rattle.btf_plain.specs.Kind as kinds;
ghost use Rattle.btf_records.specs.BtfType.{record_of, fallback_of};
ghost use Rattle.btf_table.specs.Btf.{IsType, HasShapeOf};
ghost use Rattle.btf_table.specs.BtfStr.{text_bytes, HasName};
ghost use Rattle.btf_model.specs.Text.{text_at};
ghost use Rattle.btf_rewrite_model.specs.Checks.{name_is_read};
ghost use Rattle.btf_table.specs.Checked.{checked};
ghost use Rattle.btf_table.specs.Readable.{IsReadableEnd, IsComparable, ReadsWithoutMemory};
ghost use Rattle.std.specs.Prelude.{IfSome, string_bytes};
ghost use Rattle.std.specs.Option.{option_map};
ghost use Rattle.std.specs.Result.{result_ok};
ghost use Rattle.std.specs.Str.{IsUtf8};
ghost use Rattle.btf_table.specs.Records.{SetsType};

pub(crate) use crate::table::changes::Changes;
use crate::table::header::HEADER_LEN;
pub use crate::table::header::{Header, section};
pub use crate::table::joining::{append_table, cut_table, join_tables, string_len};
pub(crate) use crate::table::limits::{record_fits, text_fits};
pub use crate::table::text::{
    BtfStr, bytes_at, comparable_end_in, first_byte, has_name_at, readable_bytes, readable_end,
};
use crate::table::text::{find_named, has_name, strings_from, text_at};
pub use crate::table::types::types_len;
use crate::table::types::{append_types, clone_types, read_types};
pub use crate::table::walk::{Extent, WALK_LIMIT, product};
use crate::table::walk::{resolve, size};
use btf_plain::{BtfError, BtfKind, Endianness};
use btf_records::BtfType;
use std::alloc::Global;
use std::marker::Model;
use std::slice::Iter;

/// The maximum length in bytes of the strings, and of the records after id 0.
pub(crate) const SECTION_LIMIT: usize = 4294967295;

/// A table of types: the byte order, the header's magic, version and flags, the strings, and the types by id.
///
/// Id 0 is the type that has no bytes. The other types have ids from 1 on, by their place in the type section.
#[derive(Debug, Drop)]
pub struct Btf {
    endianness: Endianness,
    magic: u16,
    version: u8,
    flags: u8,
    strings: Vec<u8>,
    types: Vec<BtfType>,
    /// The length of the records from id 1 on, in bytes.
    type_len: u32,
}

impl Model for Btf {
    ghost use Rattle.btf_model.specs.Table.{Table};

    ghost Value = { Table };

    ghost use Rattle.btf_table.specs.Btf.{table_of, IsConsistent};

    ghost view = { table_of };

    ghost invariant = { IsConsistent };
}

impl Btf {
    /// An empty table in little-endian order: one string byte, which is zero, and the type of id 0.
    pub fn new(alloc: Global) -> Result<Btf, BtfError>
        ensures { IsOrNoMemory (λ b. b) result (Ok empty_table) }
    {
        let mut strings = Vec::with_capacity(alloc, 1)?;
        strings.push(0)?;
        let mut types = Vec::with_capacity(alloc, 1)?;
        types.push(BtfType::Unknown)?;
        Ok(Btf {
            endianness: Endianness::Little,
            magic: 0xeb9f,
            version: 1,
            flags: 0,
            strings,
            types,
            type_len: 0,
        })
    }

    /// Adds a text and a zero byte to the strings, and returns the offset of the text. An equal text that the table
    /// already has is not reused.
    ///
    /// Fails with `InvalidStringOffset` of the length of the strings if they would exceed 4,294,967,295 bytes. An error
    /// leaves the table unchanged.
    pub fn add_string(&mut self, text: &str) -> Result<u32, BtfError>
        ensures answer { IsOrNoMemory (λ offset. offset) result (string_place text.now self.old) }
        ensures ok { OnOk result (self.new ≡ with_string text.now self.old) }
        ensures err { OnErr result (self.new ≡ self.old) }
    {
        let offset = self.strings.len();
        text_fits(offset, text)?;
        self.strings.reserve(text.len() + 1)?;
        self.strings.extend_from_slice(text.as_bytes())?;
        self.strings.push(0)?;
        Ok(offset as u32)
    }

    /// Adds a type, and returns its id.
    ///
    /// Fails with `InvalidTypeInfo` if the records would exceed 4,294,967,295 bytes. An error leaves the table
    /// unchanged.
    pub fn add_type(&mut self, btf_type: BtfType) -> Result<u32, BtfError>
        ensures answer { IsOrNoMemory (λ id. id) result (type_place (record_of btf_type) self.old) }
        ensures ok { OnOk result (self.new ≡ with_type (record_of btf_type)
            (fallback_of btf_type) self.old) }
        ensures err { OnErr result (self.new ≡ self.old) }
    {
        let size = btf_type.type_info_size();
        let type_len = self.type_len as usize;
        record_fits(type_len, size)?;
        let id = self.types.len() as u32;
        self.types.push(btf_type)?;
        self.type_len = (type_len + size) as u32;
        Ok(id)
    }

    /// The table that a blob represents, whose words are in this byte order.
    ///
    /// Reports the first error, in this order: `InvalidHeader` for fewer than 24 bytes, or for strings that exceed the
    /// data; `InvalidTypeInfo` for types that exceed the data; and, record after record, `InvalidTypeInfo` for a
    /// truncated record and `InvalidTypeKind` for a kind that the library does not read. Magic, version and flags are
    /// retained as they are, and not checked.
    pub fn parse(alloc: Global, data: &[u8], endianness: Endianness) -> Result<Btf, BtfError>
        // The table that the bytes represent, or the first reason to refuse them.
        ensures parsed { MeetsOrNoMemory (λ b. b) result (Parses endianness «data».now) }
        // Parsing succeeds exactly for bytes that represent a table.
        ensures only_table { (t : Table) → IsTable endianness «data».now t
            → IsOrNoMemory (λ b. b) result (Ok t) }
        ensures only_refusal { (f : Refusal) → IsRefusal endianness «data».now f
            → IsOrNoMemory (λ b. b) result (Err f) }
    {
        read_table(alloc, data, endianness)
    }

    /// The blob of the table, in the table's own order: the header, the records from id 1 on, the strings.
    pub fn to_bytes(&self) -> Result<Vec<u8>, BtfError>
        ensures written { IsOrNoMemory (λ v. v.items) result (Ok (canon self.now)) }
        // Parsed in the table's order, the bytes give the table again, except for retained 64-bit enum values.
        ensures parses_back { IfOk result (λ v. IsTable self.now.order v.items (strip self.now)) }
    {
        let header = Header {
            magic: self.magic,
            version: self.version,
            flags: self.flags,
            hdr_len: HEADER_LEN as u32,
            type_off: 0,
            type_len: self.type_len,
            str_off: self.type_len,
            str_len: self.strings.len() as u32,
        };
        let len = HEADER_LEN + self.type_len as usize + self.strings.len();
        let mut out = Vec::with_capacity(*self.strings.allocator(), len)?;
        header.append_to(&mut out, self.endianness)?;
        append_types(&mut out, &self.types[1..], self.endianness)?;
        out.extend_from_slice(&self.strings)?;
        Ok(out)
    }

    /// The text at a string offset, up to the first zero byte. In bytes that are not UTF-8, U+FFFD replaces each
    /// maximal invalid piece.
    ///
    /// Fails with `InvalidStringOffset` of the offset if there is no zero byte at the offset or after it. Allocates
    /// memory only if the bytes are not UTF-8.
    #[inline(always)]
    pub fn string_at(&self, offset: u32) -> Result<BtfStr<'_>, BtfError>
        ensures text { IsOrNoMemory text_bytes result (model.text_at self.now.strings offset) }
        ensures no_memory { ReadsWithoutMemory self.now.strings offset result }
    {
        text_at(*self.strings.allocator(), &self.strings, offset)
    }

    /// The name of a type, as `string_at` reads it; the name of an `Unknown` is at offset 0.
    pub fn type_name(&self, btf_type: &BtfType) -> Result<BtfStr<'_>, BtfError>
        ensures text { IsOrNoMemory text_bytes result
            (model.text_at self.now.strings (record_of btf_type.now).name) }
        ensures no_memory { ReadsWithoutMemory self.now.strings
            (record_of btf_type.now).name result }
    {
        self.string_at(btf_type.name_offset())
    }

    /// The name of a type for a message; None if it can't be read. `OutOfMemory` is the only error.
    pub fn err_type_name(&self, btf_type: &BtfType) -> Result<Option<String>, BtfError>
        ensures { IsOrNoMemory (option_map string_bytes) result
            (Ok (result_ok (model.text_at self.now.strings (record_of btf_type.now).name))) }
    {
        match self.type_name(btf_type) {
            Ok(BtfStr::Borrowed(text)) => Ok(Some(text.to_string(*self.strings.allocator())?)),
            Ok(BtfStr::Owned(text)) => Ok(Some(text)),
            Err(BtfError::OutOfMemory) => Err(BtfError::OutOfMemory),
            Err(_) => Ok(None),
        }
    }

    /// The least id of a type of this kind and name. Id 0 is searched too.
    ///
    /// Fails with `InvalidStringOffset` if a type of this kind with a lower id has a name that can't be read, and with
    /// `UnknownBtfTypeName` if no type has the kind and the name.
    pub fn id_by_type_name_kind(&self, name: &str, kind: BtfKind) -> Result<u32, BtfError>
        ensures { MeetsOrNoMemory (λ id. id) result
            (FindsName self.now.strings self.now.records (kinds.kind kind) name.now) }
    {
        find_named(
            *self.strings.allocator(),
            &self.strings,
            &self.types,
            name,
            kind,
        )
    }

    /// The type of an id. Its kind is the kind in its info word. Fails with `UnknownBtfType` of the id if there is no
    /// such type.
    pub fn type_by_id(&self, type_id: u32) -> Result<&BtfType, BtfError>
        ensures { MatchResult result (λ t. IsType self.now type_id t.now)
            (λ e. (length self.now.records ≤ type_id) × (e ≡ BtfError.UnknownBtfType type_id)) }
    {
        if type_id as usize >= self.types.len() {
            return Err(BtfError::UnknownBtfType { type_id });
        }
        Ok(self.type_at(type_id))
    }

    /// The types in the order of their ids, id 0 first.
    pub fn types(&self) -> Iter<'_, BtfType>
        ensures records { map record_of (iter_rest result) ≡ self.now.records }
        ensures fallbacks { map fallback_of (iter_rest result) ≡ self.now.fallbacks }
    {
        self.types.iter()
    }

    /// Whether the type of id 0 is the only one.
    pub fn is_empty(&self) -> bool
        ensures { IsTrue result ↔ (self.now.records ≡ unknown ∷ []) }
    {
        self.types.len() < 2
    }

    /// The id of the type that an id resolves to: the first type that is no modifier, after the modifiers TYPEDEF,
    /// VOLATILE, CONST, RESTRICT and TYPE_TAG.
    ///
    /// Fails with `UnknownBtfType` of an id that has no type, and with `MaximumTypeDepthReached` of `type_id` if the
    /// first 32 types are modifiers. Allocates no memory.
    #[inline(always)]
    pub fn resolve_type(&self, type_id: u32) -> Result<u32, BtfError>
        ensures { Meets (λ id. id) result (Resolves self.now.records type_id) }
    {
        resolve(&self.types, type_id)
    }

    /// The size of a type in bytes. The walk follows each type that refers to one other type, such as a modifier, the
    /// element type of an array or the return type of a prototype, until a type gives a size; a pointer has size 8. The
    /// size is multiplied by the length of each array on the walk.
    ///
    /// Reports the first error on the walk: `UnknownBtfType` of an id that has no type, `UnexpectedBtfType` of the id
    /// of an Unknown, a FWD or a FUNC, `InvalidTypeInfo` for a product of lengths or a size that exceeds 32 bits, and
    /// `MaximumTypeDepthReached` of `type_id` if the first 32 types give no size. Allocates no memory.
    #[inline(always)]
    pub fn type_size(&self, type_id: u32) -> Result<usize, BtfError>
        ensures { Meets (λ n. n) result (HasSize self.now.records type_id) }
    {
        Ok(size(&self.types, type_id)? as usize)
    }

    /// An equal table, fallbacks included. `OutOfMemory` is the only error.
    pub fn try_clone(&self) -> Result<Self, BtfError>
        ensures { IsOrNoMemory (λ b. b) result (Ok self.now) }
    {
        Ok(Btf {
            endianness: self.endianness,
            magic: self.magic,
            version: self.version,
            flags: self.flags,
            strings: Vec::from_slice(*self.strings.allocator(), &self.strings)?,
            types: clone_types(&self.types)?,
            type_len: self.type_len,
        })
    }

    /// The allocator of the table's memory.
    pub(crate) fn allocator(&self) -> Global
        // Each record has a kind.
        ensures { HaveKinds self.now }
    {
        *self.strings.allocator()
    }

    /// The type of an id of the table.
    #[inline(always)]
    pub(crate) fn type_at(&self, type_id: u32) -> &BtfType
        requires { type_id < length self.now.records }
        ensures { IsType self.now type_id result.now }
    {
        let btf_type = &self.types[type_id as usize];
        // The contract is about the kind in the info word and the length of the tail, which this shows.
        let _ = btf_type.kind();
        btf_type
    }

    /// The types by id.
    pub(crate) fn as_slice(&self) -> &[BtfType]
        ensures records { map record_of result.now ≡ self.now.records }
        ensures fallbacks { map fallback_of result.now ≡ self.now.fallbacks }
        ensures ids { length result.now < 2 ^ 32 }
        // Each record except the first has at least 12 bytes.
        ensures long { 12 * length result.now ≤ length (type_bytes self.now) + 12 }
        ensures first { (rs : List Record) × (self.now.records ≡ unknown ∷ rs) }
    {
        &self.types
    }

    /// The end of the string offsets at which a text can be read.
    pub(crate) fn readable_end(&self) -> usize
        ensures { IsReadableEnd self.now.strings result }
    {
        readable_end(&self.strings)
    }

    /// Fails with `InvalidStringOffset` of an offset at which no text can be read; `readable_end` is the end of the
    /// readable offsets. The text itself is not read, however long it is.
    pub(crate) fn check_name(&self, offset: u32, readable_end: usize) -> Result<(), BtfError>
        requires { IsReadableEnd self.now.strings readable_end }
        ensures { IsOrNoMemory (λ u. u) result
            (checked (name_is_read (text_at self.now.strings offset)) tt) }
    {
        let offset = offset as usize;
        if offset < readable_end {
            Ok(())
        } else {
            Err(BtfError::InvalidStringOffset { offset })
        }
    }

    /// The strings from an offset on.
    pub(crate) fn strings_from(&self, offset: u32) -> &[u8]
        ensures { result.now ≡ drop offset self.now.strings }
    {
        strings_from(&self.strings, offset)
    }

    /// The length of the strings in bytes.
    pub(crate) fn string_len(&self) -> usize
        ensures len { result ≡ length self.now.strings }
        ensures limit { result ≤ SECTION_LIMIT }
    {
        self.strings.len()
    }

    /// The length of the records from id 1 on, in bytes. Each of them has at least 12.
    pub(crate) fn type_len(&self) -> usize
        ensures len { result ≡ length (type_bytes self.now) }
        ensures limit { result ≤ SECTION_LIMIT }
        ensures strings { length self.now.strings ≤ SECTION_LIMIT }
        ensures long { 12 * length self.now.records ≤ result + 12 }
    {
        self.type_len as usize
    }

    /// The byte order in which the table is written.
    pub fn endianness(&self) -> Endianness
        ensures { result ≡ self.now.order }
    {
        self.endianness
    }
}

/// The allocator of a table's memory, for the crates that use this one.
pub fn allocator_of(table: &Btf) -> Global
    // Each record has a kind.
    ensures { HaveKinds table.now }
{
    table.allocator()
}

/// The number of types of a table, with the type of id 0, for the crates that use this one.
pub fn type_count(table: &Btf) -> u32
    ensures { result ≡ length table.now.records }
{
    table.as_slice().len() as u32
}

/// Replaces the type of an id by a type of the same kind and length, for the crates that use this one. Allocates no
/// memory.
pub fn set_type(table: &mut Btf, type_id: u32, btf_type: BtfType)
    requires { HasShapeOf table.old type_id (record_of btf_type) }
    ensures { SetsType table.old table.new type_id btf_type }
{
    // The contract is about the kind in the info word, which this shows.
    let _ = btf_type.kind();
    table.types[type_id as usize] = btf_type;
}

/// The bytes of a type's name, from its offset up to the first zero byte; they need not be UTF-8. None if there is no
/// zero byte at the offset or after it.
pub fn name_bytes<'a>(table: &'a Btf, btf_type: &BtfType) -> Option<&'a [u8]>
    ensures { option_map (λ b. b.now) result
        ≡ model.bytes_at table.now.strings (record_of btf_type.now).name }
{
    bytes_at(&table.strings, btf_type.name_offset(), 0)
}

/// The string section, for the crates that use this one.
pub fn string_section(table: &Btf) -> &[u8]
    ensures { result.now ≡ table.now.strings }
{
    &table.strings
}

/// The strings up to and with the last zero byte: a name can be read at each of their offsets, and at no other one.
pub fn readable_strings(table: &Btf) -> &[u8]
    ensures { (end : ℕ) × IsReadableEnd table.now.strings end
        × (result.now ≡ take end table.now.strings) }
{
    let end = readable_end(&table.strings);
    &table.strings[..end]
}

/// The bytes of the name at a string offset, from the offset up to the first zero byte, if it is among the first
/// `limit` bytes; they need not be UTF-8. Reads at most `limit` bytes.
pub fn short_name(table: &Btf, offset: u32, limit: usize) -> Option<&[u8]>
    ensures { option_map (λ b. b.now) result
        ≡ model.bytes_at (take limit (drop offset table.now.strings)) 0 }
{
    let rest = strings_from(&table.strings, offset);
    let front = &rest[..limit.min(rest.len())];
    bytes_at(front, 0, 0)
}

/// The end of the offsets at which a text of the table can be read, for `is_named`, if a name can be compared with
/// bytes; else None. A search for a name asks for it once.
pub fn comparable_end(table: &Btf, name: &str) -> Option<usize>
    ensures { IfSome result (λ end. IsReadableEnd table.now.strings end × IsComparable name.now) }
{
    comparable_end_in(&table.strings, name)
}

/// Whether the text at a string offset is this name, or `InvalidStringOffset` if there is no text. If the name can be
/// compared with bytes, no text is read to its end, however long it is.
pub fn is_named(
    table: &Btf,
    offset: u32,
    name: &str,
    readable_end: Option<usize>,
) -> Result<bool, BtfError>
    requires { IfSome readable_end
        (λ end. IsReadableEnd table.now.strings end × IsComparable name.now) }
    ensures named { MeetsOrNoMemory (λ b. b) result (HasName table.now.strings offset name.now) }
    // Only bytes that are not UTF-8 need an allocation.
    ensures no_memory { IfSome (model.bytes_at table.now.strings offset) IsUtf8
        → Meets (λ b. b) result (HasName table.now.strings offset name.now) }
{
    has_name(
        *table.strings.allocator(),
        &table.strings,
        offset,
        name,
        readable_end,
    )
}

/// The table that a blob represents, or the first reason to refuse the blob.
fn read_table(alloc: Global, data: &[u8], endianness: Endianness) -> Result<Btf, BtfError>
    ensures { MeetsOrNoMemory (λ b. b) result (Parses endianness «data».now) }
{
    let header = Header::read(data, endianness)?;
    let Some(strings) = section(data, header.hdr_len, header.str_off, header.str_len) else {
        return Err(BtfError::InvalidHeader);
    };
    let Some(types) = section(data, header.hdr_len, header.type_off, header.type_len) else {
        return Err(BtfError::InvalidTypeInfo);
    };
    let types = read_types(alloc, types, endianness)?;
    Ok(Btf {
        endianness,
        magic: header.magic,
        version: header.version,
        flags: header.flags,
        strings: Vec::from_slice(alloc, strings)?,
        types,
        type_len: header.type_len,
    })
}
