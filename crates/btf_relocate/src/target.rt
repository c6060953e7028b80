//! The table that a program is relocated against.

ghost use Rattle.std.specs.Prelude.{◌≡◌, ◌+◌, ◌==◌, ℕ, Some, IfOk, IfErr, if◌then◌else◌, slice_get, take};
ghost use Rattle.std.specs.Option.{option_map};
ghost use Rattle.std.specs.List.{list_any};
ghost use Rattle.std.specs.Str.{bytes_eq};
ghost use Rattle.btf_model.specs.Record.{Record, kind_number, kind_of};
ghost use Rattle.btf_plain.specs.Kind as kinds;
ghost use Rattle.btf_plain.specs.declared.error.BtfError.TheVariants.{OutOfMemory};
ghost use Rattle.btf_relocate_model.specs.Candidates.{candidate_limit, compared_number, candidates, first_candidates};
ghost use Rattle.btf_relocate.specs.Index.{IsIndex, kind_code, key_of, key_cmp, ids_with_name};
ghost use Rattle.btf_relocate.specs.TargetIndex.{IndexesTable, has_key, index_in};
ghost use Rattle.btf_relocate.specs.Entries.{AreEntries};
ghost use Rattle.btf_relocate_model.specs.Types as model;

use crate::lookup::name_or_none;
use crate::name::essential_name;
use btf_plain::{BtfError, BtfKind, Head};
use btf_table::Btf;
use btf_view::TableRef;
use std::alloc::{AllocError, Global};
use std::cmp::Ordering;
use std::marker::Model;

/// The maximum number of candidates of a record in one table.
pub const CANDIDATE_LIMIT: usize = 256;

/// The names that compilers give to the C type `long`.
const LONG_NAMES: [&str; 11] = [
    "long",
    "long int",
    "int long",
    "unsigned long",
    "long unsigned",
    "unsigned long int",
    "unsigned int long",
    "long unsigned int",
    "long int unsigned",
    "int unsigned long",
    "int long unsigned",
];

/// A named type of the target, as the index sorts it.
#[derive(Clone, Copy)]
struct Entry<'t> {
    name: &'t [u8],
    kind: u32,
    type_id: u32,
}

/// An index of a table's types by their essential names and kinds, and the size of a pointer. It has 4 bytes for each
/// type that has a name. It does not hold the table, so it can be stored beside the table; [`Target::with_index`] takes
/// both.
#[derive(Debug, Drop)]
pub struct TargetIndex {
    pointer_size: u32,
    ids: Vec<u32>,
}

impl TargetIndex {
    /// The index of a table. `OutOfMemory` is the only error.
    pub fn new(alloc: Global, table: &Btf) -> Result<TargetIndex, BtfError>
        ensures indexed { IfOk result (λ index. IndexesTable table.now index) }
        ensures only { IfErr result (λ e. e ≡ OutOfMemory) }
    {
        let table = TableRef::of_table(table);
        TargetIndex::of_types(alloc, &table)
    }

    /// The index of a table, whatever holds it.
    fn of_types(alloc: Global, table: &TableRef<'_>) -> Result<TargetIndex, BtfError>
        ensures indexed { IfOk result (λ index. IndexesTable table.now index) }
        ensures only { IfErr result (λ e. e ≡ OutOfMemory) }
    {
        let mut entries = types_with_name(alloc, table)?;
        entries.sort_by_key(|entry| (entry.name, entry.kind))?;
        let mut ids = Vec::with_capacity(alloc, entries.len())?;
        for entry in &entries {
            ids.push(entry.type_id)?;
        }
        Ok(TargetIndex {
            pointer_size: pointer_size(table),
            ids,
        })
    }

    /// The ids of the types of the indexed table that have this kind and a name with the same essential name, in rising
    /// order. An ENUM64 counts as an ENUM.
    pub fn candidates(&self, table: &Btf, name: &[u8], kind: BtfKind) -> &[u32]
        requires { IndexesTable table.now self.now }
        ensures { result.now ≡ candidates table.now name.now (kind_code kind) }
    {
        let table = TableRef::of_table(table);
        self.candidates_in(&table, name, kind)
    }

    /// The same of a table, whatever holds it.
    fn candidates_in(&self, table: &TableRef<'_>, name: &[u8], kind: BtfKind) -> &[u32]
        requires { IndexesTable table.now self.now }
        ensures { result.now ≡ candidates table.now name.now (kind_code kind) }
    {
        let name = essential_name(name);
        let kind = comparison_number(kind);
        let ids = self.ids.as_slice();
        let start = ids.partition_point(|id| compare(table, *id, name, kind).is_lt());
        let end = ids.partition_point(|id| compare(table, *id, name, kind).is_le());
        if start < end { &ids[start..end] } else { &[] }
    }
}

/// The index of a target.
#[derive(Debug, Drop)]
enum IndexRef<'t> {
    /// The target owns the index.
    Owned(TargetIndex),
    /// The index is stored elsewhere.
    Borrowed(&'t TargetIndex),
    /// There is none, but the size of a pointer.
    Missing(u32),
}

impl<'t> IndexRef<'t> {
    /// The index, if there is one.
    fn get(&self) -> Option<&TargetIndex>
        ensures { option_map (λ index. index.now) result ≡ index_in self.now }
    {
        match self {
            IndexRef::Owned(index) => Some(index),
            IndexRef::Borrowed(index) => Some(index),
            IndexRef::Missing(_) => None,
        }
    }
}

/// The table that a program is relocated against. It may have an index of its types by their essential names and kinds.
#[derive(Debug, Drop)]
pub struct Target<'t> {
    table: TableRef<'t>,
    index: IndexRef<'t>,
}

impl<'t> Model for Target<'t> {
    ghost use Rattle.btf_model.specs.Table.{Table};
    ghost use Rattle.btf_relocate.specs.TargetIndex.{IsIndexOf};

    ghost Value = { Table };

    ghost view = { λ g. g.table };

    ghost invariant = { λ g. IsIndexOf g.table g.index };
}

impl<'t> Target<'t> {
    /// The table, with an index that the target owns. `OutOfMemory` is the only error.
    pub fn new(alloc: Global, table: &'t Btf) -> Result<Target<'t>, BtfError>
        ensures indexed { IfOk result (λ target. target ≡ table.now) }
        ensures only { IfErr result (λ e. e ≡ OutOfMemory) }
    {
        let index = TargetIndex::new(alloc, table)?;
        Ok(Target {
            table: TableRef::of_table(table),
            index: IndexRef::Owned(index),
        })
    }

    /// The table, with an index of it that is stored elsewhere.
    pub fn with_index(table: &'t Btf, index: &'t TargetIndex) -> Target<'t>
        requires { IndexesTable table.now index.now }
        ensures { result ≡ table.now }
    {
        Target {
            table: TableRef::of_table(table),
            index: IndexRef::Borrowed(index),
        }
    }

    /// The table without an index: each search for candidates goes over all types. This is faster for a few searches.
    pub fn without_index(table: &'t Btf) -> Target<'t>
        ensures { result ≡ table.now }
    {
        Target::of_view(TableRef::of_table(table))
    }

    /// A table without an index, whatever holds it: one that was parsed, or a blob with the places of its records.
    pub fn of_view(table: TableRef<'t>) -> Target<'t>
        ensures { result ≡ table.entry }
    {
        let pointer_size = pointer_size(&table);
        Target {
            table,
            index: IndexRef::Missing(pointer_size),
        }
    }

    /// The table.
    pub fn table(&self) -> &TableRef<'t>
        ensures { result.now ≡ self.now }
    {
        &self.table
    }

    /// The size of a pointer in bytes: the size of the first INT of 4 or 8 bytes with the name of the C type `long`, or
    /// 8 if there is none.
    pub fn pointer_size(&self) -> u32
        ensures { result ≡ model.pointer_size self.now }
    {
        match &self.index {
            IndexRef::Owned(index) => index.pointer_size,
            IndexRef::Borrowed(index) => index.pointer_size,
            IndexRef::Missing(pointer_size) => *pointer_size,
        }
    }

    /// The ids of the types of this kind whose names have the same essential name, in rising order. An ENUM64 counts as
    /// an ENUM. Of more than 256, the first 257, which are enough to refuse a record.
    pub fn candidates(
        &self,
        alloc: Global,
        name: &[u8],
        kind: BtfKind,
    ) -> Result<Vec<u32>, AllocError>
        ensures { IfOk result (λ v. v.items ≡ first_candidates self.now name.now (kind_code kind)) }
    {
        match self.index.get() {
            Some(index) => {
                let ids = index.candidates_in(&self.table, name, kind);
                Vec::from_slice(alloc, first_ids(ids))
            }
            None => search(alloc, &self.table, name, kind),
        }
    }
}

/// As many of these ids as are enough to refuse a record with too many.
fn first_ids(ids: &[u32]) -> &[u32]
    ensures { result.now ≡ take (candidate_limit + 1) ids.now }
{
    if ids.len() > CANDIDATE_LIMIT {
        return &ids[..CANDIDATE_LIMIT + 1];
    }
    ids
}

/// The candidates of a table without an index.
fn search(
    alloc: Global,
    table: &TableRef<'_>,
    name: &[u8],
    kind: BtfKind,
) -> Result<Vec<u32>, AllocError>
    ensures { IfOk result (λ v. v.items ≡ first_candidates table.now name.now (kind_code kind)) }
{
    let essential = essential_name(name);
    let number = comparison_number(kind);
    let other = other_number(number);
    let mut ids = Vec::new(alloc);
    let mut from = 1;
    while let Some(type_id) = table.next_of_kinds(from, number, other) {
        from = type_id + 1;
        if has_key(table, type_id, essential, number) {
            ids.push(type_id)?;
            if ids.len() > CANDIDATE_LIMIT {
                return Ok(ids);
            }
        }
    }
    Ok(ids)
}

/// The other number of a kind that counts as this one when kinds are compared, or the same number if there is none.
fn other_number(number: u32) -> u32
    ensures { result ≡ (if number == 6 then 19 else number) }
{
    if number == BtfKind::Enum as u32 {
        return BtfKind::Enum64 as u32;
    }
    number
}

/// Whether a type has this kind and a name with this essential name.
fn has_key(table: &TableRef<'_>, type_id: u32, name: &[u8], kind: u32) -> bool
    ensures { (r : Record) → slice_get table.now.records type_id ≡ Some r
        → result ≡ has_key table.now name.now kind r }
{
    let Some(head) = table.head(type_id) else {
        return false;
    };
    if compared_kind(&head) != kind {
        return false;
    }
    // Most names begin otherwise, and neither their ends nor their flavors need be found.
    if !table.begins(head.name, name) {
        return false;
    }
    let own_name = name_or_none(table, head.name);
    if own_name.is_empty() {
        return false;
    }
    essential_name(own_name) == name
}

/// The order of the key of a type and another key.
fn compare(table: &TableRef<'_>, type_id: u32, name: &[u8], kind: u32) -> Ordering
    ensures { result ≡ key_cmp (key_of table.now type_id) (name.now, kind) }
{
    let (own_name, own_kind) = key_of(table, type_id);
    own_name.cmp(name).then(own_kind.cmp(&kind))
}

/// The key of a type in the index.
fn key_of<'t>(table: &TableRef<'t>, type_id: u32) -> (&'t [u8], u32)
    ensures { (result.0.now, result.1) ≡ key_of table.now type_id }
{
    match table.head(type_id) {
        Some(head) => (
            essential_name(name_or_none(table, head.name)),
            compared_kind(&head),
        ),
        None => (&[], 0),
    }
}

/// The number of a kind when kinds are compared: ENUM64 counts as ENUM.
pub fn comparison_number(kind: BtfKind) -> u32
    ensures code { result ≡ compared_number (kind_code kind) }
    ensures word { (info : ℕ) → kind_of info ≡ Some (kinds.kind kind)
        → result ≡ compared_number (kind_number info) }
{
    match kind {
        BtfKind::Enum64 => BtfKind::Enum as u32,
        kind => kind as u32,
    }
}

/// The same of the kind of a head.
fn compared_kind(head: &Head) -> u32
    ensures { result ≡ compared_number (kind_number head.now.info) }
{
    let kind = head.kind();
    if kind == BtfKind::Enum64 as u32 {
        return BtfKind::Enum as u32;
    }
    kind
}

/// The types that have a name, in rising order of their ids.
fn types_with_name<'t>(alloc: Global, table: &TableRef<'t>) -> Result<Vec<Entry<'t>>, AllocError>
    ensures { IfOk result (λ entries. AreEntries table.now entries.items
        (ids_with_name table.now)) }
{
    let mut entries = Vec::with_capacity(alloc, table.type_count() as usize)?;
    for type_id in 1..table.type_count() {
        let (name, kind) = key_of(table, type_id);
        if !name.is_empty() {
            entries.push(Entry {
                name,
                kind,
                type_id,
            })?;
        }
    }
    Ok(entries)
}

/// The size of a pointer in the machine that a table describes.
fn pointer_size(table: &TableRef<'_>) -> u32
    ensures { result ≡ model.pointer_size table.now }
{
    for type_id in 0..table.type_count() {
        let Some(btf_type) = table.type_at(type_id) else {
            return 8;
        };
        if let BtfKind::Int = btf_type.kind() {
            let size = btf_type.third();
            let name = name_or_none(table, btf_type.name_offset());
            if (size == 4 || size == 8) && LONG_NAMES.iter().any(|long| name == long.as_bytes()) {
                return size;
            }
        }
    }
    8
}
