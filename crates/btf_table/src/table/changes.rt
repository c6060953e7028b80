//! Changes of a table. They are stored apart from the table, and then applied in one step.

ghost use Rattle.std.specs.Prelude.{◌≡◌, length, OnOk, OnErr, IfOk, IfErr};
ghost use Rattle.btf_model.specs.Table.{Table};
ghost use Rattle.btf_table.specs.Denied.{AreDenied, AreTypeIds, with_denied};
ghost use Rattle.btf_table.specs.Changes.{put_all, put_back, before_changes, changed, AreInside, AreChangesOf, Undoes};
ghost use Rattle.btf_table.specs.Adding.{text_place};

use crate::sanitize::deny;
use crate::table::Btf;
use crate::table::limits::{record_fits, text_fits};
use btf_plain::BtfError;
use btf_records::BtfType;
use std::alloc::{AllocError, Global};
use std::mem;

/// New types that replace others, and what is appended.
#[derive(Drop)]
pub struct Changes {
    /// Each new type with the id of the type that it replaces.
    pub types: Vec<(u32, BtfType)>,
    /// The bytes that are appended to the strings.
    pub new_strings: Vec<u8>,
    /// The types that are appended.
    pub new_types: Vec<BtfType>,
    /// The length of the records from id 1 on in bytes, with the changes.
    pub type_len: usize,
}

impl Changes {
    ghost use Rattle.std.specs.Prelude.{◌+◌, ◌*◌, ◌≤◌, [], ◌∷◌, ◌++◌};
    ghost use Rattle.btf_model.specs.Table.{section_limit, type_bytes};
    ghost use Rattle.btf_records.specs.BtfType.{record_of, fallback_of};
    ghost use Rattle.std.specs.Prelude.{None};
    ghost use Rattle.btf_rewrite_model.specs.Checks.{fits, record_len};
    ghost use Rattle.btf_plain.specs.Error.{IsOrNoMemory};
    ghost use Rattle.btf_table.specs.Adding.{next_id, HasRoom, Adds};
    ghost use Rattle.btf_table.specs.Checked.{checked};

    /// No changes of a table.
    pub fn new(btf: &Btf) -> Changes
        ensures types { result.types.items ≡ [] }
        ensures strings { result.new_strings.items ≡ [] }
        ensures new_types { result.new_types.items ≡ [] }
        ensures type_len { result.type_len ≡ length (type_bytes btf.now) }
        ensures room { HasRoom btf.now result }
    {
        let alloc = btf.allocator();
        Changes {
            types: Vec::new(alloc),
            new_strings: Vec::new(alloc),
            new_types: Vec::new(alloc),
            type_len: btf.type_len(),
        }
    }

    /// Appends a text and a zero byte to the strings, and returns the offset of the text. Fails with
    /// `InvalidStringOffset` of this offset if the strings of the table and the new strings would exceed their limit.
    pub fn append_text(&mut self, btf: &Btf, text: &str) -> Result<u32, BtfError>
        requires { HasRoom btf.now self.old }
        ensures answer { IsOrNoMemory (λ offset. offset) result
            (text_place self.old btf.now text.now) }
        ensures adds { OnOk result (Adds btf.now self.old self.new (text.now ∷ []) []) }
    {
        let offset = btf.string_len() + self.new_strings.len();
        text_fits(offset, text)?;
        self.push_text(text)?;
        Ok(offset as u32)
    }

    /// Appends a type, and returns its id. Fails with `InvalidTypeInfo` if the records would exceed their limit.
    pub fn append_type(&mut self, btf: &Btf, btf_type: BtfType) -> Result<u32, BtfError>
        requires room { HasRoom btf.now self.old }
        requires no_fallback { fallback_of btf_type ≡ None }
        ensures answer { IsOrNoMemory (λ id. id) result
            (checked (fits self.old.type_len (record_len (record_of btf_type)))
            (next_id btf.now self.old)) }
        ensures adds { OnOk result (Adds btf.now self.old self.new [] (record_of btf_type ∷ [])) }
    {
        let id = btf.as_slice().len() + self.new_types.len();
        record_fits(self.type_len, btf_type.type_info_size())?;
        self.push_type(btf_type)?;
        Ok(id as u32)
    }

    /// Appends a text and a zero byte to the strings, whatever their length.
    pub fn push_text(&mut self, text: &str) -> Result<(), AllocError>
        ensures strings { OnOk result (self.new.new_strings.items ≡ self.old.new_strings.items
            ++ (text.now ++ 0 ∷ [])) }
        ensures types { self.new.types ≡ self.old.types }
        ensures new_types { self.new.new_types ≡ self.old.new_types }
        ensures type_len { self.new.type_len ≡ self.old.type_len }
    {
        self.new_strings.extend_from_slice(text.as_bytes())?;
        self.new_strings.push(0)?;
        Ok(())
    }

    /// Appends a type whose record fits.
    pub fn push_type(&mut self, btf_type: BtfType) -> Result<(), AllocError>
        requires { self.old.type_len + (12 + 4 * length (record_of btf_type).tail) ≤ section_limit }
        ensures strings { self.new.new_strings ≡ self.old.new_strings }
        ensures types { self.new.types ≡ self.old.types }
        ensures new_types { OnOk result
            (self.new.new_types.items ≡ self.old.new_types.items ++ btf_type ∷ []) }
        ensures type_len { OnOk result (self.new.type_len
            ≡ self.old.type_len + (12 + 4 * length (record_of btf_type).tail)) }
    {
        let len = btf_type.type_info_size();
        self.new_types.push(btf_type)?;
        self.type_len += len;
        Ok(())
    }
}

/// What is needed to revert changes of a table.
#[derive(Drop)]
pub struct Undo {
    /// The types that were replaced, each with its id.
    types: Vec<(u32, BtfType)>,
    /// The lengths of the strings and of the types, and of the records in bytes.
    string_len: usize,
    count: usize,
    type_len: u32,
}

/// Swaps the types of these ids with the given types.
fn swap_types(types: &mut [BtfType], changed: &mut [(u32, BtfType)])
    requires { AreInside (length types.old) changed.old }
    ensures put { types.new ≡ put_all changed.old types.old }
    ensures old { changed.new ≡ before_changes changed.old types.old }
{
    for at in 0..changed.len() {
        let id = changed[at].0 as usize;
        mem::swap(&mut types[id], &mut changed[at].1);
    }
}

/// Puts the replaced types back, the last one first.
fn put_back_types(types: &mut [BtfType], old: &mut [(u32, BtfType)])
    requires { AreInside (length types.old) old.old }
    ensures { types.new ≡ put_back old.old types.old }
{
    for gone in 0..old.len() {
        let at = old.len() - 1 - gone;
        let id = old[at].0 as usize;
        mem::swap(&mut types[id], &mut old[at].1);
    }
}

/// Changes the types of these ids in place, as `deny` does.
fn deny_each(alloc: Global, types: &mut [BtfType], ids: &[u32])
    requires { AreTypeIds (length types.old) ids.now }
    ensures { AreDenied ids.now types.old types.new }
{
    for at in 0..ids.len() {
        let id = ids[at] as usize;
        deny(alloc, &mut types[id]);
    }
}

impl Btf {
    /// Applies changes to their table, and returns what is needed to revert them. `OutOfMemory` is the only error, and
    /// leaves the table unchanged.
    pub(crate) fn apply(&mut self, mut changes: Changes) -> Result<Undo, BtfError>
        requires { AreChangesOf self.old changes }
        ensures memory { IfErr result (λ e. e ≡ BtfError.OutOfMemory) }
        ensures ok { OnOk result (self.new ≡ changed self.old changes) }
        ensures undo { IfOk result (λ undo. Undoes undo self.new self.old) }
        ensures err { OnErr result (self.new ≡ self.old) }
    {
        let string_len = self.strings.len();
        let count = self.types.len();
        let type_len = self.type_len;
        self.strings.reserve(changes.new_strings.len())?;
        self.types.reserve(changes.new_types.len())?;
        self.strings.extend_from_slice(&changes.new_strings)?;
        self.types.append(&mut changes.new_types)?;
        swap_types(&mut self.types, &mut changes.types);
        self.type_len = changes.type_len as u32;
        Ok(Undo {
            types: changes.types,
            string_len,
            count,
            type_len,
        })
    }

    /// Reverts changes of the table.
    pub(crate) fn undo(&mut self, mut undo: Undo)
        requires { (old : Table) × Undoes undo self.old old }
        ensures { (old : Table) → Undoes undo self.old old → self.new ≡ old }
    {
        put_back_types(&mut self.types, &mut undo.types);
        self.types.truncate(undo.count);
        self.strings.truncate(undo.string_len);
        self.type_len = undo.type_len;
    }

    /// Changes the types of these ids in place, as `deny` does. Allocates no memory.
    pub(crate) fn deny_types(&mut self, ids: &[u32])
        requires { AreTypeIds (length self.old.records) ids.now }
        ensures { self.new ≡ with_denied ids.now self.old }
    {
        let alloc = self.allocator();
        deny_each(alloc, &mut self.types, ids);
    }
}
