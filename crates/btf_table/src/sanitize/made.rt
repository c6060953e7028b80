//! What a pass has made so far.

ghost use Rattle.std.specs.Prelude.{◌≡◌, ◌+◌, ◌++◌, ◌<◌, [], ◌∷◌, length, None, Some, IfOk, OnOk, Ok};
ghost use Rattle.btf_rewrite_model.specs.Pass.{filler};
ghost use Rattle.btf_model.specs.Table.{type_bytes};
ghost use Rattle.btf_plain.specs.Error.{IsOrNoMemory};
ghost use Rattle.btf_records.specs.BtfType.{record_of};
ghost use Rattle.btf_table.specs.Adding.{next_id, HasRoom};
ghost use Rattle.btf_table.specs.Appended.{member_type_place, AddsMemberType, filler_place, AddsFiller};

use crate::sanitize::enumeration64::append_member_type;
use crate::sanitize::filler::append_filler;
use crate::sanitize::in_place::denied_name_offset;
use crate::sanitize::outcome::Outcome;
use crate::table::{Btf, Changes};
use btf_plain::BtfError;
use btf_records::BtfType;
use std::alloc::AllocError;

/// What a pass has made of the ids below the current one.
#[derive(Drop)]
pub struct Made {
    pub changes: Changes,
    /// The string offset of the new name of each of these ids.
    pub names: Vec<u32>,
    /// The member type of the UNIONs that replace ENUM64s, after it is appended.
    pub member_type: Option<u32>,
    /// The filler's variable, after it is appended.
    pub filler: Option<u32>,
}

impl Made {
    ghost use Rattle.btf_model.specs.Record.{kind_of};
    ghost use Rattle.btf_records.specs.BtfType.{type_kind};
    ghost use Rattle.btf_table.specs.PassStep.{kept_changes, kept_ids, made_of, placed_of};

    /// What a pass has made when it begins: nothing. The type of id 0 never changes.
    pub fn new(btf: &Btf) -> Result<Made, AllocError>
        ensures types { IfOk result (λ m. m.changes.types.items ≡ []) }
        ensures strings { IfOk result (λ m. m.changes.new_strings.items ≡ []) }
        ensures new_types { IfOk result (λ m. m.changes.new_types.items ≡ []) }
        ensures type_len { IfOk result (λ m. m.changes.type_len ≡ length (type_bytes btf.now)) }
        ensures room { IfOk result (λ m. HasRoom btf.now m.changes) }
        ensures names { IfOk result (λ m. m.names.items ≡ 0 ∷ []) }
        ensures member_type { IfOk result (λ m. m.member_type ≡ None) }
        ensures filler { IfOk result (λ m. m.filler ≡ None) }
    {
        let mut names = Vec::with_capacity(btf.allocator(), btf.as_slice().len())?;
        names.push(0)?;
        Ok(Made {
            changes: Changes::new(btf),
            names,
            member_type: None,
            filler: None,
        })
    }

    /// The member type of the UNIONs that replace ENUM64s. It is appended if there is none yet. Fails with
    /// `InvalidStringOffset` or `InvalidTypeInfo` if it does not fit in the strings or the types.
    pub fn member_type(&mut self, btf: &Btf) -> Result<u32, BtfError>
        requires { HasRoom btf.now self.old.changes }
        ensures there { (id : _) → self.old.member_type ≡ Some id → (result ≡ Ok id)
            × (self.new ≡ self.old) }
        ensures answer { self.old.member_type ≡ None
            → IsOrNoMemory (λ id. id) result (member_type_place btf.now self.old.changes) }
        ensures adds { self.old.member_type ≡ None
            → OnOk result (AddsMemberType btf.now self.old.changes self.new.changes) }
        ensures made { self.old.member_type ≡ None
            → OnOk result (self.new.member_type ≡ Some (next_id btf.now self.old.changes)) }
        ensures names { self.new.names ≡ self.old.names }
        ensures filler { self.new.filler ≡ self.old.filler }
    {
        if let Some(id) = self.member_type {
            return Ok(id);
        }
        let id = append_member_type(btf, &mut self.changes)?;
        self.member_type = Some(id);
        Ok(id)
    }

    /// The filler's variable. The filler is appended if there is none yet. Fails with `InvalidStringOffset` or
    /// `InvalidTypeInfo` if it does not fit in the strings or the types.
    pub fn filler(&mut self, btf: &Btf) -> Result<u32, BtfError>
        requires { HasRoom btf.now self.old.changes }
        ensures there { (id : _) → self.old.filler ≡ Some id → (result ≡ Ok id)
            × (self.new ≡ self.old) }
        ensures answer { self.old.filler ≡ None
            → IsOrNoMemory (λ id. id) result (filler_place btf.now self.old.changes) }
        ensures adds { self.old.filler ≡ None
            → OnOk result (AddsFiller btf.now self.old.changes self.new.changes) }
        ensures made { self.old.filler ≡ None
            → OnOk result (self.new.filler ≡ Some (next_id btf.now self.old.changes + 1)) }
        ensures names { self.new.names ≡ self.old.names }
        ensures member_type { self.new.member_type ≡ self.old.member_type }
    {
        if let Some(id) = self.filler {
            return Ok(id);
        }
        let id = append_filler(btf, &mut self.changes)?;
        self.filler = Some(id);
        Ok(id)
    }

    /// Records what a type becomes: the type that replaces it, or its id if it will change in place.
    #[inline(always)]
    pub fn keep(
        &mut self,
        denied: &mut Vec<u32>,
        id: u32,
        btf_type: &BtfType,
        outcome: Outcome,
    ) -> Result<(), AllocError>
        requires { kind_of (record_of btf_type.now).info ≡ Some (type_kind btf_type.now) }
        ensures types { OnOk result (self.new.changes.types.items
            ≡ kept_changes self.old.changes.types.items id outcome) }
        ensures denied { OnOk result (denied.new.items ≡ kept_ids denied.old.items id outcome) }
        ensures names { OnOk result (self.new.names.items ≡ self.old.names.items
            ++ (record_of (made_of outcome btf_type.now)).name ∷ []) }
        ensures strings { self.new.changes.new_strings ≡ self.old.changes.new_strings }
        ensures new_types { self.new.changes.new_types ≡ self.old.changes.new_types }
        ensures type_len { self.new.changes.type_len ≡ self.old.changes.type_len }
        ensures member_type { self.new.member_type ≡ self.old.member_type }
        ensures filler { self.new.filler ≡ self.old.filler }
        ensures kind { OnOk result (kind_of (record_of (placed_of outcome btf_type.now)).info
            ≡ Some (type_kind (placed_of outcome btf_type.now))) }
        ensures len { OnOk result (length (record_of (made_of outcome btf_type.now)).tail
            ≡ length (record_of (placed_of outcome btf_type.now)).tail) }
    {
        match outcome {
            Outcome::Same => self.names.push(btf_type.name_offset())?,
            Outcome::Denied => {
                self.names.push(denied_name_offset(btf_type))?;
                denied.push(id)?;
            }
            Outcome::Other(new_type) => {
                self.names.push(new_type.name_offset())?;
                self.changes.types.push((id, new_type))?;
            }
        }
        Ok(())
    }
}
