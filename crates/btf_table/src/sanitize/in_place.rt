//! The rule of the kinds that change in place: it asks for at most one feature, is never refused, appends nothing, and
//! allocates no memory.

ghost use Rattle.std.specs.Prelude.{◌≡◌, None, Some, length, if◌then◌else◌};
ghost use Rattle.btf_model.specs.Record.{kind_of};
ghost use Rattle.btf_rewrite_model.specs.Made as model;
ghost use Rattle.btf_records.specs.BtfType.{record_of, fallback_of, type_kind};
ghost use Rattle.btf_table.specs.Adding.{HasRoom};
ghost use Rattle.btf_table.specs.InPlace.{denied, denied_type};
ghost use Rattle.btf_table.specs.TypeStep.{RewritesBy, ChangesInPlace};

use crate::sanitize::enumeration64::rewrite_enum64;
use crate::sanitize::func_proto::rewrite_proto;
use crate::sanitize::made::Made;
use crate::sanitize::outcome::{Outcome, outcome_of};
use crate::table::Btf;
use btf_plain::{BtfError, BtfKind, Const, Int, IntEncoding, Typedef};
use btf_records::{BtfType, Struct};
use std::alloc::Global;

/// The rule of a type that is neither a FUNC nor a DATASEC, for a kernel that has or lacks the feature that the type
/// asks for.
#[inline(always)]
pub fn rewrite_by(
    made: &mut Made,
    btf: &Btf,
    btf_type: &BtfType,
    granted: bool,
) -> Result<Outcome, BtfError>
    requires { HasRoom btf.now made.old.changes }
    ensures { RewritesBy made.old made.new btf.now btf_type.now granted result }
{
    match btf_type {
        BtfType::FuncProto(proto) => outcome_of(rewrite_proto(made, btf, proto, granted)),
        BtfType::Enum64(enum64) if !granted => {
            Ok(Outcome::Other(rewrite_enum64(made, btf, enum64)?))
        }
        BtfType::Enum64(_) => Ok(Outcome::Same),
        _ if changes_in_place(btf_type, granted) => Ok(Outcome::Denied),
        _ => Ok(Outcome::Same),
    }
}

/// Whether a type changes in place, as `deny` changes it: a PTR that has a name does, and so does a type that asks for
/// a feature that is not granted. Not for a FUNC, because its rule asks for more.
fn changes_in_place(btf_type: &BtfType, granted: bool) -> bool
    ensures words { ChangesInPlace btf_type.now granted result }
    ensures len { length (record_of (if result then denied_type btf_type.now
        else btf_type.now)).tail ≡ length (record_of btf_type.now).tail }
    ensures fallback { fallback_of (if result then denied_type btf_type.now else btf_type.now)
        ≡ fallback_of btf_type.now }
{
    match btf_type.kind() {
        BtfKind::Ptr => btf_type.name_offset() != 0,
        BtfKind::Var | BtfKind::Float | BtfKind::DeclTag | BtfKind::TypeTag | BtfKind::Enum => {
            !granted
        }
        _ => false,
    }
}

/// The string offset of the name that a type has after `deny`.
pub fn denied_name_offset(btf_type: &BtfType) -> u32
    ensures name { result ≡ (record_of (denied_type btf_type.now)).name }
    ensures len { length (record_of (denied_type btf_type.now)).tail
        ≡ length (record_of btf_type.now).tail }
{
    match btf_type.kind() {
        BtfKind::Ptr | BtfKind::Float | BtfKind::TypeTag => 0,
        _ => btf_type.name_offset(),
    }
}

/// Changes a type in place, for a kernel that lacks its feature: a PTR loses its name, a VAR and a DECL_TAG become an
/// INT of one byte, a FLOAT a STRUCT without members, a TYPE_TAG a CONST, a FUNC a TYPEDEF, and an ENUM loses its sign.
/// Other types are unchanged.
pub fn deny(alloc: Global, btf_type: &mut BtfType)
    ensures words { record_of btf_type.new ≡ denied (record_of btf_type.old) }
    ensures fallback { fallback_of btf_type.new ≡ fallback_of btf_type.old }
    ensures len { length (record_of btf_type.new).tail ≡ length (record_of btf_type.old).tail }
    ensures kind { kind_of (record_of btf_type.new).info ≡ Some (type_kind btf_type.new) }
{
    // The contract is about the kind in the info word and the length of the tail, which this shows.
    let _ = btf_type.kind();
    let new_type = match btf_type {
        BtfType::Ptr(ptr) => {
            ptr.set_name_offset(0);
            return;
        }
        BtfType::Enum(enumeration) => {
            enumeration.set_signed(false);
            return;
        }
        BtfType::Var(var) => byte_int(var.name_offset()),
        BtfType::DeclTag(tag) => byte_int(tag.name_offset()),
        BtfType::Float(float) => BtfType::Struct(Struct::new(0, Vec::new(alloc), float.size())),
        BtfType::TypeTag(tag) => BtfType::Const(Const::new(tag.btf_type())),
        BtfType::Func(func) => {
            BtfType::Typedef(Typedef::new(func.name_offset(), func.btf_type()))
        }
        _ => return,
    };
    *btf_type = new_type;
}

/// An INT of one byte with this name.
fn byte_int(name_offset: u32) -> BtfType
    ensures words { record_of result ≡ model.byte_int name_offset }
    ensures fallback { fallback_of result ≡ None }
{
    BtfType::Int(Int::new(name_offset, 1, IntEncoding::None, 0))
}
