//! Reading records from bytes, and writing them.

ghost use Rattle.std.specs.Prelude.{◌≡◌, ◌++◌, [], ◌∷◌, Some, None, Ok, IfOk};
ghost use Rattle.btf_model.specs.Record.{kind_of};
ghost use Rattle.btf_model.specs.Spelling.{spell, IsRecord};
ghost use Rattle.btf_model.specs.Blob.{ReadsFront};
ghost use Rattle.btf_plain.specs.Error.{MeetsOrNoMemory, IsOrNoMemory};
ghost use Rattle.btf_records.specs.BtfType.{record_of, fallback_of};
ghost use Rattle.btf_plain.specs.Head.{ReadsTail};
ghost use Rattle.btf_records.specs.Slot.{Puts, StaysOr};
ghost use Rattle.btf_plain.specs.Kind as kinds;

use crate::btf_type::BtfType;
use crate::lists::{put_data_sec, put_enum, put_enum64, put_func_proto, put_struct, put_union};
use crate::slot::{One, Slot, put};
use btf_plain::{BtfError, BtfKind, Endianness, Head, Record};
use std::alloc::Global;

impl BtfType {
    /// The record at the front of the data, with words in this byte order. Bytes may follow it.
    ///
    /// Fails if there is no record at the front: with `InvalidTypeInfo` if the data ends before the record does, and
    /// with `InvalidTypeKind` if there is no such kind. The third word of FWD and ARRAY is dropped, a linkage of VAR
    /// above 2 is read as Unknown, and a record of kind 0 is Unknown whatever its other words are.
    pub fn read(alloc: Global, data: &[u8], endianness: Endianness) -> Result<BtfType, BtfError>
        ensures front { MeetsOrNoMemory record_of result
            (ReadsFront endianness «data».now) }
        ensures no_fallback { IfOk result (λ t. fallback_of t ≡ None) }
    {
        let mut one = One {
            btf_type: BtfType::Unknown,
        };
        read_to(&mut one, alloc, data, endianness)?;
        Ok(one.btf_type)
    }

    /// Reads the record at the front of the data as `read` does, and adds it to types. Returns its length in bytes. An
    /// error leaves the types unchanged.
    pub fn read_onto(
        types: &mut Vec<BtfType>,
        data: &[u8],
        endianness: Endianness,
    ) -> Result<usize, BtfError>
        ensures { Puts (λ old t new. new ≡ old ++ t ∷ []) (λ old new. new ≡ old)
            types.old.items types.new.items (ReadsFront endianness «data».now) result }
    {
        let alloc = *types.allocator();
        read_to(types, alloc, data, endianness)
    }

    /// The bytes of the record, in this byte order. `OutOfMemory` is the only error.
    pub fn to_bytes(&self, alloc: Global, endianness: Endianness) -> Result<Vec<u8>, BtfError>
        ensures written { IsOrNoMemory (λ v. v.items) result
            (Ok (spell endianness (record_of self.now))) }
        // The written bytes are read as the record.
        ensures read_again { IfOk result
            (λ v. IsRecord endianness v.items (record_of self.now)) }
    {
        let mut out = Vec::with_capacity(alloc, self.type_info_size())?;
        self.append_to(&mut out, endianness)?;
        Ok(out)
    }
}

/// Puts the record at the front of the data in a slot. Returns its length in bytes.
#[inline(always)]
fn read_to<S: Slot>(
    slot: &mut S,
    alloc: Global,
    data: &[u8],
    endianness: Endianness,
) -> Result<usize, BtfError>
    ensures { Puts S.has_put (StaysOr S.has_kept) slot.old slot.new
        (ReadsFront endianness «data».now) result }
{
    let (head, rest) = Head::read(data, endianness)?;
    let kind = BtfKind::try_from(head.kind())?;
    put_tail(slot, alloc, kind, head, rest, endianness)
}

/// Puts a record in a slot: for the first kinds the record that is read, for the others by an expression of their own.
macro_rules! put_by_kind {
    (
        $kind:expr, $slot:expr, $read:expr;
        $($read_kind:ident),*;
        $($other:ident => $put:expr),*
    ) => {
        match $kind {
            $(BtfKind::$read_kind => put($slot, BtfType::$read_kind($read)),)*
            $(BtfKind::$other => $put,)*
        }
    };
}

/// Puts a record of this kind and head in a slot. Returns its length in bytes.
#[inline(always)]
fn put_tail<S: Slot>(
    slot: &mut S,
    alloc: Global,
    kind: BtfKind,
    head: Head,
    rest: &[u8],
    endianness: Endianness,
) -> Result<usize, BtfError>
    requires { kind_of head.info ≡ Some (kinds.kind kind) }
    ensures { Puts S.has_put (StaysOr S.has_kept) slot.old slot.new
        (ReadsTail endianness head (kinds.kind kind) rest.now) result }
{
    put_by_kind!(
        kind, slot, Record::read(alloc, head, rest, endianness)?;
        Int, Ptr, Array, Fwd, Typedef, Volatile, Const, Restrict, Func, Var, Float, DeclTag, TypeTag;
        Unknown => put(slot, BtfType::Unknown),
        Struct => put_struct(slot, alloc, &head, rest, endianness),
        Union => put_union(slot, alloc, &head, rest, endianness),
        Enum => put_enum(slot, alloc, &head, rest, endianness),
        FuncProto => put_func_proto(slot, alloc, &head, rest, endianness),
        DataSec => put_data_sec(slot, alloc, &head, rest, endianness),
        Enum64 => put_enum64(slot, alloc, &head, rest, endianness)
    )
}
