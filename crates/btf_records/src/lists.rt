//! Reading the records with a list, each kind in a function of its own, because a function clears its whole stack frame
//! when it is called, and the list is on the call stack until the record is put in a slot.

ghost use Rattle.std.specs.Prelude.{◌≡◌, Some};
ghost use Rattle.btf_model.specs.Record as model;
ghost use Rattle.btf_model.specs.Record.{kind_of};
ghost use Rattle.btf_plain.specs.Head.{ReadsTail};
ghost use Rattle.btf_records.specs.Slot.{Puts, StaysOr};

use crate::btf_type::BtfType;
use crate::slot::{Slot, put};
use crate::union::Union;
use btf_plain::{BtfError, Endianness, Head, Record};
use std::alloc::Global;

/// Puts a STRUCT with this head in a slot. Returns its length in bytes.
pub fn put_struct<S: Slot>(
    slot: &mut S,
    alloc: Global,
    head: &Head,
    rest: &[u8],
    endianness: Endianness,
) -> Result<usize, BtfError>
    requires { kind_of head.now.info ≡ Some model.Struct }
    ensures { Puts S.has_put (StaysOr S.has_kept) slot.old slot.new
        (ReadsTail endianness head.now model.Struct rest.now) result }
{
    let list = Record::read(alloc, *head, rest, endianness)?;
    put(slot, BtfType::Struct(list))
}

/// Puts a UNION with this head in a slot. Returns its length in bytes.
pub fn put_union<S: Slot>(
    slot: &mut S,
    alloc: Global,
    head: &Head,
    rest: &[u8],
    endianness: Endianness,
) -> Result<usize, BtfError>
    requires { kind_of head.now.info ≡ Some model.Union }
    ensures { Puts S.has_put (StaysOr S.has_kept) slot.old slot.new
        (ReadsTail endianness head.now model.Union rest.now) result }
{
    let list = Union::read(alloc, *head, rest, endianness)?;
    put(slot, BtfType::Union(list))
}

/// Puts a ENUM with this head in a slot. Returns its length in bytes.
pub fn put_enum<S: Slot>(
    slot: &mut S,
    alloc: Global,
    head: &Head,
    rest: &[u8],
    endianness: Endianness,
) -> Result<usize, BtfError>
    requires { kind_of head.now.info ≡ Some model.Enum }
    ensures { Puts S.has_put (StaysOr S.has_kept) slot.old slot.new
        (ReadsTail endianness head.now model.Enum rest.now) result }
{
    let list = Record::read(alloc, *head, rest, endianness)?;
    put(slot, BtfType::Enum(list))
}

/// Puts a FUNC_PROTO with this head in a slot. Returns its length in bytes.
pub fn put_func_proto<S: Slot>(
    slot: &mut S,
    alloc: Global,
    head: &Head,
    rest: &[u8],
    endianness: Endianness,
) -> Result<usize, BtfError>
    requires { kind_of head.now.info ≡ Some model.FuncProto }
    ensures { Puts S.has_put (StaysOr S.has_kept) slot.old slot.new
        (ReadsTail endianness head.now model.FuncProto rest.now) result }
{
    let list = Record::read(alloc, *head, rest, endianness)?;
    put(slot, BtfType::FuncProto(list))
}

/// Puts a DATASEC with this head in a slot. Returns its length in bytes.
pub fn put_data_sec<S: Slot>(
    slot: &mut S,
    alloc: Global,
    head: &Head,
    rest: &[u8],
    endianness: Endianness,
) -> Result<usize, BtfError>
    requires { kind_of head.now.info ≡ Some model.DataSec }
    ensures { Puts S.has_put (StaysOr S.has_kept) slot.old slot.new
        (ReadsTail endianness head.now model.DataSec rest.now) result }
{
    let list = Record::read(alloc, *head, rest, endianness)?;
    put(slot, BtfType::DataSec(list))
}

/// Puts a ENUM64 with this head in a slot. Returns its length in bytes.
pub fn put_enum64<S: Slot>(
    slot: &mut S,
    alloc: Global,
    head: &Head,
    rest: &[u8],
    endianness: Endianness,
) -> Result<usize, BtfError>
    requires { kind_of head.now.info ≡ Some model.Enum64 }
    ensures { Puts S.has_put (StaysOr S.has_kept) slot.old slot.new
        (ReadsTail endianness head.now model.Enum64 rest.now) result }
{
    let list = Record::read(alloc, *head, rest, endianness)?;
    put(slot, BtfType::Enum64(list))
}
