//! Single records: read, written, copied, and built in memory.

use crate::words::Words;
use btf::{
    Array, BtfEnum, BtfEnum64, BtfParam, BtfType, DataSec, DataSecEntry, DeclTag, Endianness, Enum,
    Enum64, FuncProto, Int, IntEncoding, Ptr, Var, VarLinkage,
};
use std::alloc::{AllocError, Global};

/// The bytes of a record in an order, as hexadecimal digits.
fn digits(alloc: Global, record: &BtfType, order: Endianness) -> anyhow::Result<String> {
    let written = record.to_bytes(alloc, order)?;
    Ok(hex::encode(alloc, written)?)
}

/// The kind of a record, its length in bytes, its size, and the type that it refers to; then its bytes, and those of
/// its clone.
fn text(alloc: Global, record: &BtfType, order: Endianness) -> anyhow::Result<String> {
    let clone = record.try_clone()?;
    let (written, copied) = (digits(alloc, record, order)?, digits(alloc, &clone, order)?);
    let (kind, len) = (record.kind(), record.type_info_size());
    let (size, to) = (record.size(), record.btf_type());
    Ok(format!(in alloc; "{kind} {len} {size:?} {to:?} {written} {copied}")?)
}

/// `record ORDER BYTES`
pub fn record(words: &mut Words<'_>) -> anyhow::Result<String> {
    let order = words.order();
    let bytes = words.bytes()?;
    let record = BtfType::read(words.alloc, &bytes, order)?;
    text(words.alloc, &record, order)
}

/// `bits ORDER BYTES`: the number of bits of an INT.
pub fn int_bits(words: &mut Words<'_>) -> anyhow::Result<String> {
    let order = words.order();
    let bytes = words.bytes()?;
    let record = BtfType::read(words.alloc, &bytes, order)?;
    let bits = match &record {
        BtfType::Int(int) => Some(int.bits()),
        _ => None,
    };
    Ok(format!(in words.alloc; "{bits:?}")?)
}

fn func_proto(alloc: Global) -> Result<BtfType, AllocError> {
    let param = |name_offset| BtfParam {
        name_offset,
        btf_type: 1,
    };
    let params = vec![in alloc; param(1), param(3)]?;
    Ok(BtfType::FuncProto(FuncProto::new(params, 2)))
}

fn section(alloc: Global) -> Result<BtfType, AllocError> {
    let entry = DataSecEntry {
        btf_type: 11,
        offset: 0,
        size: 4,
    };
    let entries = vec![in alloc; entry]?;
    Ok(BtfType::DataSec(DataSec::new(0xd9, entries, 0)))
}

fn narrow_enum(alloc: Global) -> Result<BtfType, AllocError> {
    let variants = vec![in alloc; BtfEnum::new(0xc9, 0)]?;
    Ok(BtfType::Enum(Enum::new(0, true, variants)))
}

fn wide_enum(alloc: Global) -> Result<BtfType, AllocError> {
    let variants = vec![in alloc; BtfEnum64::new(0, 0xbbbb_bbbb_aaaa_aaaa)]?;
    Ok(BtfType::Enum64(Enum64::new(0, false, variants)))
}

/// A record that is built in memory.
fn built(alloc: Global, name: &str) -> Result<BtfType, AllocError> {
    match name {
        "ptr" => Ok(BtfType::Ptr(Ptr::new(0, 6))),
        "array" => Ok(BtfType::Array(Array::new(0, 1, 0x12, 2))),
        "var" => Ok(BtfType::Var(Var::new(5, 9, VarLinkage::Extern))),
        "decl_tag" => Ok(BtfType::DeclTag(DeclTag::new(2, 6, -1))),
        // 256 bits are 0 in the data word.
        "int" => Ok(BtfType::Int(Int::new(0, 32, IntEncoding::None, 0))),
        "func_proto" => func_proto(alloc),
        "section" => section(alloc),
        "enum" => narrow_enum(alloc),
        _ => wide_enum(alloc),
    }
}

/// `built NAME ORDER`: the bytes of a record that is built in memory.
pub fn built_record(words: &mut Words<'_>) -> anyhow::Result<String> {
    let record = built(words.alloc, words.word())?;
    let order = words.order();
    digits(words.alloc, &record, order)
}
