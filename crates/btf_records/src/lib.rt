//! The record of any kind: reading it from bytes, and writing it. UNION; re-exports of the other kinds with a list.
#![tactic(auto)]

mod btf_type;
mod codec;
mod lists;
mod slot;
mod union;

pub use btf_plain::{
    BtfEnum, BtfEnum64, BtfMember, BtfParam, DataSec, DataSecEntry, Enum, Enum64, Enum64Fallback,
    Enum64VariantFallback, FuncProto, Struct, as_enum,
};
pub use btf_type::{BtfType, without_fallback};
pub use union::Union;
